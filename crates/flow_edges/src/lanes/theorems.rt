// What follows for lanes, and for the ends of the shares. The functions do nothing: their contracts are the theorems.
ghost use Rattle.std.specs.Prelude.{◌≡◌, ◌++◌, ℕ};
ghost use Rattle.flow_messages.specs.Ends.{SameEnds};
ghost use Rattle.flow_rings.specs.declared.ring.Held.{Held};
ghost use Rattle.flow_edges.specs.declared.lanes.ends.LaneReader.{LaneReader};
ghost use Rattle.flow_edges.specs.declared.lanes.rings.Rings.{Rings};
ghost use Rattle.flow_edges.specs.lanes.Lane.{received, in_pocket, taken_over};
ghost use Rattle.flow_edges.specs.lanes.Rings.{ends_of, capacity_at, AreSeen, EndsWhole, IsBegun, JoinsEdge, SameRings, RingsHaveMet};

/// What was received over a lane, and what its pocket holds and has not given yet, are together all that the reader's edge
/// states as received. A lane of messages has no pocket: there the two are the same.
pub fn received_came_over_the_ring()
    ensures { (reader : LaneReader) → received reader ++ in_pocket reader ≡ taken_over reader }
{}

/// The ends of one edge stay so, whatever either share was called for since: each is there, at its
/// number, and the edge keeps its capacity. Where they have met, what was received is a prefix of
/// what was sent, and all of it where a stop was received.
pub fn rings_stay_joined()
    ensures joined { (a a' b b' : Rings) (e : ℕ) → JoinsEdge a b e →
        SameRings a a' → SameRings b b' → JoinsEdge a' b' e }
    ensures there { (a b : Rings) (e : ℕ) → JoinsEdge a b e → AreSeen a b e }
    ensures ends { (a b : Rings) → SameRings a b → SameEnds (ends_of a) (ends_of b) }
    ensures capacity { (a b : Rings) (e : ℕ) → SameRings a b → capacity_at b e ≡ capacity_at a e }
    ensures begins { (a b : Rings) (e : ℕ) (held : Held) → RingsHaveMet a b e held → IsBegun a b e }
    ensures stopped { (a b : Rings) (e : ℕ) (held : Held) → RingsHaveMet a b e held → EndsWhole a b e }
{}
