// Sets of ends that can meet.
use flow_messages::Ends;

/// Some ends of some edges. Two of such sets, or one alone, can have both ends of an edge, and these
/// then can meet. A meeting takes no memory, and sends and receives nothing.
pub trait Meeting: Ends {
    ghost use Rattle.std.specs.Prelude.{◌≡◌, ◌≢◌, ℕ, true};
    ghost use Rattle.flow_edges.specs.lanes.Rings.{Kept};
    ghost use Rattle.flow_shares.specs.meetings.Met.{Met, HasArrived};

    /// The writer's end of this edge, which is in the first, and the reader's, which is in the second,
    /// are the two of one edge.
    ghost joins: { Self → Self → ℕ → Type 0 };

    /// How many messages this edge holds at most, where its writer's end is here.
    ghost slots: { Self → ℕ → ℕ };

    /// Before and after a meeting at this edge.
    ghost meets: { ℕ → Self → Self → Type 0 };

    /// The two are the same ends, before and after meetings and whatever else they are called for.
    ghost stays: { Self → Self → Type 0 };

    /// The writer's end that is here and the reader's that is there meet.
    fn meet_with(&mut self, other: &mut Self, edge: usize)
        requires { joins self.old other.old edge }
        ensures writer { meets edge self.old self.new }
        ensures reader { meets edge other.old other.new }
        ensures joined { joins self.new other.new edge }
        ensures met { Met (Self.view self.new) (Self.view other.new) (slots self.new edge) edge }
        ensures arrived { HasArrived (Self.view self.new) (Self.view other.new) edge };

    /// Both ends of the edge, which are here, meet.
    fn meet_own(&mut self, edge: usize)
        requires { joins self.old self.old edge }
        ensures meets { meets edge self.old self.new }
        ensures joined { joins self.new self.new edge }
        ensures met { Met (Self.view self.new) (Self.view self.new) (slots self.new edge) edge }
        ensures arrived { HasArrived (Self.view self.new) (Self.view self.new) edge };

    /// Ends that join are there.
    ghost join_ends: { (a b : Self) (e : ℕ) → joins a b e →
        ((Self.view a).writes e ≡ true) × ((Self.view b).reads e ≡ true) };

    /// Where there was no meeting, all is as after one.
    ghost meets_refl: { (e : ℕ) (a : Self) → meets e a a };

    /// A meeting sends and receives nothing, and loses no certainty.
    ghost meets_kept: { (e : ℕ) (a b : Self) → meets e a b → Kept (Self.view a) (Self.view b) };

    /// A meeting changes no number of slots.
    ghost meets_slots: { (e : ℕ) (a b : Self) → meets e a b → (k : ℕ) → slots b k ≡ slots a k };

    /// A meeting leaves the same ends.
    ghost meets_stays: { (e : ℕ) (a b : Self) → meets e a b → stays a b };

    /// Whatever the ends are called for between meetings, they are the same.
    ghost same_stays: { (a b : Self) → Self.same a b → stays a b };

    ghost stays_trans: { (a b c : Self) → stays a b → stays b c → stays a c };

    /// What joins stays so over a meeting at another edge, of the writer's share.
    ghost join_writer: { (a a' b : Self) (e k : ℕ) → joins a b k → k ≢ e → meets e a a' →
        joins a' b k };

    /// What joins stays so over a meeting at another edge, of the reader's share.
    ghost join_reader: { (a b b' : Self) (e k : ℕ) → joins a b k → k ≢ e → meets e b b' →
        joins a b' k };

    /// What joins stays so, whatever the shares are called for between meetings.
    ghost stay_joined: { (a a' b b' : Self) (e : ℕ) → joins a b e → Self.same a a' →
        Self.same b b' → joins a' b' e };

    /// The number of slots stays, whatever the share is called for between meetings.
    ghost keep_slots: { (a b : Self) → Self.same a b → (k : ℕ) → slots b k ≡ slots a k };
}
