// What follows where ends have met, and what holds of shares that go on side by side. The functions do nothing: their
// contracts are the theorems.
ghost use Rattle.std.specs.Prelude.{◌≡◌};
ghost use mathlib.Core.List.{IsPrefix};
ghost use Rattle.flow_messages.specs.Ends.{held};
ghost use Rattle.flow_boxes.specs.Contents.{view_of};
ghost use Rattle.flow_shares.specs.meetings.Met.{HasArrived, ComesOfSent, HoldsAtLeast, WhereMet};
ghost use Rattle.flow_shares.specs.meetings.RoundTheorems.{FreshSharesStart, MeetingIsSound, RoundIsARun, CalmRoundsRest, CalmRoundLeadsToRest, CarryingKeepsTheConfiguration};
ghost use Rattle.flow_shares.specs.meetings.EndTheorems.{OwnSharesAreSound, StuckSharesRest};
ghost use Rattle.flow_shares.specs.meetings.BoxMeetings.{RoomIsRest, WhereBoxesMet};

use flow_base::Transducer;

/// Where both ends of an edge have met, what was received is a prefix of what was sent, and all of
/// it where the edge holds nothing. What was received and what is coming are what was sent, where no
/// more is coming than was sent. Where there is no room, the edge is full.
pub fn met_is_in_order()
    ensures begins { WhereMet (λ a b slots e. IsPrefix (b.received e) (a.sent e)) }
    ensures none { WhereMet (λ a b slots e. held b e ≡ 0 → b.received e ≡ a.sent e) }
    ensures whole { WhereMet (λ a b slots e. ComesOfSent a b e → HasArrived a b e) }
    ensures full { WhereMet (λ a b slots e. a.room e ≡ 0 → HoldsAtLeast a b slots e) }
{}

/// Where the boxes of an edge have met, what was received and what is coming are what was sent, and
/// what is not held is room.
pub fn boxes_are_level()
    ensures arrived { WhereBoxesMet (λ a b e. HasArrived (view_of a) (view_of b) e) }
    ensures room { WhereBoxesMet RoomIsRest }
{}

/// Where the nodes are in their opening states and nothing was sent, the shares are where their network starts.
pub fn fresh_shares_start<T: Transducer>()
    ensures { FreshSharesStart ⟦<T as Transducer>⟧ }
{}

/// Whatever ends the shares have: where each node's history is that of its own ends, and on each edge what was received is
/// a prefix of what was sent, the configuration is sound.
pub fn own_shares_are_sound<T: Transducer>()
    ensures { OwnSharesAreSound ⟦<T as Transducer>⟧ }
{}

/// Where all edges have met, and each node's history is that of its own ends, the configuration is sound.
pub fn a_meeting_is_sound<T: Transducer>()
    ensures { MeetingIsSound ⟦<T as Transducer>⟧ }
{}

/// Where all edges had met, and then each share went on by itself, what all did together is a run of the network.
pub fn a_round_is_a_run<T: Transducer>()
    ensures { RoundIsARun ⟦<T as Transducer>⟧ }
{}

/// Whatever ends the shares have: where the ends of every edge have met, and no node of any share can step by what its own
/// ends are certain of, no node can step.
pub fn stuck_shares_rest<T: Transducer>()
    ensures { StuckSharesRest ⟦<T as Transducer>⟧ }
{}

/// Where all edges have met, and no node of any share can step by what its own boxes are certain of, no node can step.
pub fn calm_rounds_rest<T: Transducer>()
    ensures { CalmRoundsRest ⟦<T as Transducer>⟧ }
{}

/// Where all edges had met, and in a round no share sent or received anything and each ran until its nodes were stuck by
/// its own boxes, no node can step.
pub fn a_calm_round_leads_to_rest<T: Transducer>()
    ensures { CalmRoundLeadsToRest ⟦<T as Transducer>⟧ }
{}

/// Carrying messages from box to box leaves each node and each edge where it stood.
pub fn carrying_keeps_the_configuration<T: Transducer>()
    ensures { CarryingKeepsTheConfiguration ⟦<T as Transducer>⟧ }
{}
