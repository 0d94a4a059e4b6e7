// The two ends of every edge meet.
ghost use Rattle.std.specs.Prelude.{◌<◌, length};
ghost use Rattle.flow_edges.specs.lanes.Rings.{Kept};
ghost use Rattle.flow_shares.specs.meetings.Everywhere.{EachOwner, EachBecame, SlotsStay, JoinsAt, JoinsEverywhere, HaveMetAt, HaveMetEverywhere};

use crate::meetings::meeting::Meeting;
use crate::meetings::owners::EdgeOwners;

// The two ends of one edge meet, wherever they are.
fn meet_edge<E: Meeting>(ends: &mut [E], owner: EdgeOwners, edge: usize)
    requires writer { owner.writer < length ends.old }
    requires reader { owner.reader < length ends.old }
    requires joined { JoinsAt E.joins ends.old owner edge }
    ensures meets { EachBecame (E.meets edge) ends.old ends.new }
    ensures joined { JoinsAt E.joins ends.new owner edge }
    ensures met { HaveMetAt E.view E.slots ends.new owner edge }
{
    if owner.writer == owner.reader {
        ends[owner.writer].meet_own(edge);
    } else if owner.writer < owner.reader {
        let (front, back) = ends.split_at_mut(owner.reader);
        front[owner.writer].meet_with(&mut back[0], edge);
    } else {
        let (front, back) = ends.split_at_mut(owner.writer);
        back[0].meet_with(&mut front[owner.reader], edge);
    }
}

/// The two ends of every edge meet. The ends are those of the shares, by their numbers, and the owners
/// say of each edge, by its number, in which two shares its ends are.
pub fn meet_all<E: Meeting>(ends: &mut [E], owners: &[EdgeOwners])
    requires writers { EachOwner (λ owner. owner.writer < length ends.old) owners.now }
    requires readers { EachOwner (λ owner. owner.reader < length ends.old) owners.now }
    requires joined { JoinsEverywhere E.joins ends.old owners.now }
    ensures kept { EachBecame (λ a b. Kept (E.view a) (E.view b)) ends.old ends.new }
    ensures same { EachBecame E.stays ends.old ends.new }
    ensures places { SlotsStay E.slots ends.old ends.new }
    ensures joined { JoinsEverywhere E.joins ends.new owners.now }
    ensures met { HaveMetEverywhere E.view E.slots ends.new owners.now }
{
    for edge in 0..owners.len() {
        meet_edge(ends, owners[edge], edge);
    }
}
