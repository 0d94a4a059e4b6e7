// Scalars that are put one after another.
ghost use Rattle.std.specs.Prelude.{◌≤◌, length};
ghost use Rattle.flow_messages.specs.Contents.{item_messages};
ghost use Rattle.flow_messages.specs.Kinds.{TakesItems};
ghost use Rattle.flow_rings.specs.Edge.{certain_room, kind_of};
ghost use Rattle.flow_edges.specs.lanes.Followed.{PutsInTurn};

use flow_messages::Items;
use flow_rings::EdgeWriter;

// Puts these items one after another, where room is certain. They are dropped where `End` was put before.
pub(crate) fn put_each(edge: &mut EdgeWriter, items: Items<'_>)
    requires takes { TakesItems (kind_of edge.old) items }
    requires certain { length (item_messages items) ≤ certain_room edge.old }
    ensures { PutsInTurn (item_messages items.entry) edge.old edge.new }
{
    for at in 0..items.len() {
        let _ = edge.put(items.message(at));
    }
}
