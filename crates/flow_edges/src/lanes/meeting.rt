// Both ends of a lane at once.
ghost use Rattle.std.specs.Prelude.{◌≡◌, ◌+◌, ◌≤◌, ℕ, [], ◌++◌, Some, length};
ghost use Rattle.flow_messages.specs.declared.message.Kind.TheVariants.{Int as IntKind};
ghost use mathlib.Core.List.{IsPrefix};
ghost use Rattle.flow_boxes.specs.Coming.{HasCome};
ghost use Rattle.flow_rings.specs.Edge as ring;
ghost use Rattle.flow_words.specs.Edge as words;
ghost use Rattle.flow_words.specs.Ring.{HasRoomFor};
ghost use Rattle.flow_edges.specs.lanes.Credits.{Owes, HearsAll};
ghost use Rattle.flow_edges.specs.lanes.Taken.{taken_from, held_in, SamePocket};
ghost use Rattle.flow_edges.specs.lanes.Counted.{put_by, sure_room};
ghost use Rattle.flow_edges.specs.lanes.Many.{many_messages};
ghost use Rattle.flow_edges.specs.declared.lanes.ends.LaneWriter.TheVariants.{Scalars as ScalarsTo};
ghost use Rattle.flow_edges.specs.declared.lanes.ends.LaneReader.TheVariants.{Scalars as ScalarsFrom};
ghost use Rattle.flow_edges.specs.lanes.Lane.{sent, received, certain_room, certain_held, edge_capacity, IsLane, IsOut, SameWriter, SameReader, StaysCertain};

use crate::lanes::counted::CountedWriter;
use crate::lanes::ends::{LaneReader, LaneWriter};
use crate::lanes::pocket::Pocket;
use crate::lanes::taking::{take_each, tell};
use flow_boxes::Inbox;
use flow_messages::history::History;
use flow_rings::{EdgeReader, EdgeWriter, Held, meet};
use flow_words::{WordReader, WordWriter, meet as look};

/// Has both ends of a lane see each other: how many messages the lane holds, and how many more it has
/// room for. What was taken and what the lane holds are what was put, and nothing is gathered.
pub fn meet_lane(writer: &mut LaneWriter, reader: &mut LaneReader) -> Held
    requires { IsLane writer.old reader.old }
    ensures writer { SameWriter writer.old writer.new × (sent writer.new ≡ sent writer.old) }
    ensures reader { SameReader reader.old reader.new ×
        (received reader.new ≡ received reader.old) }
    ensures looked { StaysCertain writer.old reader.old writer.new reader.new }
    ensures pair { IsLane writer.new reader.new }
    ensures fifo { received reader.new ++ certain_held reader.new ≡ sent writer.new }
    ensures count { result.count ≡ length (certain_held reader.new) }
    ensures room { result.room ≤ certain_room writer.new }
    ensures whole { result.count + result.room ≡ edge_capacity writer.new }
    ensures out { IsOut writer.new }
{
    match (writer, reader) {
        (LaneWriter::Messages(writer), LaneReader::Messages(reader)) => meet(writer, reader),
        (LaneWriter::Scalars(writer), LaneReader::Scalars(reader)) => meet_pocket(writer, reader),
        _ => unreachable!(),
    }
}

// The two ends of a lane of scalars see each other. All that is gathered goes on the edge, and all that the edge holds goes into
// the pocket, where it is counted.
fn meet_pocket(writer: &mut CountedWriter, reader: &mut Pocket) -> Held
    requires { IsLane (ScalarsTo writer.old) (ScalarsFrom reader.old) }
    ensures writer { SameWriter (ScalarsTo writer.old) (ScalarsTo writer.new) }
    ensures reader { SamePocket reader.old reader.new }
    ensures sent { put_by writer.new ≡ put_by writer.old }
    ensures received { taken_from reader.new ≡ taken_from reader.old }
    ensures room { sure_room writer.old ≤ sure_room writer.new }
    ensures held { IsPrefix (held_in reader.old) (held_in reader.new) }
    ensures fifo { taken_from reader.new ++ held_in reader.new ≡ put_by writer.new }
    ensures count { result.count ≡ length (held_in reader.new) }
    ensures free { result.room ≤ sure_room writer.new }
    ensures whole { result.count + result.room ≡ words.edge_capacity writer.new.edge }
    ensures out { many_messages writer.new.gathered.items ≡ [] }
{
    writer.put_out();
    look(&mut writer.edge, &mut reader.edge);
    reader.owed = settle(&mut reader.back, &mut writer.back, reader.owed);
    gather(&mut writer.edge, &mut reader.edge, &mut reader.inbox);
    reader.came = History::new().followed_by(&reader.inbox.arrived);
    let count = reader.inbox.store.len();
    writer.room = writer.capacity - count;
    writer.free = writer.room;
    Held {
        count,
        room: writer.room,
    }
}

// All that the ends of an edge saw it to hold goes into an inbox, and the writer sees that the edge holds nothing.
fn gather(writer: &mut WordWriter, reader: &mut WordReader, inbox: &mut Inbox)
    requires edge { words.IsEdge writer.old reader.old }
    requires fifo { words.received reader.old ++ words.certain_held reader.old ≡
        words.sent writer.old }
    requires room { HasRoomFor inbox.old (length (words.certain_held reader.old)) }
    requires kind { words.HoldsKind reader.old inbox.old }
    requires ended { words.HoldsItsEnd reader.old inbox.old }
    ensures writer { words.SameWriter writer.old writer.new }
    ensures sent { words.sent writer.new ≡ words.sent writer.old }
    ensures reader { words.SameReader reader.old reader.new }
    ensures received { words.received reader.new ≡ words.sent writer.old }
    ensures none { words.certain_held reader.new ≡ [] }
    ensures come { HasCome (words.certain_held reader.old) inbox.old inbox.new }
    ensures looked { words.certain_room writer.old ≤ words.certain_room writer.new }
    ensures room { words.edge_capacity writer.new ≤ words.certain_room writer.new }
{
    reader.take_certain(inbox);
    look(writer, reader);
}

// The writer reads all that it is told of what was taken. How many are still untold.
fn settle(teller: &mut EdgeWriter, back: &mut EdgeReader, owed: u64) -> u64
    requires kind { ring.kind_of teller.old ≡ Some IntKind }
    requires joined { ring.IsEdge teller.old back.old }
    ensures teller { ring.SameWriter teller.old teller.new }
    ensures back { ring.SameReader back.old back.new }
    ensures begins { IsPrefix (ring.received back.old) (ring.received back.new) }
    ensures owes { (taken : ℕ) → Owes taken owed teller.old → Owes taken result teller.new }
    ensures told { (taken : ℕ) → Owes taken owed teller.old → HearsAll taken back.old back.new }
{
    hear(teller, back);
    let owed = tell(teller, owed);
    hear(teller, back);
    owed
}

// The writer reads all that it was told, and so there is room to tell it more.
fn hear(teller: &mut EdgeWriter, back: &mut EdgeReader)
    requires { ring.IsEdge teller.old back.old }
    ensures teller { ring.SameWriter teller.old teller.new }
    ensures back { ring.SameReader back.old back.new }
    ensures sent { ring.sent teller.new ≡ ring.sent teller.old }
    ensures heard { ring.received back.new ≡ ring.sent teller.new }
    ensures begins { IsPrefix (ring.received back.old) (ring.received back.new) }
    ensures room { ring.edge_capacity teller.new ≤ ring.certain_room teller.new }
{
    let found = meet(teller, back);
    take_each(back, found.count);
    meet(teller, back);
}
