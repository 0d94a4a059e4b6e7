// Where a lane is made.
ghost use Rattle.std.specs.Prelude.{◌≡◌, ◌<◌, ◌≤◌, [], IfOk};
ghost use Rattle.flow_messages.specs.Kinds.{TakesKind};
ghost use Rattle.flow_messages.specs.Limits.{greatest_capacity};
ghost use Rattle.flow_edges.specs.lanes.Lane.{sent, received, certain_room, certain_held, edge_capacity, kind_of, IsLane, IsNewWriter};

use crate::lanes::counted::CountedWriter;
use crate::lanes::counting::NUMBERS;
use crate::lanes::ends::{LaneReader, LaneWriter};
use crate::lanes::gathered::Gathered;
use crate::lanes::pocket::Pocket;
use flow_boxes::Inbox;
use flow_messages::Kind;
use flow_messages::history::History;
use flow_rings::{edge, scalar_edge};
use flow_words::word_edge;
use std::alloc::{AllocError, Global};

/// The two ends of a lane for items of this kind, which holds at most `capacity` messages. Nothing was put on it.
///
/// At most `most_gathered` scalars are gathered in its writer, and not more than a quarter of the capacity. All the room that
/// messages take is reserved here. Its only error is that memory was refused.
pub fn lane(
    alloc: Global,
    kind: Kind,
    capacity: usize,
    most_gathered: usize,
) -> Result<(LaneWriter, LaneReader), AllocError>
    requires some { 0 < capacity }
    requires limit { capacity ≤ greatest_capacity }
    ensures pair { IfOk result (λ r. IsLane r.0 r.1) }
    ensures writer { IfOk result (λ r. IsNewWriter r.0 capacity) }
    ensures reader { IfOk result (λ r. (received r.1 ≡ []) × (certain_held r.1 ≡ [])) }
    ensures kind { IfOk result (λ r. TakesKind (kind_of r.0) kind) }
{
    if let Kind::Vec = kind {
        let (writer, reader) = edge(alloc, capacity)?;
        return Ok((LaneWriter::Messages(writer), LaneReader::Messages(reader)));
    }
    let (writer, reader) = word_edge(alloc, kind, capacity)?;
    // What the reader cannot tell it goes on to owe.
    let (teller, back) = scalar_edge(alloc, Kind::Int, capacity.min(NUMBERS))?;
    let gathered = Gathered::new(alloc, kind, most_gathered.min(capacity / 4))?;
    let inbox = Inbox::new(alloc, kind, capacity)?;
    let writer = CountedWriter {
        edge: writer,
        gathered,
        free: capacity,
        back,
        room: capacity,
        capacity,
    };
    let reader = Pocket {
        edge: reader,
        inbox,
        back: teller,
        owed: 0,
        came: History::new(),
    };
    Ok((LaneWriter::Scalars(writer), LaneReader::Scalars(reader)))
}
