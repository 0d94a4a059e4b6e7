// The end that puts scalars, and counts the room for them.
ghost use Rattle.std.specs.Prelude.{◌≡◌, ◌+◌, ◌≤◌, true, length};
ghost use Rattle.flow_messages.specs.Limits.{greatest_capacity};
ghost use Rattle.flow_messages.specs.Signals.{signals, ended};
ghost use Rattle.flow_rings.specs.Edge.{received};
ghost use Rattle.flow_words.specs.Edge.{sent, certain_room, edge_capacity, kind_of};
ghost use Rattle.flow_edges.specs.lanes.Credits.{credit};
ghost use Rattle.flow_edges.specs.lanes.Many.{many_messages, many_kind};

use crate::lanes::gathered::Gathered;
use flow_rings::EdgeReader;
use flow_words::WordWriter;

/// The end of a lane that puts scalars of one kind. It puts no more than the lane has places for, beside those that its
/// reader told to be taken. A few are gathered here first, and then put on the edge together.
#[derive(Drop)]
pub struct CountedWriter {
    pub(crate) edge: WordWriter,
    // What was put and does not lie on the edge yet.
    pub(crate) gathered: Gathered,
    // For how many messages more the edge is certain to have room, beside what is gathered.
    pub(crate) free: usize,
    // Over it the reader tells how many messages it took.
    pub(crate) back: EdgeReader,
    // How many messages more may be put until the reader tells of more.
    pub(crate) room: usize,
    pub(crate) capacity: usize,
    ghost kind: { many_kind gathered.items ≡ kind_of edge },
    ghost sure: { free + length (many_messages gathered.items) ≤ certain_room edge },
    ghost closed: { ended (signals (sent edge)) ≡ true →
        length (many_messages gathered.items) ≡ 0 },
    ghost places: { edge_capacity edge ≡ capacity },
    ghost limit: { capacity ≤ greatest_capacity },
    ghost within: { room + (length (sent edge) + length (many_messages gathered.items)) ≤
        capacity + credit (received back) },
}
