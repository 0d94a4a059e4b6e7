// The end that takes scalars, with those that it took over and has not given yet.
ghost use Rattle.std.specs.Prelude.{◌≡◌, ◌<◌, length};
ghost use Rattle.flow_boxes.specs.Received.{received_of};
ghost use Rattle.flow_words.specs.Edge.{received, reader_kind};
ghost use Rattle.flow_edges.specs.lanes.Credits.{Owes};

use flow_boxes::Inbox;
use flow_messages::Msg;
use flow_messages::history::History;
use flow_rings::EdgeWriter;
use flow_words::WordReader;

/// The end of a lane that takes scalars of one kind. Its inbox holds those that came over the edge and were not taken.
#[derive(Drop)]
pub struct Pocket {
    pub(crate) edge: WordReader,
    pub(crate) inbox: Inbox,
    // The edge over which the writer is told how many messages were taken.
    pub(crate) back: EdgeWriter,
    // How many were taken since that was told. The count stays at `u64::MAX`.
    pub(crate) owed: u64,
    // All that came over the edge.
    pub(crate) came: History<Msg>,
    ghost reserved: { 0 < inbox.store.capacity },
    ghost kind: { inbox.store.kind ≡ reader_kind edge },
    ghost arrived: { came.items ≡ inbox.arrived.items },
    ghost all: { came.items ≡ received edge },
    ghost owes: { Owes (length (received_of inbox)) owed back },
}
