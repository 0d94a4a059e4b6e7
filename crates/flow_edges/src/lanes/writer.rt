// The end that puts messages.
ghost use Rattle.std.specs.Prelude.{◌≡◌, ◌<◌, ◌≤◌, ◌↔◌, length, IsTrue, IsOk, OnOk, IfErr, IsErrAnd};
ghost use Rattle.std.specs.Io.Iter.{u64_saturate};
ghost use Rattle.flow_messages.specs.Signals.{signal_of};
ghost use Rattle.flow_messages.specs.Kinds.{FitsEdge, TakesItems, TakesKind};
ghost use Rattle.flow_messages.specs.Contents.{item_messages};
ghost use Rattle.flow_messages.specs.declared.ends.Why.TheVariants.{Full, Closed};
ghost use Rattle.flow_edges.specs.lanes.Lane.{sent, certain_room, kind_of, IsClosed, IsNotClosed, IsOut, PutsAll, PutsOne, SameWriter, WriterLooked};

use crate::lanes::ends::LaneWriter;
use crate::lanes::scalars::put_each;
use flow_messages::{Items, Kind, Msg, Refused};

impl LaneWriter {
    /// Puts a message after all others.
    ///
    /// It is refused as `Closed` exactly where `End` was put on the lane before, and as `Full` only
    /// where no room is certain. Then nothing was put, and the message comes back. On a lane of
    /// scalars an item has to be of its kind.
    #[inline(always)]
    pub fn put(&mut self, message: Msg) -> Result<(), Refused>
        requires fits { FitsEdge (kind_of self.old) (signal_of message) }
        ensures same { SameWriter self.old self.new }
        ensures ok { OnOk result (PutsOne self.old message self.new) }
        ensures refused { IfErr result (λ e. (e.message ≡ message) × WriterLooked self.old self.new) }
        ensures closed { IsErrAnd result (λ e. e.why ≡ Closed) ↔ IsClosed self.old }
        ensures full { IsErrAnd result (λ e. e.why ≡ Full) → certain_room self.new ≡ 0 }
        ensures succeeds { IsNotClosed self.old → 0 < certain_room self.old → IsOk result }
    {
        match self {
            LaneWriter::Messages(edge) => edge.put(message),
            LaneWriter::Scalars(writer) => writer.put(message),
        }
    }

    /// Puts these items where room is certain. They are dropped where `End` was put on the lane before.
    #[inline(always)]
    pub fn put_all(&mut self, items: Items<'_>)
        requires takes { TakesItems (kind_of self.old) items }
        requires certain { length (item_messages items) ≤ certain_room self.old }
        ensures { PutsAll (item_messages items.entry) self.old self.new }
    {
        match self {
            LaneWriter::Messages(edge) => put_each(edge, items),
            LaneWriter::Scalars(writer) => writer.put_all(items),
        }
    }

    /// Puts out all that is gathered, for the reader to find.
    #[inline(always)]
    pub fn put_out(&mut self)
        ensures same { SameWriter self.old self.new }
        ensures kept { (sent self.new ≡ sent self.old) ×
            (certain_room self.new ≡ certain_room self.old) }
        ensures out { IsOut self.new }
    {
        match self {
            LaneWriter::Messages(_) => {}
            LaneWriter::Scalars(writer) => writer.put_out(),
        }
    }

    /// Whether the lane takes items of this kind: any, or those of its own.
    pub fn takes(&self, kind: Kind) -> bool
        ensures { IsTrue result ↔ TakesKind (kind_of self.now) kind }
    {
        match self {
            LaneWriter::Messages(edge) => edge.takes(kind),
            LaneWriter::Scalars(writer) => writer.edge.takes(kind),
        }
    }

    /// How many messages more the lane is certain to have room for. Only the reader makes more.
    #[inline(always)]
    pub fn space(&mut self) -> usize
        ensures same { SameWriter self.old self.new }
        ensures looked { WriterLooked self.old self.new }
        ensures value { result ≡ certain_room self.new }
    {
        match self {
            LaneWriter::Messages(edge) => edge.space(),
            LaneWriter::Scalars(writer) => writer.space(),
        }
    }

    /// Whether the lane is certain to have room for one more message. Only the reader makes more.
    #[inline(always)]
    pub fn room(&mut self) -> bool
        ensures same { SameWriter self.old self.new }
        ensures looked { WriterLooked self.old self.new }
        ensures value { IsTrue result ↔ (0 < certain_room self.new) }
    {
        match self {
            LaneWriter::Messages(edge) => edge.room(),
            LaneWriter::Scalars(writer) => writer.has_room(),
        }
    }

    /// How many messages were put. The count stays at `u64::MAX`.
    pub fn sent_count(&self) -> u64
        ensures { result ≡ u64_saturate (length (sent self.now)) }
    {
        match self {
            LaneWriter::Messages(edge) => edge.sent_count(),
            LaneWriter::Scalars(writer) => writer.sent_count(),
        }
    }
}
