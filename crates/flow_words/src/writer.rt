// The end that puts messages.
ghost use Rattle.std.specs.Prelude.{◌≡◌, ◌+◌, ◌<◌, ◌≤◌, ◌↔◌, true, Some, length, IsTrue, IsOk, OnOk, IfErr, IsErrAnd};
ghost use Rattle.std.specs.Io.Iter.{u64_saturate};
ghost use Rattle.flow_messages.specs.declared.ends.Why.TheVariants.{Full, Closed};
ghost use Rattle.flow_messages.specs.Contents.{item_messages};
ghost use Rattle.flow_messages.specs.Kinds.{FitsEdge, TakesItems, TakesKind};
ghost use Rattle.flow_messages.specs.Signals.{signals, signal_of, ended};
ghost use Rattle.flow_words.specs.Edge.{sent, certain_room, kind_of, IsNotClosed, PutsOne, SameWriter, WriterLooked, followed_unless_ended};

use crate::ring::{WordWriter, WriterWords};
use flow_messages::{Item, Items, Kind, Msg, Refused, Why};

impl WordWriter {
    /// Puts a message after all others.
    ///
    /// It is refused as `Closed` exactly where `End` was put on the edge before, and as `Full` only
    /// where no room is certain. Then nothing was put, and the message comes back. An item has to be of the edge's kind.
    #[inline(always)]
    #[tactic(auto, using(flow_messages::proofs::Signals::signal_steps))]
    pub fn put(&mut self, message: Msg) -> Result<(), Refused>
        requires fits { FitsEdge (Some (kind_of self.old)) (signal_of message) }
        ensures same { SameWriter self.old self.new }
        ensures ok { OnOk result (PutsOne self.old message self.new) }
        ensures refused { IfErr result (λ e. (e.message ≡ message) × WriterLooked self.old self.new) }
        ensures closed { IsErrAnd result (λ e. e.why ≡ Closed) ↔
            (ended (signals (sent self.old)) ≡ true) }
        ensures full { IsErrAnd result (λ e. e.why ≡ Full) → certain_room self.new ≡ 0 }
        ensures succeeds { IsNotClosed self.old → 0 < certain_room self.old → IsOk result }
    {
        if self.closed {
            return Err(Refused {
                message,
                why: Why::Closed,
            });
        }
        if !self.ring.push(&message) {
            return Err(Refused {
                message,
                why: Why::Full,
            });
        }
        self.closed = message.is_end();
        self.put = self.put.saturating_add(1);
        Ok(())
    }

    /// Puts these items where room is certain. They are dropped where `End` was put on the edge before.
    #[inline(always)]
    pub fn put_all(&mut self, items: Items<'_>)
        requires kind { TakesItems (Some (kind_of self.old)) items }
        requires certain { length (item_messages items) ≤ certain_room self.old }
        ensures same { SameWriter self.old self.new }
        ensures put { sent self.new ≡
            followed_unless_ended (sent self.old) (item_messages items.entry) }
        ensures room { certain_room self.old ≤
            certain_room self.new + length (item_messages items.entry) }
    {
        if self.closed {
            return;
        }
        self.ring.push_all(items);
        self.put = self.put.saturating_add(items.len() as u64);
    }

    /// Whether the edge takes items of this kind: it takes those of its own.
    pub fn takes(&self, kind: Kind) -> bool
        ensures { IsTrue result ↔ TakesKind (Some (kind_of self.now)) kind }
    {
        match &self.ring {
            WriterWords::Units(_) => kind.fits(&Item::Unit),
            WriterWords::Flags(_) => kind.fits(&Item::Bool(false)),
            WriterWords::Ints(_) => kind.fits(&Item::Int(0)),
        }
    }

    /// Whether `End` was put on the edge.
    #[inline(always)]
    pub fn is_closed(&self) -> bool
        ensures { result ≡ ended (signals (sent self.now)) }
    {
        self.closed
    }

    /// How many messages were put. The count stays at `u64::MAX`.
    #[inline(always)]
    pub fn sent_count(&self) -> u64
        ensures { result ≡ u64_saturate (length (sent self.now)) }
    {
        self.put
    }

    /// Whether the edge is certain to have room for one more message. Only the reader makes more.
    #[inline(always)]
    pub fn room(&mut self) -> bool
        ensures same { SameWriter self.old self.new }
        ensures looked { WriterLooked self.old self.new }
        ensures value { IsTrue result ↔ (0 < certain_room self.new) }
    {
        self.ring.has_room(1)
    }

    /// How many messages more the edge is certain to have room for. Only the reader makes more.
    #[inline(always)]
    pub fn space(&mut self) -> usize
        ensures same { SameWriter self.old self.new }
        ensures looked { WriterLooked self.old self.new }
        ensures value { result ≡ certain_room self.new }
    {
        self.ring.room()
    }

    /// Whether the edge is certain to have room for so many messages more. Only the reader makes more.
    #[inline(always)]
    pub fn room_for(&mut self, count: usize) -> bool
        ensures same { SameWriter self.old self.new }
        ensures looked { WriterLooked self.old self.new }
        ensures value { IsTrue result ↔ (count ≤ certain_room self.new) }
    {
        self.ring.has_room(count)
    }
}
