// The end that puts messages.
ghost use Rattle.std.specs.Prelude.{◌≡◌, ◌+◌, ◌<◌, ◌≤◌, ◌↔◌, true, false, [], ◌++◌, length, IsTrue, IsOk, OnOk, IfErr, IsErrAnd, IsSome, IfSome};
ghost use Rattle.std.specs.List.{All};
ghost use Rattle.std.specs.Io.Iter.{u64_saturate};
ghost use Rattle.flow_messages.specs.Signals.{signals, signal_of, ended, orderly};
ghost use Rattle.flow_messages.specs.declared.ends.Why.TheVariants.{Full, Closed};
ghost use Rattle.flow_rings.specs.Edge.{sent, certain_room, kind_of, SameWriter, Finishes, IsNotClosed, IsRoomForAll, LacksRoom, LeavesRoom, PutsOne, WriterLooked, FlatFits};
ghost use Rattle.flow_messages.specs.Flats.{messages_of};
ghost use Rattle.flow_messages.specs.Kinds.{FitsEdge, TakesKind};

use crate::ring::{EdgeWriter, FinishedMark, WriterRing};
use flow_messages::{Block, Flat, Item, Kind, Msg, Refused, Why};
use rtrb::PushError;

// Whether the last of these is the end of the stream.
#[inline(always)]
fn ends(block: &[Flat]) -> bool
    requires { orderly (signals (messages_of block.now)) ≡ true }
    ensures { result ≡ ended (signals (messages_of block.now)) }
{
    match block.last() {
        Some(flat) => flat.is_end(),
        None => false,
    }
}

impl EdgeWriter {
    /// Puts a message after all others.
    ///
    /// It is refused as `Closed` exactly where `End` was put on the edge before, and as `Full` only
    /// where no room is certain. Then nothing was put, and the message comes back. On an edge of
    /// scalars an item has to be of its kind.
    #[inline(always)]
    #[tactic(auto, using(crate::proofs::Lists::list_steps))]
    pub fn put(&mut self, message: Msg) -> Result<(), Refused>
        requires fits { FitsEdge (kind_of self.old) (signal_of message) }
        ensures same { SameWriter self.old self.new }
        ensures ok { OnOk result (PutsOne self.old message self.new) }
        ensures refused { IfErr result (λ e. (e.message ≡ message) × WriterLooked self.old self.new) }
        ensures closed { IsErrAnd result (λ e. e.why ≡ Closed) ↔
            (ended (signals (sent self.old)) ≡ true) }
        ensures full { IsErrAnd result (λ e. e.why ≡ Full) → certain_room self.new ≡ 0 }
        ensures succeeds { IsNotClosed self.old → 0 < certain_room self.old → IsOk result }
    {
        if self.closed {
            return Err(Refused {
                message,
                why: Why::Closed,
            });
        }
        let closes = message.is_end();
        match self.ring.push(message) {
            Ok(()) => {
                self.closed = closes;
                self.put = self.put.saturating_add(1);
                Ok(())
            }
            Err(PushError::Full(message)) => Err(Refused {
                message,
                why: Why::Full,
            }),
        }
    }

    /// Whether the edge takes items of this kind: any, or those of its own.
    pub fn takes(&self, kind: Kind) -> bool
        ensures { IsTrue result ↔ TakesKind (kind_of self.now) kind }
    {
        match &self.ring {
            WriterRing::Messages(_) => true,
            WriterRing::Units(_) => kind.fits(&Item::Unit),
            WriterRing::Flags(_) => kind.fits(&Item::Bool(false)),
            WriterRing::Ints(_) => kind.fits(&Item::Int(0)),
        }
    }

    /// Whether `End` was put on the edge.
    #[inline(always)]
    pub fn is_closed(&self) -> bool
        ensures { result ≡ ended (signals (sent self.now)) }
    {
        self.closed
    }

    /// How many messages were put. The count stays at `u64::MAX`.
    #[inline(always)]
    pub fn sent_count(&self) -> u64
        ensures { result ≡ u64_saturate (length (sent self.now)) }
    {
        self.put
    }

    /// Whether the edge is certain to have room for one more message. Only the reader makes more.
    #[inline(always)]
    pub fn room(&mut self) -> bool
        ensures same { SameWriter self.old self.new }
        ensures looked { WriterLooked self.old self.new }
        ensures value { IsTrue result ↔ (0 < certain_room self.new) }
    {
        self.ring.has_slots(1)
    }

    /// How many messages more the edge is certain to have room for. Only the reader makes more.
    #[inline(always)]
    pub fn space(&mut self) -> usize
        ensures same { SameWriter self.old self.new }
        ensures looked { WriterLooked self.old self.new }
        ensures value { result ≡ certain_room self.new }
    {
        self.ring.slots()
    }

    /// Whether the edge is certain to have room for so many messages more. Only the reader makes more.
    #[inline(always)]
    pub fn room_for(&mut self, count: usize) -> bool
        ensures same { SameWriter self.old self.new }
        ensures looked { WriterLooked self.old self.new }
        ensures value { IsTrue result ↔ (count ≤ certain_room self.new) }
    {
        self.ring.has_slots(count)
    }

    /// Puts these messages after all others, in order.
    ///
    /// Where there is not room for all of them, or `End` was put on the edge before, the answer is false,
    /// and nothing was put. The edge is one of scalars, and an `End` may only be the last of them.
    #[inline(always)]
    #[tactic(auto, using(crate::proofs::Lists::list_steps))]
    pub fn put_slice(&mut self, flats: &[Flat]) -> bool
        requires scalar { IsSome (kind_of self.old) }
        requires fit { All (FlatFits (kind_of self.old)) flats.now }
        requires last { orderly (signals (messages_of flats.now)) ≡ true }
        ensures same { SameWriter self.old self.new }
        ensures put { IsTrue result → sent self.new ≡ sent self.old ++ messages_of flats.now }
        ensures room { IsTrue result → LeavesRoom self.old flats.now self.new }
        ensures open { IsTrue result → IsNotClosed self.old }
        ensures refused { result ≡ false → WriterLooked self.old self.new }
        ensures full { result ≡ false → IsNotClosed self.old → LacksRoom self.new flats.now }
        ensures succeeds { IsNotClosed self.old → IsRoomForAll self.old flats.now →
            IsTrue result }
    {
        let was_closed = self.closed;
        if was_closed {
            return false;
        }
        let has_end = ends(flats);
        if !self.ring.push_slice(flats) {
            return false;
        }
        self.closed = has_end;
        self.put = self.put.saturating_add(flats.len() as u64);
        true
    }

    /// Puts the messages of a block after all others, in order, and empties it.
    ///
    /// Where there is not room for all of them, or `End` was put on the edge before, the answer is false,
    /// and nothing was put. The edge is one of scalars, and an `End` may only be the last of the block.
    #[inline(always)]
    pub fn put_block(&mut self, block: &mut Block) -> bool
        requires scalar { IsSome (kind_of self.old) }
        requires fit { All (FlatFits (kind_of self.old)) block.old.items }
        requires last { orderly (signals (messages_of block.old.items)) ≡ true }
        ensures same { SameWriter self.old self.new }
        ensures put { IsTrue result →
            sent self.new ≡ sent self.old ++ messages_of block.old.items }
        ensures emptied { IsTrue result → block.new.items ≡ [] }
        ensures room { IsTrue result → LeavesRoom self.old block.old.items self.new }
        ensures open { IsTrue result → IsNotClosed self.old }
        ensures refused { result ≡ false → WriterLooked self.old self.new }
        ensures kept { result ≡ false → block.new ≡ block.old }
        ensures full { result ≡ false → IsNotClosed self.old →
            LacksRoom self.new block.old.items }
        ensures succeeds { IsNotClosed self.old → IsRoomForAll self.old block.old.items →
            IsTrue result }
    {
        let is_put = self.put_slice(block.as_slice());
        if is_put {
            block.clear();
        }
        is_put
    }

    /// Gives up the writer for a mark of all that it has put, or for none. No `End` is put. That there is a
    /// mark unless the reader was dropped before is not promised.
    pub fn finish(self) -> Option<FinishedMark>
        ensures { IfSome result (λ f. Finishes self f) }
    {
        let EdgeWriter { ring, .. } = self;
        let mark = ring.finish()?;
        Some(FinishedMark { mark })
    }
}
