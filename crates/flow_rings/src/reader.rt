// The end that takes messages.
ghost use Rattle.std.specs.Prelude.{◌≡◌, ◌<◌, ◌≤◌, ◌↔◌, true, false, [], ◌∷◌, ◌++◌, length, take, IsTrue, IsSome, IfSome, IfNone};
ghost use Rattle.std.specs.List.{All};
ghost use Rattle.std.specs.Io.Iter.{u64_saturate};
ghost use Rattle.arrayvec.specs.ArrayVec.{array_vec_len};
ghost use mathlib.Core.List.{IsPrefix};
ghost use Rattle.flow_messages.specs.Signals.{signals, signal_of, ended, orderly};
ghost use Rattle.flow_messages.specs.Flats.{messages_of, flats_appended, scalar_first};
ghost use Rattle.flow_messages.specs.Kinds.{FitsEdge};
ghost use Rattle.flow_rings.specs.Edge.{received, certain_held, reader_kind, SameReader, all_sent, IsMarkOf, IsReady, HasAll, KeepsCertain, ReaderLooked, TakesNone, TakesOne, FlatFits, messages_appended};

use crate::ring::{EdgeReader, FinishedMark};
use flow_messages::{Block, Flat, Msg};

impl EdgeReader {
    /// Takes the oldest message that was not taken, or none where none is certain to be there.
    /// Nothing is taken after an `End`, and from an edge of scalars only items of its kind.
    #[inline(always)]
    pub fn take(&mut self) -> Option<Msg>
        ensures same { SameReader self.old self.new }
        ensures some { IfSome result (λ m. TakesOne self.old m self.new) }
        ensures none { IfNone result (TakesNone self.old self.new) }
        ensures open { IfSome result (λ _. ended (signals (received self.old)) ≡ false) }
        ensures fits { IfSome result (λ m. FitsEdge (reader_kind self.old) (signal_of m)) }
        ensures succeeds { IsReady self.old → IsSome result }
    {
        let message = self.ring.pop().ok()?;
        self.taken = self.taken.saturating_add(1);
        Some(message)
    }

    /// How many messages were taken. The count stays at `u64::MAX`.
    #[inline(always)]
    pub fn received_count(&self) -> u64
        ensures { result ≡ u64_saturate (length (received self.now)) }
    {
        self.taken
    }

    /// Whether the edge is certain to hold a message. Only the writer adds more.
    #[inline(always)]
    pub fn ready(&mut self) -> bool
        ensures same { SameReader self.old self.new }
        ensures looked { ReaderLooked self.old self.new }
        ensures value { IsTrue result ↔ IsReady self.new }
    {
        !self.ring.is_empty()
    }

    /// Takes the oldest messages that were not taken, at most `most`, as far as the block has room, and
    /// appends them to it in order. The answer is how many: not none where one is certain to be there,
    /// the block has room and `most` is not 0. The edge is one of scalars.
    #[inline(always)]
    pub fn take_block(&mut self, block: &mut Block, most: usize) -> usize
        requires scalar { IsSome (reader_kind self.old) }
        ensures same { SameReader self.old self.new }
        ensures before { block.new.items ≡ block.old.items ++ flats_appended block.old block.new }
        ensures taken { received self.new ≡ received self.old ++ messages_appended block.old block.new }
        ensures certain { KeepsCertain self.old (messages_appended block.old block.new) self.new }
        ensures fit { All (FlatFits (reader_kind self.old)) (flats_appended block.old block.new) }
        ensures last { orderly (signals (messages_appended block.old block.new)) ≡ true }
        ensures open { 0 < result → ended (signals (received self.old)) ≡ false }
        ensures count { result ≡ length (flats_appended block.old block.new) }
        ensures most { result ≤ most }
        ensures succeeds { IsReady self.old → 0 < most → array_vec_len block.old < 64 → 0 < result }
    {
        let count = self.ring.pop_block(block, most);
        self.taken = self.taken.saturating_add(count as u64);
        count
    }

    /// Takes the oldest messages that were not taken, in place of the first of these, at most `most`. The answer
    /// is how many: not none where one is certain to be there and a place for it. The edge is one of scalars.
    #[inline(always)]
    pub fn take_slice(&mut self, flats: &mut [Flat], most: usize) -> usize
        requires scalar { IsSome (reader_kind self.old) }
        ensures same { SameReader self.old self.new }
        ensures taken { received self.new ≡ received self.old ++ messages_of (take result flats.new) }
        ensures certain { KeepsCertain self.old (messages_of (take result flats.new)) self.new }
        ensures fit { All (FlatFits (reader_kind self.old)) (take result flats.new) }
        ensures last { orderly (signals (messages_of (take result flats.new))) ≡ true }
        ensures open { 0 < result → ended (signals (received self.old)) ≡ false }
        ensures count { (result ≤ most) × (result ≤ length flats.new) }
        ensures succeeds { IsReady self.old → 0 < most → 0 < length flats.old → 0 < result }
    {
        let count = self.ring.pop_slice(flats, most);
        self.taken = self.taken.saturating_add(count as u64);
        count
    }

    /// Whether the edge is certain to hold a message, and the next is no vector.
    #[inline(always)]
    pub fn scalar_is_next(&mut self) -> bool
        ensures same { SameReader self.old self.new }
        ensures looked { ReaderLooked self.old self.new }
        ensures value { result ≡ scalar_first (signals (certain_held self.new)) }
    {
        self.ring.scalar_is_next()
    }

    /// The oldest message that was not taken, where the edge was seen to hold one and can show it. It
    /// stays. An edge of scalars shows none.
    #[inline(always)]
    pub fn front(&self) -> Option<&Msg>
        ensures { IfSome result (λ m. IsPrefix (m.now ∷ []) (certain_held self.now)) }
    {
        self.ring.front()
    }

    /// How many messages are left to take, where the writer of this edge has left its mark. What was
    /// taken and what is left are then all that was ever put.
    pub fn after(&mut self, mark: &mut FinishedMark) -> usize
        requires { IsMarkOf mark.old self.old }
        ensures same { SameReader self.old self.new }
        ensures mark { IsMarkOf mark.new self.new × (all_sent mark.new ≡ all_sent mark.old) }
        ensures looked { ReaderLooked self.old self.new }
        ensures value { result ≡ length (certain_held self.new) }
        ensures all { HasAll self.new (all_sent mark.old) }
    {
        self.ring.slots_after(&mut mark.mark)
    }
}
