// The ring of a reader, whatever it carries.
ghost use Rattle.std.specs.Prelude.{◌≡◌, ◌<◌, ◌≤◌, ◌↔◌, true, false, [], ◌∷◌, ◌++◌, length, take, IsTrue, IsOk, IfOk, OnErr, IsSome, IfSome};
ghost use mathlib.Core.List.{IsPrefix};
ghost use Rattle.std.specs.List.{All};
ghost use Rattle.arrayvec.specs.ArrayVec.{array_vec_len};
ghost use Rattle.rtrb.specs.Ring as port;
ghost use Rattle.rtrb.specs.Fifo.{Allowed};
ghost use Rattle.flow_messages.specs.Signals.{signals, signal_of, ended, orderly};
ghost use Rattle.flow_messages.specs.Flats.{messages_of, flats_appended, scalar_first};
ghost use Rattle.flow_messages.specs.Kinds.{FitsEdge};
ghost use Rattle.flow_rings.specs.Ring.{sent, received, known_items, all_sent, reader_kind, SameProducer, SameConsumer, IsPair, IsFinishedOf, HoldsAny, KeepsItems, PopsNone, PopsOne, SeesItems, SeesRoom};
ghost use Rattle.flow_rings.specs.Ports.{FindsNone, KeepsKnown, KnowsAny, TakesFlat, TakesFlats};
ghost use Rattle.flow_rings.specs.Edge.{FlatFits, messages_appended};
ghost use Rattle.flow_messages.specs.declared.flat.Flat.{Flat as Scalar};

use crate::ring::{MarkRing, ReaderRing, WriterRing};
use flow_messages::{Block, Flat, Msg};
use rtrb::{Consumer, PopError, Protocol};
use std::alloc::Global;

// What a block is filled with before messages are taken into it.
const BLANKS: [Flat; 64] = [Flat::End; 64];

// Takes the oldest scalar message.
#[inline(always)]
fn pop_flat<P: Protocol<Flat>>(ring: &mut Consumer<Flat, Global, P>) -> Result<Msg, PopError>
    ensures ring { port.SameConsumer ring.old ring.new }
    ensures ok { IfOk result (λ m. (x : Scalar) × TakesFlat P.allows ring.old x m ring.new) }
    ensures empty { OnErr result (FindsNone ring.old ring.new) }
    ensures succeeds { KnowsAny ring.old → IsOk result }
{
    Ok(ring.pop()?.message())
}

// Takes the oldest scalar messages into a block, at most `most`, as far as the block has room.
#[inline(always)]
fn pop_into<P: Protocol<Flat>>(
    ring: &mut Consumer<Flat, Global, P>,
    block: &mut Block,
    most: usize,
) -> usize
    ensures ring { port.SameConsumer ring.old ring.new }
    ensures before { block.new.items ≡ block.old.items ++ flats_appended block.old block.new }
    ensures taken { TakesFlats ring.old (flats_appended block.old block.new) ring.new }
    ensures known { KeepsKnown ring.old (flats_appended block.old block.new) ring.new }
    ensures allowed { Allowed P.allows (port.received ring.old) (flats_appended block.old block.new) }
    ensures count { result ≡ length (flats_appended block.old block.new) }
    ensures most { result ≤ most }
    ensures succeeds { KnowsAny ring.old → 0 < most → array_vec_len block.old < 64 → 0 < result }
{
    let first = block.len();
    let count = most.min(block.remaining_capacity()).min(ring.slots());
    if block.try_extend_from_slice(&BLANKS[..count]).is_err() {
        unreachable!()
    }
    let (_, rest) = block.as_mut_slice().split_at_mut(first);
    if ring.pop_entire_slice(rest).is_err() {
        unreachable!()
    }
    count
}

// Takes the oldest scalar messages in place of the first of these, at most `most`.
#[inline(always)]
fn pop_over<P: Protocol<Flat>>(
    ring: &mut Consumer<Flat, Global, P>,
    flats: &mut [Flat],
    most: usize,
) -> usize
    ensures ring { port.SameConsumer ring.old ring.new }
    ensures taken { TakesFlats ring.old (take result flats.new) ring.new }
    ensures known { KeepsKnown ring.old (take result flats.new) ring.new }
    ensures allowed { Allowed P.allows (port.received ring.old) (take result flats.new) }
    ensures count { (result ≤ most) × (result ≤ length flats.new) }
    ensures succeeds { KnowsAny ring.old → 0 < most → 0 < length flats.old → 0 < result }
{
    let (first, _) = flats.split_at_mut(most.min(flats.len()));
    ring.pop_partial_slice(first)
}

// Whether a message is there, and the oldest is no vector.
#[inline(always)]
fn scalar_shows<P: Protocol<Msg>>(ring: &mut Consumer<Msg, Global, P>) -> bool
    ensures looked { port.ConsumerLooked ring.old ring.new }
    ensures value { result ≡ scalar_first (signals (port.known_items ring.new)) }
{
    if ring.slots() == 0 {
        return false;
    }
    ring.peek_known().is_scalar()
}

// Whether a scalar message is there.
#[inline(always)]
fn flat_shows<P: Protocol<Flat>>(ring: &mut Consumer<Flat, Global, P>) -> bool
    ensures looked { port.ConsumerLooked ring.old ring.new }
    ensures value { result ≡ scalar_first (signals (messages_of (port.known_items ring.new))) }
{
    let count = ring.slots();
    if count == 0 {
        return false;
    }
    true
}

impl ReaderRing {
    // Takes the oldest message.
    #[inline(always)]
    pub(crate) fn pop(&mut self) -> Result<Msg, PopError>
        ensures ring { SameConsumer self.old self.new }
        ensures ok { IfOk result (λ m. PopsOne self.old m self.new) }
        ensures open { IfOk result (λ _. ended (signals (received self.old)) ≡ false) }
        ensures fits { IfOk result (λ m. FitsEdge (reader_kind self.old) (signal_of m)) }
        ensures empty { OnErr result (PopsNone self.old self.new) }
        ensures succeeds { HoldsAny self.old → IsOk result }
    {
        match self {
            ReaderRing::Messages(ring) => ring.pop(),
            ReaderRing::Units(ring) => pop_flat(ring),
            ReaderRing::Flags(ring) => pop_flat(ring),
            ReaderRing::Ints(ring) => pop_flat(ring),
        }
    }

    // Takes the oldest messages into a block, at most `most`, as far as the block has room.
    #[inline(always)]
    pub(crate) fn pop_block(&mut self, block: &mut Block, most: usize) -> usize
        requires scalar { IsSome (reader_kind self.old) }
        ensures ring { SameConsumer self.old self.new }
        ensures before { block.new.items ≡ block.old.items ++ flats_appended block.old block.new }
        ensures taken { received self.new ≡ received self.old ++ messages_appended block.old block.new }
        ensures known { KeepsItems self.old (messages_appended block.old block.new) self.new }
        ensures fit { All (FlatFits (reader_kind self.old)) (flats_appended block.old block.new) }
        ensures last { orderly (signals (messages_appended block.old block.new)) ≡ true }
        ensures open { 0 < result → ended (signals (received self.old)) ≡ false }
        ensures count { result ≡ length (flats_appended block.old block.new) }
        ensures most { result ≤ most }
        ensures succeeds { HoldsAny self.old → 0 < most → array_vec_len block.old < 64 → 0 < result }
    {
        match self {
            ReaderRing::Messages(_) => unreachable!(),
            ReaderRing::Units(ring) => pop_into(ring, block, most),
            ReaderRing::Flags(ring) => pop_into(ring, block, most),
            ReaderRing::Ints(ring) => pop_into(ring, block, most),
        }
    }

    // Takes the oldest messages in place of the first of these, at most `most`.
    #[inline(always)]
    pub(crate) fn pop_slice(&mut self, flats: &mut [Flat], most: usize) -> usize
        requires scalar { IsSome (reader_kind self.old) }
        ensures ring { SameConsumer self.old self.new }
        ensures taken { received self.new ≡ received self.old ++ messages_of (take result flats.new) }
        ensures known { KeepsItems self.old (messages_of (take result flats.new)) self.new }
        ensures fit { All (FlatFits (reader_kind self.old)) (take result flats.new) }
        ensures last { orderly (signals (messages_of (take result flats.new))) ≡ true }
        ensures open { 0 < result → ended (signals (received self.old)) ≡ false }
        ensures count { (result ≤ most) × (result ≤ length flats.new) }
        ensures succeeds { HoldsAny self.old → 0 < most → 0 < length flats.old → 0 < result }
    {
        match self {
            ReaderRing::Messages(_) => unreachable!(),
            ReaderRing::Units(ring) => pop_over(ring, flats, most),
            ReaderRing::Flags(ring) => pop_over(ring, flats, most),
            ReaderRing::Ints(ring) => pop_over(ring, flats, most),
        }
    }

    // Whether no message is there.
    #[inline(always)]
    pub(crate) fn is_empty(&mut self) -> bool
        ensures ring { SameConsumer self.old self.new }
        ensures looked { SeesItems self.old self.new }
        ensures value { IsTrue result ↔ (length (known_items self.new) ≡ 0) }
    {
        match self {
            ReaderRing::Messages(ring) => ring.is_empty(),
            ReaderRing::Units(ring) => ring.is_empty(),
            ReaderRing::Flags(ring) => ring.is_empty(),
            ReaderRing::Ints(ring) => ring.is_empty(),
        }
    }

    // Whether a message is there, and the oldest is no vector.
    #[inline(always)]
    pub(crate) fn scalar_is_next(&mut self) -> bool
        ensures ring { SameConsumer self.old self.new }
        ensures looked { SeesItems self.old self.new }
        ensures value { result ≡ scalar_first (signals (known_items self.new)) }
    {
        match self {
            ReaderRing::Messages(ring) => scalar_shows(ring),
            ReaderRing::Units(ring) => flat_shows(ring),
            ReaderRing::Flags(ring) => flat_shows(ring),
            ReaderRing::Ints(ring) => flat_shows(ring),
        }
    }

    // The oldest message, where it is one of a ring of messages and was seen to be there.
    #[inline(always)]
    pub(crate) fn front(&self) -> Option<&Msg>
        ensures { IfSome result (λ m. IsPrefix (m.now ∷ []) (known_items self.now)) }
    {
        match self {
            ReaderRing::Messages(ring) => {
                if ring.cached_slots() == 0 {
                    return None;
                }
                Some(ring.peek_known())
            }
            _ => None,
        }
    }

    // How many messages are there, beside the writer: all that were put and not taken.
    pub(crate) fn slots_beside(&mut self, writer: &mut WriterRing) -> usize
        requires { IsPair writer.old self.old }
        ensures ring { SameConsumer self.old self.new }
        ensures looked { SeesItems self.old self.new }
        ensures writer { SameProducer writer.old writer.new × SeesRoom writer.old writer.new }
        ensures value { result ≡ length (known_items self.new) }
        ensures fifo { received self.new ++ known_items self.new ≡ sent writer.new }
    {
        match (self, writer) {
            (ReaderRing::Messages(reader), WriterRing::Messages(writer)) => {
                reader.slots_beside(writer)
            }
            (ReaderRing::Units(reader), WriterRing::Units(writer)) => reader.slots_beside(writer),
            (ReaderRing::Flags(reader), WriterRing::Flags(writer)) => reader.slots_beside(writer),
            (ReaderRing::Ints(reader), WriterRing::Ints(writer)) => reader.slots_beside(writer),
            _ => unreachable!(),
        }
    }

    // How many messages are there, where the writer has left its mark: all that are left.
    pub(crate) fn slots_after(&mut self, mark: &mut MarkRing) -> usize
        requires { IsFinishedOf mark.old self.old }
        ensures ring { SameConsumer self.old self.new }
        ensures looked { SeesItems self.old self.new }
        ensures mark { IsFinishedOf mark.new self.new × (all_sent mark.new ≡ all_sent mark.old) }
        ensures value { result ≡ length (known_items self.new) }
        ensures fifo { received self.new ++ known_items self.new ≡ all_sent mark.old }
    {
        match (self, mark) {
            (ReaderRing::Messages(reader), MarkRing::Messages(mark)) => reader.slots_after(mark),
            (ReaderRing::Units(reader), MarkRing::Units(mark)) => reader.slots_after(mark),
            (ReaderRing::Flags(reader), MarkRing::Flags(mark)) => reader.slots_after(mark),
            (ReaderRing::Ints(reader), MarkRing::Ints(mark)) => reader.slots_after(mark),
            _ => unreachable!(),
        }
    }
}
