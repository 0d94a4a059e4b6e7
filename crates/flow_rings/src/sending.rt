// The ring of a writer, whatever it carries.
ghost use Rattle.std.specs.Prelude.{◌≡◌, ◌+◌, ◌<◌, ◌≤◌, ◌↔◌, true, false, [], ◌∷◌, ◌++◌, length, IsTrue, IsOk, OnOk, IfErr, IsSome, IfSome};
ghost use Rattle.rtrb.specs.Ring as port;
ghost use Rattle.rtrb.specs.Fifo.{EachAllowed};
ghost use Rattle.rtrb.specs.declared.errors.PushError.TheVariants.{Full};
ghost use Rattle.flow_messages.specs.Signals.{signals, signal_of, ended, orderly};
ghost use Rattle.flow_messages.specs.Flats.{message_of, messages_of, is_scalar};
ghost use Rattle.flow_messages.specs.Kinds.{FitsEdge};
ghost use Rattle.flow_rings.specs.Ring.{sent, known_free, writer_kind, SameProducer, SameConsumer, IsPair, Finishes, IsAllFree, Pushes, PushesOne, SeesItems, SeesNoRoom, SeesRoom, SeesTooLittle};
ghost use Rattle.flow_rings.specs.Ports.{FindsNoPlace, FindsTooFew, PutsFlat, PutsFlats};
ghost use Rattle.flow_rings.specs.Edge.{FlatFits};
ghost use Rattle.flow_messages.specs.declared.flat.Flat.{Flat as Scalar};
ghost use Rattle.std.specs.List.{All};

use crate::ring::{MarkRing, ReaderRing, WriterRing};
use flow_messages::{Flat, Msg};
use rtrb::{Producer, Protocol, PushError};
use std::alloc::Global;

// Puts a scalar message, or hands it back if the ring is full.
#[inline(always)]
fn push_flat<P: Protocol<Flat>>(
    ring: &mut Producer<Flat, Global, P>,
    message: Msg,
) -> Result<(), PushError<Msg>>
    requires scalar { is_scalar (signal_of message) ≡ true }
    requires allowed { (x : Scalar) → message_of x ≡ message → P.allows (port.sent ring.old) x }
    ensures ring { port.SameProducer ring.old ring.new }
    ensures ok { OnOk result (PutsFlat ring.old message ring.new) }
    ensures full { IfErr result (λ e. (e ≡ Full message) × FindsNoPlace ring.old ring.new) }
    ensures succeeds { 0 < port.known_free ring.old → IsOk result }
{
    let Some(flat) = Flat::of(&message) else {
        unreachable!()
    };
    match ring.push(flat) {
        Ok(()) => Ok(()),
        Err(_) => Err(PushError::Full(message)),
    }
}

// Puts all of these, or nothing if the ring has less room.
#[inline(always)]
fn push_all<P: Protocol<Flat>>(ring: &mut Producer<Flat, Global, P>, flats: &[Flat]) -> bool
    requires { EachAllowed P.allows (port.sent ring.old) flats.now }
    ensures ring { port.SameProducer ring.old ring.new }
    ensures done { IsTrue result → PutsFlats ring.old flats.now ring.new }
    ensures full { result ≡ false → FindsTooFew ring.old flats.now ring.new }
    ensures succeeds { length flats.now ≤ port.known_free ring.old → IsTrue result }
{
    ring.push_entire_slice(flats).is_ok()
}

// Whether so many places are free. It looks only where it does not know.
#[inline(always)]
fn are_free<T, P: Protocol<T>>(ring: &mut Producer<T, Global, P>, count: usize) -> bool
    ensures looked { port.ProducerLooked ring.old ring.new }
    ensures value { IsTrue result ↔ (count ≤ port.known_free ring.new) }
{
    count <= ring.cached_slots() || count <= ring.slots()
}

impl WriterRing {
    // Puts a message, or hands it back if the ring is full.
    #[inline(always)]
    pub(crate) fn push(&mut self, message: Msg) -> Result<(), PushError<Msg>>
        requires open { ended (signals (sent self.old)) ≡ false }
        requires fits { FitsEdge (writer_kind self.old) (signal_of message) }
        ensures ring { SameProducer self.old self.new }
        ensures ok { OnOk result (PushesOne self.old message self.new) }
        ensures full { IfErr result (λ e. (e ≡ Full message) × SeesNoRoom self.old self.new) }
        ensures succeeds { 0 < known_free self.old → IsOk result }
    {
        match self {
            WriterRing::Messages(ring) => ring.push(message),
            WriterRing::Units(ring) => push_flat(ring, message),
            WriterRing::Flags(ring) => push_flat(ring, message),
            WriterRing::Ints(ring) => push_flat(ring, message),
        }
    }

    // Puts all of these, or nothing if the ring has less room.
    #[inline(always)]
    pub(crate) fn push_slice(&mut self, flats: &[Flat]) -> bool
        requires scalar { IsSome (writer_kind self.old) }
        requires fit { All (FlatFits (writer_kind self.old)) flats.now }
        requires last { orderly (signals (messages_of flats.now)) ≡ true }
        requires open { ended (signals (sent self.old)) ≡ false }
        ensures ring { SameProducer self.old self.new }
        ensures done { IsTrue result → Pushes self.old flats.now self.new }
        ensures full { result ≡ false → SeesTooLittle self.old flats.now self.new }
        ensures succeeds { length flats.now ≤ known_free self.old → IsTrue result }
    {
        match self {
            WriterRing::Messages(_) => unreachable!(),
            WriterRing::Units(ring) => push_all(ring, flats),
            WriterRing::Flags(ring) => push_all(ring, flats),
            WriterRing::Ints(ring) => push_all(ring, flats),
        }
    }

    // Whether so many places are free.
    #[inline(always)]
    pub(crate) fn has_slots(&mut self, count: usize) -> bool
        ensures ring { SameProducer self.old self.new }
        ensures looked { SeesRoom self.old self.new }
        ensures value { IsTrue result ↔ (count ≤ known_free self.new) }
    {
        match self {
            WriterRing::Messages(ring) => are_free(ring, count),
            WriterRing::Units(ring) => are_free(ring, count),
            WriterRing::Flags(ring) => are_free(ring, count),
            WriterRing::Ints(ring) => are_free(ring, count),
        }
    }

    // How many places are free.
    #[inline(always)]
    pub(crate) fn slots(&mut self) -> usize
        ensures ring { SameProducer self.old self.new }
        ensures looked { SeesRoom self.old self.new }
        ensures value { result ≡ known_free self.new }
    {
        match self {
            WriterRing::Messages(ring) => ring.slots(),
            WriterRing::Units(ring) => ring.slots(),
            WriterRing::Flags(ring) => ring.slots(),
            WriterRing::Ints(ring) => ring.slots(),
        }
    }

    // How many places are free, beside the reader: all that hold nothing.
    pub(crate) fn slots_beside(&mut self, reader: &mut ReaderRing) -> usize
        requires { IsPair self.old reader.old }
        ensures ring { SameProducer self.old self.new }
        ensures looked { SeesRoom self.old self.new }
        ensures reader { SameConsumer reader.old reader.new × SeesItems reader.old reader.new }
        ensures value { result ≡ known_free self.new }
        ensures all_free { IsAllFree result self.new reader.new }
    {
        match (self, reader) {
            (WriterRing::Messages(writer), ReaderRing::Messages(reader)) => {
                writer.slots_beside(reader)
            }
            (WriterRing::Units(writer), ReaderRing::Units(reader)) => writer.slots_beside(reader),
            (WriterRing::Flags(writer), ReaderRing::Flags(reader)) => writer.slots_beside(reader),
            (WriterRing::Ints(writer), ReaderRing::Ints(reader)) => writer.slots_beside(reader),
            _ => unreachable!(),
        }
    }

    // Gives up the end for what it leaves, or for none where the reader was dropped before.
    pub(crate) fn finish(self) -> Option<MarkRing>
        ensures { IfSome result (λ f. Finishes self f) }
    {
        match self {
            WriterRing::Messages(ring) => Some(MarkRing::Messages(ring.finish()?)),
            WriterRing::Units(ring) => Some(MarkRing::Units(ring.finish()?)),
            WriterRing::Flags(ring) => Some(MarkRing::Flags(ring.finish()?)),
            WriterRing::Ints(ring) => Some(MarkRing::Ints(ring.finish()?)),
        }
    }
}
