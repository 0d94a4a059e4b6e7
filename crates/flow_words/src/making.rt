// Both ends at once: where an edge is made, and where its ends meet.
ghost use Rattle.std.specs.Prelude.{◌≡◌, ◌≢◌, ◌+◌, ◌<◌, ◌≤◌, [], ◌++◌, length, IfOk};
ghost use mathlib.Core.List.{IsPrefix};
ghost use Rattle.flow_messages.specs.Limits.{greatest_capacity};
ghost use Rattle.flow_messages.specs.declared.message.Kind.TheVariants.{Vec as VecKind};
ghost use Rattle.flow_words.specs.declared.words.Group.TheVariants.{None as NoGroup};
ghost use Rattle.rtrb.specs.Ring as port;
ghost use Rattle.flow_words.specs.Ring as ring;
ghost use Rattle.flow_words.specs.Ring.{known_free, known_items, producer_capacity};
ghost use Rattle.flow_words.specs.Edge.{sent, received, certain_room, certain_held, edge_capacity, kind_of, reader_kind, IsEdge, IsNewWriter, SameWriter, SameReader, StaysCertain};

use crate::ring::{
    BLOCK, ClosingFlags, ClosingInts, ClosingUnits, ReaderWords, WordReader, WordWriter,
    WriterWords,
};
use crate::words::{Group, LONGEST};
use flow_messages::Kind;
use rtrb::{Consumer, Producer, Protocol, RingBuffer};
use std::alloc::{AllocError, Global};

// The two ends of a new ring.
fn new_ring(
    alloc: Global,
    kind: Kind,
    capacity: usize,
) -> Result<(WriterWords, ReaderWords), AllocError>
    requires scalar { kind ≢ VecKind }
    requires limit { capacity ≤ greatest_capacity }
    ensures pair { IfOk result (λ r. ring.IsPair r.0 r.1) }
    ensures writer { IfOk result (λ r. ring.IsEmptyWriter r.0 capacity) }
    ensures whole { IfOk result (λ r. ring.half_put r.0 ≡ NoGroup) }
    ensures reader { IfOk result (λ r. (ring.received r.1 ≡ []) × (ring.known_items r.1 ≡ [])) }
    ensures half { IfOk result (λ r. ring.half_taken r.1 ≡ NoGroup) }
    ensures kind { IfOk result (λ r. ring.writer_kind r.0 ≡ kind) }
{
    match kind {
        Kind::Unit => {
            let (to, from) = RingBuffer::with_protocol::<Global, ClosingUnits>(alloc, capacity)?;
            Ok((WriterWords::Units(to), ReaderWords::Units(from)))
        }
        Kind::Bool => {
            let (to, from) = RingBuffer::with_protocol::<Global, ClosingFlags>(alloc, capacity)?;
            Ok((WriterWords::Flags(to), ReaderWords::Flags(from)))
        }
        Kind::Int => {
            let places = capacity * LONGEST;
            let (to, from) = RingBuffer::with_protocol::<Global, ClosingInts>(alloc, places)?;
            Ok((WriterWords::Ints(to), ReaderWords::Ints(from)))
        }
        Kind::Vec => unreachable!(),
    }
}

/// The ends of an edge of scalars of one kind, which holds at most `capacity` messages. Nothing was put on it.
///
/// All the room that messages take is reserved here. Its only error is that memory was refused.
#[tactic(auto, using(flow_messages::proofs::Signals::signal_steps))]
pub fn word_edge(
    alloc: Global,
    kind: Kind,
    capacity: usize,
) -> Result<(WordWriter, WordReader), AllocError>
    requires scalar { kind ≢ VecKind }
    requires some { 0 < capacity }
    requires limit { capacity ≤ greatest_capacity }
    ensures pair { IfOk result (λ r. IsEdge r.0 r.1) }
    ensures writer { IfOk result (λ r. IsNewWriter r.0 capacity) }
    ensures reader { IfOk result (λ r. (received r.1 ≡ []) × (certain_held r.1 ≡ [])) }
    ensures kind { IfOk result (λ r. (kind_of r.0 ≡ kind) × (reader_kind r.1 ≡ kind)) }
{
    let (writer, reader) = new_ring(alloc, kind, capacity)?;
    let writer = WordWriter {
        ring: writer,
        closed: false,
        put: 0,
    };
    let reader = WordReader {
        ring: reader,
        group: Group::None,
        taken: 0,
        block: [0; BLOCK],
    };
    Ok((writer, reader))
}

/// Has both ends of an edge see each other. What was taken and what the edge holds are what was put, and an edge that holds
/// nothing has room for all that it may hold.
pub fn meet(writer: &mut WordWriter, reader: &mut WordReader)
    requires { IsEdge writer.old reader.old }
    ensures writer { SameWriter writer.old writer.new × (sent writer.new ≡ sent writer.old) }
    ensures reader { SameReader reader.old reader.new ×
        (received reader.new ≡ received reader.old) }
    ensures looked { StaysCertain writer.old reader.old writer.new reader.new }
    ensures pair { IsEdge writer.new reader.new }
    ensures fifo { received reader.new ++ certain_held reader.new ≡ sent writer.new }
    ensures room { certain_held reader.new ≡ [] →
        edge_capacity writer.new ≤ certain_room writer.new }
{
    writer.ring.meet(&mut reader.ring);
}

impl WriterWords {
    // Each end sees all that the other did.
    fn meet(&mut self, reader: &mut ReaderWords)
        requires pair { ring.IsPair self.old reader.old }
        requires whole { ring.half_put self.old ≡ NoGroup }
        ensures writer { ring.SameProducer self.old self.new ×
            (ring.sent self.new ≡ ring.sent self.old) }
        ensures whole { ring.half_put self.new ≡ NoGroup }
        ensures reader { ring.SameConsumer reader.old reader.new }
        ensures received { ring.received reader.new ≡ ring.received reader.old }
        ensures half { ring.half_taken reader.new ≡ ring.half_taken reader.old }
        ensures free { ring.known_free self.old ≤ ring.known_free self.new }
        ensures known { IsPrefix (ring.known_items reader.old) (ring.known_items reader.new) }
        ensures fifo { ring.received reader.new ++ ring.known_items reader.new ≡
            ring.sent self.new }
        ensures room { known_items reader.new ≡ [] → producer_capacity self.new ≤ known_free self.new }
    {
        match (self, reader) {
            (WriterWords::Units(writer), ReaderWords::Units(reader)) => see(writer, reader),
            (WriterWords::Flags(writer), ReaderWords::Flags(reader)) => see(writer, reader),
            (WriterWords::Ints(writer), ReaderWords::Ints(reader)) => see(writer, reader),
            _ => unreachable!(),
        }
    }
}

// Both ends of a ring see each other. The reader looks last, so what it sees is all that was put.
fn see<T, P: Protocol<T>>(writer: &mut Producer<T, Global, P>, reader: &mut Consumer<T, Global, P>)
    requires { port.IsPair writer.old reader.old }
    ensures writer { port.ProducerLooked writer.old writer.new }
    ensures reader { port.ConsumerLooked reader.old reader.new }
    ensures fifo { port.received reader.new ++ port.known_items reader.new ≡
        port.sent writer.new }
    ensures room { length (port.known_items reader.new) ≡ 0 → ring.KnowsAllFree writer.new }
{
    let room = writer.slots_beside(reader);
    let count = reader.slots_beside(writer);
    let _ = (room, count);
}
