// Both ends at once: where an edge is made, and where its ends meet.
ghost use Rattle.std.specs.Prelude.{◌≡◌, ◌≢◌, ◌+◌, ◌<◌, ◌≤◌, Some, None, [], ◌++◌, length, IfOk};
ghost use mathlib.Core.List.{IsPrefix};
ghost use Rattle.flow_messages.specs.Limits.{greatest_capacity};
ghost use Rattle.flow_messages.specs.declared.message.Kind.TheVariants.{Vec as VecKind};
ghost use Rattle.flow_rings.specs.Ring as ring;
ghost use Rattle.flow_rings.specs.Edge.{sent, received, certain_room, certain_held, edge_capacity, kind_of, reader_kind, IsEdge, IsNewWriter, HasAll, SameWriter, SameReader, StaysCertain};

use crate::ring::{
    Closing, ClosingFlags, ClosingInts, ClosingUnits, EdgeReader, EdgeWriter, Held, ReaderRing,
    WriterRing,
};
use flow_messages::Kind;
use rtrb::RingBuffer;
use std::alloc::{AllocError, Global};

// The ends of a new ring as those of an edge.
#[tactic(auto, using(crate::proofs::Lists::list_steps))]
fn ends_over(writer: WriterRing, reader: ReaderRing) -> (EdgeWriter, EdgeReader)
    requires { (ring.sent writer ≡ []) × (ring.received reader ≡ []) }
    ensures { (result.0.ring ≡ writer) × (result.1.ring ≡ reader) }
{
    let writer = EdgeWriter {
        ring: writer,
        closed: false,
        put: 0,
    };
    let reader = EdgeReader {
        ring: reader,
        taken: 0,
    };
    (writer, reader)
}

/// The ends of an edge that holds at most `capacity` messages. Nothing was put on it.
///
/// All the room that messages take is reserved here, and the call is refused where there is no memory
/// for it. It is given back when both ends are dropped.
pub fn edge(alloc: Global, capacity: usize) -> Result<(EdgeWriter, EdgeReader), AllocError>
    requires some { 0 < capacity }
    requires limit { capacity ≤ greatest_capacity }
    ensures pair { IfOk result (λ r. IsEdge r.0 r.1) }
    ensures writer { IfOk result (λ r. IsNewWriter r.0 capacity) }
    ensures reader { IfOk result (λ r. (received r.1 ≡ []) × (certain_held r.1 ≡ [])) }
    ensures any { IfOk result (λ r. (kind_of r.0 ≡ None) × (reader_kind r.1 ≡ None)) }
{
    let (producer, consumer) = RingBuffer::with_protocol::<Global, Closing>(alloc, capacity)?;
    Ok(ends_over(
        WriterRing::Messages(producer),
        ReaderRing::Messages(consumer),
    ))
}

// The two ends of a ring of scalars of one kind.
fn scalar_ring(
    alloc: Global,
    kind: Kind,
    capacity: usize,
) -> Result<(WriterRing, ReaderRing), AllocError>
    requires { kind ≢ VecKind }
    ensures pair { IfOk result (λ r. ring.IsPair r.0 r.1) }
    ensures writer { IfOk result (λ r. ring.IsEmptyWriter r.0 capacity) }
    ensures reader { IfOk result (λ r. (ring.received r.1 ≡ []) × (ring.known_items r.1 ≡ [])) }
    ensures kind { IfOk result (λ r. ring.writer_kind r.0 ≡ Some kind) }
{
    match kind {
        Kind::Unit => {
            let (to, from) = RingBuffer::with_protocol::<Global, ClosingUnits>(alloc, capacity)?;
            Ok((WriterRing::Units(to), ReaderRing::Units(from)))
        }
        Kind::Bool => {
            let (to, from) = RingBuffer::with_protocol::<Global, ClosingFlags>(alloc, capacity)?;
            Ok((WriterRing::Flags(to), ReaderRing::Flags(from)))
        }
        Kind::Int => {
            let (to, from) = RingBuffer::with_protocol::<Global, ClosingInts>(alloc, capacity)?;
            Ok((WriterRing::Ints(to), ReaderRing::Ints(from)))
        }
        Kind::Vec => unreachable!(),
    }
}

/// The ends of an edge of scalars of one kind, which holds at most `capacity` messages. Nothing was put
/// on it. It is made as [`edge`] makes one, and its messages may also go in blocks.
pub fn scalar_edge(
    alloc: Global,
    kind: Kind,
    capacity: usize,
) -> Result<(EdgeWriter, EdgeReader), AllocError>
    requires scalar { kind ≢ VecKind }
    requires some { 0 < capacity }
    requires limit { capacity ≤ greatest_capacity }
    ensures pair { IfOk result (λ r. IsEdge r.0 r.1) }
    ensures writer { IfOk result (λ r. IsNewWriter r.0 capacity) }
    ensures reader { IfOk result (λ r. (received r.1 ≡ []) × (certain_held r.1 ≡ [])) }
    ensures kind { IfOk result (λ r. (kind_of r.0 ≡ Some kind) × (reader_kind r.1 ≡ Some kind)) }
{
    let (writer, reader) = scalar_ring(alloc, kind, capacity)?;
    Ok(ends_over(writer, reader))
}

/// Has both ends of an edge see each other: how many messages the edge holds, and how many more it has
/// room for. What was taken and what the edge holds are what was put.
pub fn meet(writer: &mut EdgeWriter, reader: &mut EdgeReader) -> Held
    requires { IsEdge writer.old reader.old }
    ensures writer { SameWriter writer.old writer.new × (sent writer.new ≡ sent writer.old) }
    ensures reader { SameReader reader.old reader.new ×
        (received reader.new ≡ received reader.old) }
    ensures looked { StaysCertain writer.old reader.old writer.new reader.new }
    ensures pair { IsEdge writer.new reader.new }
    ensures fifo { HasAll reader.new (sent writer.new) }
    ensures count { result.count ≡ length (certain_held reader.new) }
    ensures room { result.room ≤ certain_room writer.new }
    ensures whole { result.count + result.room ≡ edge_capacity writer.new }
{
    // The reader looks last, so what it sees is all that was put. Of a writer that has looked before,
    // the ring says that no less room is certain, and not that no more is.
    let room = writer.ring.slots_beside(&mut reader.ring);
    let count = reader.ring.slots_beside(&mut writer.ring);
    Held { count, room }
}
