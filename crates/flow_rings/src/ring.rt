// The two ends, as those of a ring.
ghost use Rattle.std.specs.Prelude.{◌≡◌, true, length};
ghost use Rattle.std.specs.Io.Iter.{u64_saturate};
ghost use Rattle.flow_messages.specs.Signals.{signals, ended, orderly};
ghost use Rattle.flow_rings.specs.Ring.{sent, received, all_sent};

use flow_messages::{Flat, Msg};
use rtrb::{Consumer, Finished, Producer, Protocol};
use std::alloc::Global;

/// What the writer of an edge promises to its reader: nothing follows an `End`.
#[derive(Clone, Copy)]
pub struct Closing;

impl Protocol<Msg> for Closing {
    ghost use Rattle.std.specs.Prelude.{false};

    ghost allows = { λ before _. ended (signals before) ≡ false };
}

/// What the writer of an edge of units promises: units, and nothing follows an `End`.
#[derive(Clone, Copy)]
pub struct ClosingUnits;

impl Protocol<Flat> for ClosingUnits {
    ghost use Rattle.flow_messages.specs.declared.message.Kind.TheVariants.{Unit as UnitKind};
    ghost use Rattle.flow_messages.specs.Flats.{MayBePut};

    ghost allows = { MayBePut UnitKind };
}

/// What the writer of an edge of truth values promises: truth values, and nothing follows an `End`.
#[derive(Clone, Copy)]
pub struct ClosingFlags;

impl Protocol<Flat> for ClosingFlags {
    ghost use Rattle.flow_messages.specs.declared.message.Kind.TheVariants.{Bool as BoolKind};
    ghost use Rattle.flow_messages.specs.Flats.{MayBePut};

    ghost allows = { MayBePut BoolKind };
}

/// What the writer of an edge of integers promises: integers, and nothing follows an `End`.
#[derive(Clone, Copy)]
pub struct ClosingInts;

impl Protocol<Flat> for ClosingInts {
    ghost use Rattle.flow_messages.specs.declared.message.Kind.TheVariants.{Int as IntKind};
    ghost use Rattle.flow_messages.specs.Flats.{MayBePut};

    ghost allows = { MayBePut IntKind };
}

// The ring of a writer: of messages, or of scalars of one kind.
#[derive(Drop)]
pub(crate) enum WriterRing {
    Messages(Producer<Msg, Global, Closing>),
    Units(Producer<Flat, Global, ClosingUnits>),
    Flags(Producer<Flat, Global, ClosingFlags>),
    Ints(Producer<Flat, Global, ClosingInts>),
}

// The ring of a reader.
#[derive(Drop)]
pub(crate) enum ReaderRing {
    Messages(Consumer<Msg, Global, Closing>),
    Units(Consumer<Flat, Global, ClosingUnits>),
    Flags(Consumer<Flat, Global, ClosingFlags>),
    Ints(Consumer<Flat, Global, ClosingInts>),
}

// What is left of the ring of a writer.
#[derive(Drop)]
pub(crate) enum MarkRing {
    Messages(Finished<Msg, Global, Closing>),
    Units(Finished<Flat, Global, ClosingUnits>),
    Flags(Finished<Flat, Global, ClosingFlags>),
    Ints(Finished<Flat, Global, ClosingInts>),
}

/// The end of an edge that puts messages.
#[derive(Drop)]
pub struct EdgeWriter {
    pub(crate) ring: WriterRing,
    pub(crate) closed: bool,
    pub(crate) put: u64,
    ghost closes: { closed ≡ ended (signals (sent ring)) },
    ghost orderly: { orderly (signals (sent ring)) ≡ true },
    ghost counts: { put ≡ u64_saturate (length (sent ring)) },
}

/// The end of an edge that takes messages.
#[derive(Drop)]
pub struct EdgeReader {
    pub(crate) ring: ReaderRing,
    pub(crate) taken: u64,
    ghost counts: { taken ≡ u64_saturate (length (received ring)) },
}

/// What is left of a writer that has finished. It tells the reader what was put.
#[derive(Drop)]
pub struct FinishedMark {
    pub(crate) mark: MarkRing,
    ghost orderly: { orderly (signals (all_sent mark)) ≡ true },
}

/// What a meeting of both ends found.
#[derive(Debug, Clone, Copy, PartialEq, Eq)]
pub struct Held {
    /// How many messages the edge holds.
    pub count: usize,
    /// How many more it has room for.
    pub room: usize,
}
