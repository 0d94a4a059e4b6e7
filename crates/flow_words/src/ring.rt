// The two ends, as those of a ring of words.
ghost use Rattle.std.specs.Prelude.{◌≡◌, true, length};
ghost use Rattle.std.specs.Io.Iter.{u64_saturate};
ghost use Rattle.flow_messages.specs.Signals.{signals, ended, orderly};
ghost use Rattle.flow_words.specs.declared.words.Group.TheVariants.{None as NoGroup};
ghost use Rattle.flow_words.specs.Ring.{sent, received, half_put, half_taken};

use crate::words::{FlagWord, Group, UnitWord};
use rtrb::{Consumer, Producer, Protocol};
use std::alloc::Global;

/// What the writer of an edge of units promises to its reader: nothing follows an `End`.
#[derive(Clone, Copy)]
pub struct ClosingUnits;

impl Protocol<UnitWord> for ClosingUnits {
    ghost use Rattle.std.specs.Prelude.{◌≡◌, false};
    ghost use Rattle.flow_messages.specs.Signals.{signals, ended};
    ghost use Rattle.flow_words.specs.Words.{each_said, unit_word};

    ghost allows = { λ before _. ended (signals (each_said unit_word before)) ≡ false };
}

/// What the writer of an edge of truth values promises: nothing follows an `End`.
#[derive(Clone, Copy)]
pub struct ClosingFlags;

impl Protocol<FlagWord> for ClosingFlags {
    ghost use Rattle.std.specs.Prelude.{◌≡◌, false};
    ghost use Rattle.flow_messages.specs.Signals.{signals, ended};
    ghost use Rattle.flow_words.specs.Words.{each_said, flag_word};

    ghost allows = { λ before _. ended (signals (each_said flag_word before)) ≡ false };
}

/// What the writer of an edge of integers promises: nothing follows an `End`.
#[derive(Clone, Copy)]
pub struct ClosingInts;

impl Protocol<i64> for ClosingInts {
    ghost use Rattle.std.specs.Prelude.{◌≡◌, false};
    ghost use Rattle.flow_messages.specs.Signals.{signals, ended};
    ghost use Rattle.flow_words.specs.Words.{ints_sent};

    ghost allows = { λ before _. ended (signals (ints_sent before)) ≡ false };
}

// The ring of a writer.
#[derive(Drop)]
pub(crate) enum WriterWords {
    Units(Producer<UnitWord, Global, ClosingUnits>),
    Flags(Producer<FlagWord, Global, ClosingFlags>),
    Ints(Producer<i64, Global, ClosingInts>),
}

// The ring of a reader.
#[derive(Drop)]
pub(crate) enum ReaderWords {
    Units(Consumer<UnitWord, Global, ClosingUnits>),
    Flags(Consumer<FlagWord, Global, ClosingFlags>),
    Ints(Consumer<i64, Global, ClosingInts>),
}

/// The end of an edge of scalars of one kind that puts messages.
#[derive(Drop)]
pub struct WordWriter {
    pub(crate) ring: WriterWords,
    pub(crate) closed: bool,
    pub(crate) put: u64,
    ghost closes: { closed ≡ ended (signals (sent ring)) },
    ghost orderly: { orderly (signals (sent ring)) ≡ true },
    ghost counts: { put ≡ u64_saturate (length (sent ring)) },
    ghost whole: { half_put ring ≡ NoGroup },
}

// So many words of integers are taken at once.
pub(crate) const BLOCK: usize = 256;

/// The end of an edge of scalars of one kind that takes messages.
#[derive(Drop)]
pub struct WordReader {
    pub(crate) ring: ReaderWords,
    pub(crate) group: Group,
    pub(crate) taken: u64,
    // Words lie here before what they say is held.
    pub(crate) block: [i64; BLOCK],
    ghost half: { group ≡ half_taken ring },
    ghost orderly: { orderly (signals (received ring)) ≡ true },
    ghost counts: { taken ≡ u64_saturate (length (received ring)) },
}
