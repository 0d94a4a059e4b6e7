// The ring of a writer, whatever it carries.
ghost use Rattle.std.specs.Prelude.{◌≡◌, ◌+◌, ◌<◌, ◌≤◌, ◌↔◌, ◌/◌, true, false, [], ◌∷◌, ◌++◌, Some, length, IsTrue};
ghost use Rattle.rtrb.specs.Ring as port;
ghost use Rattle.rtrb.specs.Fifo.{EachAllowed};
ghost use Rattle.flow_messages.specs.declared.message.Kind.TheVariants.{Int as IntKind};
ghost use Rattle.flow_messages.specs.Contents.{unit_messages, flag_messages, int_messages, item_messages};
ghost use Rattle.flow_messages.specs.Kinds.{fits, TakesItems};
ghost use Rattle.flow_messages.specs.Signals.{signals, signal_of, ended};
ghost use Rattle.flow_words.specs.declared.words.Group.TheVariants.{None as NoGroup};
ghost use Rattle.flow_words.specs.declared.ring.WriterWords.TheVariants.{Units as UnitsTo, Flags as FlagsTo, Ints as IntsTo};
ghost use Rattle.flow_words.specs.Words.{group_after, ArePlain};
ghost use Rattle.flow_words.specs.Ring.{sent, known_free, half_put, writer_kind, FillsAtMost, ProducerLooked, SaysMore, TooFull, UsesAtMost};

use crate::ring::{ClosingFlags, ClosingInts, ClosingUnits, WriterWords};
use crate::single::{PLACES, Single, lay_out};
use crate::words::{FlagWord, LONGEST, UnitWord, are_plain, spell};
use flow_messages::{Items, Msg};
use rtrb::{Producer, Protocol};
use std::alloc::Global;

// What is put where a block of units is.
const UNITS: [UnitWord; PLACES] = [UnitWord::Unit; PLACES];

// Puts all of these, or nothing if the ring has less room.
#[inline(always)]
fn push_all<T: Copy, P: Protocol<T>>(ring: &mut Producer<T, Global, P>, words: &[T]) -> bool
    requires { EachAllowed P.allows (port.sent ring.old) words.now }
    ensures room { UsesAtMost (length words.now) ring.old ring.new }
    ensures done { IsTrue result → port.sent ring.new ≡ port.sent ring.old ++ words.now }
    ensures full { result ≡ false → TooFull (length words.now) ring.old ring.new }
    ensures succeeds { length words.now ≤ port.known_free ring.old → IsTrue result }
{
    ring.push_entire_slice(words).is_ok()
}

// Puts a message that goes as one word, or nothing if the ring is full.
#[inline(always)]
fn push_single<W: Single, P: Protocol<W>>(ring: &mut Producer<W, Global, P>, message: &Msg) -> bool
    requires fits { fits W.kind (signal_of message.now) ≡ true }
    requires allowed { (w : W) → P.allows (port.sent ring.old) w }
    ensures room { UsesAtMost 1 ring.old ring.new }
    ensures done { IsTrue result → SaysMore W.said (message.now ∷ []) ring.old ring.new }
    ensures none { result ≡ false → port.sent ring.new ≡ port.sent ring.old }
    ensures kept { result ≡ false → port.known_free ring.old ≤ port.known_free ring.new }
    ensures full { result ≡ false → port.known_free ring.new ≡ 0 }
    ensures succeeds { 0 < port.known_free ring.old → IsTrue result }
{
    match ring.push(W::of(message)) {
        Ok(()) => true,
        Err(_) => false,
    }
}

// Puts a message of an edge of integers, or nothing if the ring has less room.
#[inline(always)]
fn push_spelled(ring: &mut Producer<i64, Global, ClosingInts>, message: &Msg) -> bool
    requires fits { fits IntKind (signal_of message.now) ≡ true }
    requires open { ended (signals (sent (IntsTo ring.old))) ≡ false }
    requires whole { group_after NoGroup (port.sent ring.old) ≡ NoGroup }
    ensures room { UsesAtMost 4 ring.old ring.new }
    ensures whole { group_after NoGroup (port.sent ring.new) ≡ NoGroup }
    ensures done { IsTrue result → sent (IntsTo ring.new) ≡ sent (IntsTo ring.old) ++ message.now ∷ [] }
    ensures full { result ≡ false → TooFull 4 ring.old ring.new }
    ensures succeeds { 4 ≤ port.known_free ring.old → IsTrue result }
{
    let (words, count) = spell(message);
    push_all(ring, &words[..count])
}

// Puts at most a block of units, where there is room.
#[inline(always)]
fn push_few_units(ring: &mut Producer<UnitWord, Global, ClosingUnits>, count: usize)
    requires few { count ≤ 256 }
    requires open { ended (signals (sent (UnitsTo ring.old))) ≡ false }
    requires certain { count ≤ port.known_free ring.old }
    ensures put { sent (UnitsTo ring.new) ≡ sent (UnitsTo ring.old) ++ unit_messages count }
    ensures room { UsesAtMost count ring.old ring.new }
{
    if !push_all(ring, &UNITS[..count]) {
        unreachable!()
    }
}

// Puts so many units, where there is room.
fn push_units(ring: &mut Producer<UnitWord, Global, ClosingUnits>, count: usize)
    requires open { ended (signals (sent (UnitsTo ring.old))) ≡ false }
    requires certain { count ≤ port.known_free ring.old }
    ensures put { sent (UnitsTo ring.new) ≡ sent (UnitsTo ring.old) ++ unit_messages count }
    ensures room { UsesAtMost count ring.old ring.new }
{
    let mut put = 0;
    while put < count {
        let some = (count - put).min(PLACES);
        push_few_units(ring, some);
        put += some;
    }
}

// Puts at most a block of truth values, where there is room.
#[inline(always)]
fn push_few_flags(ring: &mut Producer<FlagWord, Global, ClosingFlags>, flags: &[bool])
    requires few { length flags.now ≤ 256 }
    requires open { ended (signals (sent (FlagsTo ring.old))) ≡ false }
    requires certain { length flags.now ≤ port.known_free ring.old }
    ensures put { sent (FlagsTo ring.new) ≡ sent (FlagsTo ring.old) ++ flag_messages flags.now }
    ensures room { UsesAtMost (length flags.now) ring.old ring.new }
{
    let mut block = [FlagWord::End; PLACES];
    lay_out(flags, &mut block);
    if !push_all(ring, &block[..flags.len()]) {
        unreachable!()
    }
}

// Puts these truth values, where there is room.
fn push_flags(ring: &mut Producer<FlagWord, Global, ClosingFlags>, flags: &[bool])
    requires open { ended (signals (sent (FlagsTo ring.old))) ≡ false }
    requires certain { length flags.now ≤ port.known_free ring.old }
    ensures put { sent (FlagsTo ring.new) ≡ sent (FlagsTo ring.old) ++ flag_messages flags.now }
    ensures room { UsesAtMost (length flags.now) ring.old ring.new }
{
    let mut put = 0;
    while put < flags.len() {
        let some = (flags.len() - put).min(PLACES);
        push_few_flags(ring, &flags[put..put + some]);
        put += some;
    }
}

// Puts these integers, which say themselves, where there is room.
#[inline(always)]
fn push_plain(ring: &mut Producer<i64, Global, ClosingInts>, ints: &[i64])
    requires plain { ArePlain ints.now }
    requires open { ended (signals (sent (IntsTo ring.old))) ≡ false }
    requires whole { group_after NoGroup (port.sent ring.old) ≡ NoGroup }
    requires certain { length ints.now ≤ port.known_free ring.old }
    ensures whole { group_after NoGroup (port.sent ring.new) ≡ NoGroup }
    ensures put { sent (IntsTo ring.new) ≡ sent (IntsTo ring.old) ++ int_messages ints.now }
    ensures room { UsesAtMost (length ints.now) ring.old ring.new }
{
    if !push_all(ring, ints) {
        unreachable!()
    }
}

// Puts all these items one after another, where there is room.
fn push_each(ring: &mut Producer<i64, Global, ClosingInts>, all: Items<'_>)
    requires kind { TakesItems (Some IntKind) all }
    requires open { ended (signals (sent (IntsTo ring.old))) ≡ false }
    requires whole { half_put (IntsTo ring.old) ≡ NoGroup }
    requires certain { length (item_messages all) ≤ known_free (IntsTo ring.old) }
    ensures whole { half_put (IntsTo ring.new) ≡ NoGroup }
    ensures put { sent (IntsTo ring.new) ≡ sent (IntsTo ring.old) ++ item_messages all.entry }
    ensures room { FillsAtMost (length (item_messages all.entry)) (IntsTo ring.old)
        (IntsTo ring.new) }
{
    for at in 0..all.len() {
        if !push_spelled(ring, &all.message(at)) {
            unreachable!()
        }
    }
}

// Puts these integers, where there is room.
#[inline(always)]
fn push_ints(ring: &mut Producer<i64, Global, ClosingInts>, ints: &[i64])
    requires open { ended (signals (sent (IntsTo ring.old))) ≡ false }
    requires whole { half_put (IntsTo ring.old) ≡ NoGroup }
    requires certain { length ints.now ≤ known_free (IntsTo ring.old) }
    ensures whole { half_put (IntsTo ring.new) ≡ NoGroup }
    ensures put { sent (IntsTo ring.new) ≡ sent (IntsTo ring.old) ++ int_messages ints.now }
    ensures room { FillsAtMost (length ints.now) (IntsTo ring.old) (IntsTo ring.new) }
{
    if !are_plain(ints) {
        push_each(ring, Items::Ints(ints));
        return;
    }
    push_plain(ring, ints);
}

// Whether so many places are free. It looks only where it does not know.
#[inline(always)]
fn are_free<T, P: Protocol<T>>(ring: &mut Producer<T, Global, P>, count: usize) -> bool
    ensures looked { port.ProducerLooked ring.old ring.new }
    ensures value { IsTrue result ↔ (count ≤ port.known_free ring.new) }
{
    count <= ring.cached_slots() || count <= ring.slots()
}

// Whether places are free for so many integers.
#[inline(always)]
fn are_free_for_ints(ring: &mut Producer<i64, Global, ClosingInts>, count: usize) -> bool
    ensures looked { port.ProducerLooked ring.old ring.new }
    ensures value { IsTrue result ↔ (count ≤ port.known_free ring.new / 4) }
{
    count <= ring.cached_slots() / LONGEST || count <= ring.slots() / LONGEST
}

impl WriterWords {
    // Puts a message, or nothing if the ring is full.
    #[inline(always)]
    pub(crate) fn push(&mut self, message: &Msg) -> bool
        requires open { ended (signals (sent self.old)) ≡ false }
        requires fits { fits (writer_kind self.old) (signal_of message.now) ≡ true }
        requires whole { half_put self.old ≡ NoGroup }
        ensures room { FillsAtMost 1 self.old self.new }
        ensures whole { half_put self.new ≡ NoGroup }
        ensures done { IsTrue result → sent self.new ≡ sent self.old ++ message.now ∷ [] }
        ensures none { result ≡ false → sent self.new ≡ sent self.old }
        ensures kept { result ≡ false → known_free self.old ≤ known_free self.new }
        ensures full { result ≡ false → known_free self.new ≡ 0 }
        ensures succeeds { 0 < known_free self.old → IsTrue result }
    {
        match self {
            WriterWords::Units(ring) => push_single(ring, message),
            WriterWords::Flags(ring) => push_single(ring, message),
            WriterWords::Ints(ring) => push_spelled(ring, message),
        }
    }

    // Puts these items, where there is room.
    #[inline(always)]
    pub(crate) fn push_all(&mut self, items: Items<'_>)
        requires open { ended (signals (sent self.old)) ≡ false }
        requires kind { TakesItems (Some (writer_kind self.old)) items }
        requires whole { half_put self.old ≡ NoGroup }
        requires certain { length (item_messages items) ≤ known_free self.old }
        ensures whole { half_put self.new ≡ NoGroup }
        ensures put { sent self.new ≡ sent self.old ++ item_messages items.entry }
        ensures room { FillsAtMost (length (item_messages items.entry)) self.old self.new }
    {
        match (self, items) {
            (_, Items::Nothing) => {}
            (WriterWords::Units(ring), Items::Units(count)) => push_units(ring, count),
            (WriterWords::Flags(ring), Items::Flags(flags)) => push_flags(ring, flags),
            (WriterWords::Ints(ring), Items::Ints(ints)) => push_ints(ring, ints),
            _ => unreachable!(),
        }
    }

    // Whether there is room for so many messages.
    #[inline(always)]
    pub(crate) fn has_room(&mut self, count: usize) -> bool
        ensures looked { ProducerLooked self.old self.new }
        ensures value { IsTrue result ↔ (count ≤ known_free self.new) }
    {
        match self {
            WriterWords::Units(ring) => are_free(ring, count),
            WriterWords::Flags(ring) => are_free(ring, count),
            WriterWords::Ints(ring) => are_free_for_ints(ring, count),
        }
    }

    // For how many messages there is room.
    #[inline(always)]
    pub(crate) fn room(&mut self) -> usize
        ensures looked { ProducerLooked self.old self.new }
        ensures value { result ≡ known_free self.new }
    {
        match self {
            WriterWords::Units(ring) => ring.slots(),
            WriterWords::Flags(ring) => ring.slots(),
            WriterWords::Ints(ring) => ring.slots() / LONGEST,
        }
    }
}
