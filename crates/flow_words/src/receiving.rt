// The ring of a reader, whatever it carries.
ghost use Rattle.std.specs.Prelude.{◌≡◌, ◌<◌, ◌≤◌, false, [], ◌∷◌, ◌++◌, length, take};
ghost use Rattle.rtrb.specs.Ring as port;
ghost use Rattle.rtrb.specs.Fifo.{Allowed};
ghost use Rattle.flow_messages.specs.declared.message.Kind.TheVariants.{Int as IntKind};
ghost use Rattle.flow_messages.specs.Stores.{content_of};
ghost use Rattle.flow_boxes.specs.Coming.{HasCome};
ghost use Rattle.flow_words.specs.declared.ring.ReaderWords.TheVariants.{Ints as IntsFrom};
ghost use Rattle.flow_words.specs.Words.{each_said, ints_said, group_after};
ghost use Rattle.flow_words.specs.Ring.{known_items, half_taken, ClosesAtEnd, ComeInTurn, HasRoomFor, HoldsItsEnd, HoldsKind, HoldsSaidEnd, Pops, TakesKnown, TakesSome};

use crate::ring::{ClosingInts, ReaderWords};
use crate::single::{PLACES, Single, hold};
use crate::words::{FlagWord, Group, LONGEST, UnitWord, are_plain};
use flow_boxes::Inbox;
use flow_messages::Items;
use rtrb::{Consumer, Protocol};
use std::alloc::Global;

// Takes the oldest words in place of the first of these, at most `most`. How many.
#[inline(always)]
fn pop_some<T: Copy, P: Protocol<T>>(
    ring: &mut Consumer<T, Global, P>,
    words: &mut [T],
    most: usize,
) -> usize
    ensures taken { Pops (take result words.new) ring.old ring.new }
    ensures allowed { Allowed P.allows (port.received ring.old) (take result words.new) }
    ensures places { length words.new ≡ length words.old }
    ensures count { (result ≤ most) × (result ≤ length words.new) }
    ensures fewer { result < most → result < length words.old →
        length (port.known_items ring.new) ≡ 0 }
{
    let (first, _) = words.split_at_mut(most.min(words.len()));
    ring.pop_partial_slice(first)
}

// Takes words that say a message each and holds what they say, as many as there are places for. How many, and whether
// as many came as were asked for.
#[inline(always)]
fn take_singles<W: Single, P: Protocol<W>>(
    ring: &mut Consumer<W, Global, P>,
    words: &mut [W],
    inbox: &mut Inbox,
) -> (usize, bool)
    requires few { (0 < length words.old) × (length words.old ≤ 256) }
    requires room { 0 < inbox.old.store.capacity }
    requires kind { inbox.old.store.kind ≡ W.kind }
    requires closes { ClosesAtEnd W.said P.allows }
    requires ended { HoldsSaidEnd W.said ring.old inbox.old }
    ensures taken { Pops (take result.0 words.new) ring.old ring.new }
    ensures allowed { Allowed P.allows (port.received ring.old) (take result.0 words.new) }
    ensures come { HasCome (each_said W.said (take result.0 words.new)) inbox.old inbox.new }
    ensures found { content_of inbox.new.store ≡ [] → length (port.known_items ring.new) ≡ 0 }
    ensures all { result.1 ≡ false → length (port.known_items ring.new) ≡ 0 }
{
    let asked = (inbox.store.capacity - inbox.store.len()).min(words.len());
    let count = pop_some(ring, words, asked);
    hold(&words[..count], inbox);
    if count < asked {
        return (count, false);
    }
    (count, true)
}

// Holds what one word more says. How much of a group has come after it.
#[inline(always)]
fn hold_word(word: i64, group: Group, inbox: &mut Inbox) -> Group
    requires room { HasRoomFor inbox.old (length (ints_said group (word ∷ []))) }
    requires kind { inbox.old.store.kind ≡ IntKind }
    requires turn { ComeInTurn inbox.old (ints_said group (word ∷ [])) }
    ensures come { HasCome (ints_said group (word ∷ [])) inbox.old inbox.new }
    ensures group { result ≡ group_after group (word ∷ []) }
{
    let (next, message) = group.step(word);
    let Some(message) = message else {
        return next;
    };
    inbox.push(message);
    next
}

// Holds what these words say, one after another. How much of a group has come after them.
fn hold_each(words: &[i64], group: Group, inbox: &mut Inbox) -> Group
    requires room { HasRoomFor inbox.old (length words.now) }
    requires kind { inbox.old.store.kind ≡ IntKind }
    requires turn { ComeInTurn inbox.old (ints_said group words.now) }
    ensures come { HasCome (ints_said group words.now) inbox.old inbox.new }
    ensures group { result ≡ group_after group words.now }
{
    let mut now = group;
    for word in words {
        now = hold_word(*word, now, inbox);
    }
    now
}

// Holds what these words say. How much of a group has come after them.
#[inline(always)]
fn hold_words(words: &[i64], group: Group, inbox: &mut Inbox) -> Group
    requires room { HasRoomFor inbox.old (length words.now) }
    requires kind { inbox.old.store.kind ≡ IntKind }
    requires turn { ComeInTurn inbox.old (ints_said group words.now) }
    ensures come { HasCome (ints_said group words.now) inbox.old inbox.new }
    ensures group { result ≡ group_after group words.now }
{
    if words.is_empty() {
        return group;
    }
    match group {
        Group::None if are_plain(words) => {
            inbox.push_all(Items::Ints(words));
            Group::None
        }
        _ => hold_each(words, group, inbox),
    }
}

// Takes words until a message is held or none is there, where none is held.
fn take_whole(
    ring: &mut Consumer<i64, Global, ClosingInts>,
    group: Group,
    inbox: &mut Inbox,
) -> Group
    requires half { group ≡ half_taken (IntsFrom ring.old) }
    requires room { 0 < inbox.old.store.capacity }
    requires kind { inbox.old.store.kind ≡ IntKind }
    requires none { content_of inbox.old.store ≡ [] }
    ensures half { result ≡ half_taken (IntsFrom ring.new) }
    ensures came { TakesSome (IntsFrom ring.old) (IntsFrom ring.new) inbox.old inbox.new }
    ensures found { content_of inbox.new.store ≡ [] → known_items (IntsFrom ring.new) ≡ [] }
{
    let mut now = group;
    for _ in 0..LONGEST {
        match ring.pop() {
            Ok(word) => now = hold_word(word, now, inbox),
            Err(_) => return now,
        }
        if inbox.store.len() > 0 {
            return now;
        }
    }
    now
}

// Takes words of an edge of integers and holds what they say, as many as there are places for. How much of a group has come,
// and whether as many words came as were asked for.
#[inline(always)]
fn take_ints(
    ring: &mut Consumer<i64, Global, ClosingInts>,
    words: &mut [i64],
    group: Group,
    inbox: &mut Inbox,
) -> (Group, bool)
    requires half { group ≡ half_taken (IntsFrom ring.old) }
    requires some { 0 < length words.old }
    requires room { 0 < inbox.old.store.capacity }
    requires kind { inbox.old.store.kind ≡ IntKind }
    requires ended { HoldsItsEnd (IntsFrom ring.old) inbox.old }
    ensures half { result.0 ≡ half_taken (IntsFrom ring.new) }
    ensures came { TakesSome (IntsFrom ring.old) (IntsFrom ring.new) inbox.old inbox.new }
    ensures found { content_of inbox.new.store ≡ [] → known_items (IntsFrom ring.new) ≡ [] }
    ensures all { result.1 ≡ false → known_items (IntsFrom ring.new) ≡ [] }
{
    let asked = (inbox.store.capacity - inbox.store.len()).min(words.len());
    let count = pop_some(ring, words, asked);
    let now = hold_words(&words[..count], group, inbox);
    if count < asked {
        return (now, false);
    }
    if inbox.store.len() > 0 {
        return (now, true);
    }
    (take_whole(ring, now, inbox), true)
}

// Takes all words that were seen, each of which says a message, and holds what they say.
fn drain_singles<W: Single, P: Protocol<W>>(ring: &mut Consumer<W, Global, P>, inbox: &mut Inbox)
    requires room { HasRoomFor inbox.old (length (port.known_items ring.old)) }
    requires kind { inbox.old.store.kind ≡ W.kind }
    requires closes { ClosesAtEnd W.said P.allows }
    requires ended { HoldsSaidEnd W.said ring.old inbox.old }
    ensures ring { port.SameConsumer ring.old ring.new }
    ensures taken { port.received ring.new ≡
        port.received ring.old ++ port.known_items ring.old }
    ensures none { port.known_items ring.new ≡ [] }
    ensures allowed { Allowed P.allows (port.received ring.old) (port.known_items ring.old) }
    ensures come { HasCome (each_said W.said (port.known_items ring.old)) inbox.old inbox.new }
{
    for _ in 0..ring.cached_slots() {
        inbox.push(ring.pop_known().message());
    }
}

// Takes all words of an edge of integers that were seen, and holds what they say. How much of a group has come.
fn drain_ints(
    ring: &mut Consumer<i64, Global, ClosingInts>,
    group: Group,
    inbox: &mut Inbox,
) -> Group
    requires half { group ≡ half_taken (IntsFrom ring.old) }
    requires room { HasRoomFor inbox.old (length (known_items (IntsFrom ring.old))) }
    requires kind { inbox.old.store.kind ≡ IntKind }
    requires ended { HoldsItsEnd (IntsFrom ring.old) inbox.old }
    ensures half { result ≡ half_taken (IntsFrom ring.new) }
    ensures came { TakesKnown (IntsFrom ring.old) (IntsFrom ring.new) inbox.old inbox.new }
    ensures none { known_items (IntsFrom ring.new) ≡ [] }
{
    let mut now = group;
    for _ in 0..ring.cached_slots() {
        now = hold_word(ring.pop_known(), now, inbox);
    }
    now
}

impl ReaderWords {
    // Takes words and holds what they say, as many as there are places for. How much of a group has come, and whether as many
    // words came as were asked for.
    #[inline(always)]
    pub(crate) fn take_over(
        &mut self,
        block: &mut [i64],
        group: Group,
        inbox: &mut Inbox,
    ) -> (Group, bool)
        requires half { group ≡ half_taken self.old }
        requires some { 0 < length block.old }
        requires room { 0 < inbox.old.store.capacity }
        requires kind { HoldsKind self.old inbox.old }
        requires ended { HoldsItsEnd self.old inbox.old }
        ensures half { result.0 ≡ half_taken self.new }
        ensures came { TakesSome self.old self.new inbox.old inbox.new }
        ensures found { content_of inbox.new.store ≡ [] → known_items self.new ≡ [] }
        ensures all { result.1 ≡ false → known_items self.new ≡ [] }
    {
        match self {
            ReaderWords::Units(ring) => {
                // To lay out a block costs more than to see that nothing is there.
                if ring.is_empty() {
                    return (Group::None, false);
                }
                let mut words = [UnitWord::End; PLACES];
                let (_, all) = take_singles(ring, &mut words, inbox);
                (Group::None, all)
            }
            ReaderWords::Flags(ring) => {
                if ring.is_empty() {
                    return (Group::None, false);
                }
                let mut words = [FlagWord::End; PLACES];
                let (_, all) = take_singles(ring, &mut words, inbox);
                (Group::None, all)
            }
            ReaderWords::Ints(ring) => take_ints(ring, block, group, inbox),
        }
    }

    // Takes all words that were seen, and holds what they say. How much of a group has come.
    pub(crate) fn drain(&mut self, group: Group, inbox: &mut Inbox) -> Group
        requires half { group ≡ half_taken self.old }
        requires room { HasRoomFor inbox.old (length (known_items self.old)) }
        requires kind { HoldsKind self.old inbox.old }
        requires ended { HoldsItsEnd self.old inbox.old }
        ensures half { result ≡ half_taken self.new }
        ensures came { TakesKnown self.old self.new inbox.old inbox.new }
        ensures none { known_items self.new ≡ [] }
    {
        match self {
            ReaderWords::Units(ring) => {
                drain_singles(ring, inbox);
                Group::None
            }
            ReaderWords::Flags(ring) => {
                drain_singles(ring, inbox);
                Group::None
            }
            ReaderWords::Ints(ring) => drain_ints(ring, group, inbox),
        }
    }
}
