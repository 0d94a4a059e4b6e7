// Words that say a message each.
ghost use Rattle.std.specs.Prelude.{◌≡◌, ◌≢◌, ◌≤◌, false, length, take, IsTrue};
ghost use Rattle.flow_messages.specs.declared.message.Msg.TheVariants.{Item as ItemMsg, End as EndMsg};
ghost use Rattle.flow_messages.specs.declared.message.Item.TheVariants.{Unit as UnitItem, Bool as BoolItem};
ghost use Rattle.flow_messages.specs.Contents.{unit_messages};
ghost use Rattle.flow_boxes.specs.Coming.{HasCome};
ghost use Rattle.flow_words.specs.Words.{unit_word, flag_word, each_said, SayFlags};
ghost use Rattle.flow_words.specs.Ring.{ComeInTurn, HasRoomFor};

use crate::words::{FlagWord, UnitWord};
use flow_boxes::Inbox;
use flow_messages::{Item, Items, Msg};

// A block of such words has so many places.
pub(crate) const PLACES: usize = 256;

// A word that says a message.
pub(crate) trait Single: Copy {
    ghost use Rattle.std.specs.Prelude.{◌≡◌, ◌≤◌, true, false, length, IsTrue};
    ghost use Rattle.flow_messages.specs.declared.message.Kind.{Kind};
    ghost use Rattle.flow_messages.specs.declared.message.Msg.{Msg};
    ghost use Rattle.flow_messages.specs.Kinds.{fits};
    ghost use Rattle.flow_messages.specs.Signals.{signal_of};
    ghost use Rattle.flow_messages.specs.Stores.{StoreIsOpen};
    ghost use Rattle.flow_boxes.specs.Coming.{HasCome};
    ghost use Rattle.flow_words.specs.Words.{each_said};
    ghost use Rattle.flow_words.specs.Ring.{HasRoomFor};

    // The message that it says.
    ghost said: { Self → Msg };

    // The kind of the items among them.
    ghost kind: { Kind };

    // The word for a message.
    fn of(message: &Msg) -> Self
        requires { fits kind (signal_of message.now) ≡ true }
        ensures { said result ≡ message.now };

    fn message(self) -> Msg
        ensures said { result ≡ said self }
        ensures fits { fits kind (signal_of result) ≡ true };

    // Holds these messages at once, where all are items. Whether they are.
    fn hold_items(words: &[Self], inbox: &mut Inbox) -> bool
        requires few { length words.now ≤ 256 }
        requires room { HasRoomFor inbox.old (length words.now) }
        requires kind { inbox.old.store.kind ≡ kind }
        requires open { StoreIsOpen inbox.old.store }
        ensures held { IsTrue result → HasCome (each_said said words.now) inbox.old inbox.new }
        ensures kept { result ≡ false → inbox.new ≡ inbox.old };
}

impl Single for UnitWord {
    ghost use Rattle.flow_messages.specs.declared.message.Kind.TheVariants.{Unit as UnitKind};
    ghost use Rattle.flow_words.specs.Words.{unit_word};

    ghost said = { unit_word };

    ghost kind = { UnitKind };

    #[inline(always)]
    fn of(message: &Msg) -> UnitWord {
        match message {
            Msg::Item(Item::Unit) => UnitWord::Unit,
            Msg::End => UnitWord::End,
            _ => unreachable!(),
        }
    }

    #[inline(always)]
    fn message(self) -> Msg {
        match self {
            UnitWord::Unit => Msg::Item(Item::Unit),
            UnitWord::End => Msg::End,
        }
    }

    #[inline(always)]
    fn hold_items(words: &[UnitWord], inbox: &mut Inbox) -> bool {
        if !are_units(words) {
            return false;
        }
        inbox.push_all(Items::Units(words.len()));
        true
    }
}

impl Single for FlagWord {
    ghost use Rattle.flow_messages.specs.declared.message.Kind.TheVariants.{Bool as BoolKind};
    ghost use Rattle.flow_words.specs.Words.{flag_word};

    ghost said = { flag_word };

    ghost kind = { BoolKind };

    #[inline(always)]
    fn of(message: &Msg) -> FlagWord {
        match message {
            Msg::Item(Item::Bool(truth)) => FlagWord::saying(*truth),
            Msg::End => FlagWord::End,
            _ => unreachable!(),
        }
    }

    #[inline(always)]
    fn message(self) -> Msg {
        match self {
            FlagWord::False => Msg::Item(Item::Bool(false)),
            FlagWord::True => Msg::Item(Item::Bool(true)),
            FlagWord::End => Msg::End,
        }
    }

    #[inline(always)]
    fn hold_items(words: &[FlagWord], inbox: &mut Inbox) -> bool {
        let mut flags = [false; PLACES];
        if !read_flags(words, &mut flags) {
            return false;
        }
        inbox.push_all(Items::Flags(&flags[..words.len()]));
        true
    }
}

impl UnitWord {
    // Whether it says a unit.
    #[inline(always)]
    fn is_unit(self) -> bool
        ensures { IsTrue result → unit_word self ≡ ItemMsg UnitItem }
    {
        match self {
            UnitWord::Unit => true,
            UnitWord::End => false,
        }
    }
}

impl FlagWord {
    // The word for a truth value.
    #[inline(always)]
    pub(crate) fn saying(truth: bool) -> FlagWord
        ensures { flag_word result ≡ ItemMsg (BoolItem truth) }
    {
        if truth {
            FlagWord::True
        } else {
            FlagWord::False
        }
    }

    // Whether it says the end.
    #[inline(always)]
    fn is_end(self) -> bool
        ensures { result ≡ false → flag_word self ≢ EndMsg }
    {
        matches!(self, FlagWord::End)
    }

    // The truth value that it says, or `false` where it says none.
    #[inline(always)]
    fn truth(self) -> bool
        ensures { flag_word self ≢ EndMsg → flag_word self ≡ ItemMsg (BoolItem result) }
    {
        matches!(self, FlagWord::True)
    }
}

// Whether all of these say units.
#[inline(always)]
fn are_units(words: &[UnitWord]) -> bool
    ensures { IsTrue result → each_said unit_word words.now ≡ unit_messages (length words.now) }
{
    // The loop goes on after the first that says none, so that it can look at several at once.
    let mut ended = false;
    for word in words {
        ended |= !word.is_unit();
    }
    !ended
}

// Whether all of these say truth values, which then lie in the first places.
#[inline(always)]
fn read_flags(words: &[FlagWord], flags: &mut [bool]) -> bool
    requires places { length words.now ≤ length flags.old }
    ensures places { length flags.new ≡ length flags.old }
    ensures read { IsTrue result → SayFlags words.now (take (length words.now) flags.new) }
{
    // The loop goes on after an end, so that it can look at several at once.
    let mut ended = false;
    for place in 0..words.len() {
        let word = words[place];
        ended |= word.is_end();
        flags[place] = word.truth();
    }
    !ended
}

// Words for these truth values lie in the first places.
#[inline(always)]
pub(crate) fn lay_out(flags: &[bool], words: &mut [FlagWord])
    requires places { length flags.now ≤ length words.old }
    ensures places { length words.new ≡ length words.old }
    ensures laid { SayFlags (take (length flags.now) words.new) flags.now }
{
    for place in 0..flags.len() {
        words[place] = FlagWord::saying(flags[place]);
    }
}

// Holds these messages after all others.
#[inline(always)]
pub(crate) fn hold<W: Single>(words: &[W], inbox: &mut Inbox)
    requires few { length words.now ≤ 256 }
    requires room { HasRoomFor inbox.old (length words.now) }
    requires kind { inbox.old.store.kind ≡ W.kind }
    requires turn { ComeInTurn inbox.old (each_said W.said words.now) }
    ensures { HasCome (each_said W.said words.now) inbox.old inbox.new }
{
    if words.is_empty() {
        return;
    }
    if W::hold_items(words, inbox) {
        return;
    }
    hold_each(words, inbox);
}

// Holds these messages one after another.
fn hold_each<W: Single>(words: &[W], inbox: &mut Inbox)
    requires room { HasRoomFor inbox.old (length words.now) }
    requires kind { inbox.old.store.kind ≡ W.kind }
    requires turn { ComeInTurn inbox.old (each_said W.said words.now) }
    ensures { HasCome (each_said W.said words.now) inbox.old inbox.new }
{
    for word in words {
        inbox.push(word.message());
    }
}
