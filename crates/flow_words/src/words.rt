// The words that go over rings. Each kind of scalar has its own, as few bytes as it needs.
ghost use Rattle.std.specs.Prelude.{◌≡◌, ◌≤◌, true, false, [], ◌∷◌, take, IsTrue, IfSome, IfNone};
ghost use Rattle.flow_messages.specs.declared.message.Msg.TheVariants.{Item as ItemMsg};
ghost use Rattle.flow_messages.specs.declared.message.Item.TheVariants.{Int as IntItem};
ghost use Rattle.flow_messages.specs.declared.message.Kind.TheVariants.{Int as IntKind};
ghost use Rattle.flow_messages.specs.Kinds.{fits};
ghost use Rattle.flow_messages.specs.Signals.{signal_of};
ghost use Rattle.flow_words.specs.Words.{is_escape, group_number, ints_said, group_after, Spells, ArePlain};

use flow_messages::{Item, Msg};

/// A unit, or the end of the stream.
#[derive(Clone, Copy, Debug, PartialEq, Eq)]
pub enum UnitWord {
    Unit,
    End,
}

/// A truth value, or the end of the stream.
#[derive(Clone, Copy, Debug, PartialEq, Eq)]
pub enum FlagWord {
    False,
    True,
    End,
}

/// How much of a group of words has come that stands for one message.
///
/// An integer goes as itself, but for the least one of 64 bits, the escape. An escape and another are the end of the stream. An
/// escape and three digits to the base 2⁶² are an integer of 128 bits.
#[derive(Clone, Copy, Debug, PartialEq, Eq)]
pub enum Group {
    /// Nothing.
    None,
    /// The escape.
    Begun,
    /// And the first digit.
    Top(i64),
    /// And the second.
    Half(i64, i64),
}

// The word that begins a group.
const ESCAPE: i64 = i64::MIN;

// What the digits of a group are multiplied by: 2⁶².
const BASE: i128 = 4_611_686_018_427_387_904;

// So many words say a message at most.
pub(crate) const LONGEST: usize = 4;

// Whether a word begins a group.
#[inline(always)]
pub(crate) fn escapes(word: i64) -> bool
    ensures { result ≡ is_escape word }
{
    word < -i64::MAX
}

// The digits of an integer, the highest first, which is never the escape.
fn digits(number: i128) -> (i64, i64, i64)
    ensures number { group_number result.0 result.1 result.2 ≡ number }
    ensures top { is_escape result.0 ≡ false }
{
    let quotient = number / BASE;
    let top = (quotient / BASE) as i64;
    let middle = (quotient % BASE) as i64;
    let low = (number % BASE) as i64;
    (top, middle, low)
}

// The number with these digits.
fn number_of(top: i64, middle: i64, low: i64) -> i128
    ensures { result ≡ group_number top middle low }
{
    let high = i128::from(top).wrapping_mul(BASE);
    let quotient = high.wrapping_add(i128::from(middle));
    quotient.wrapping_mul(BASE).wrapping_add(i128::from(low))
}

// The words that say an integer, and how many they are.
#[inline(always)]
fn spell_int(number: i128) -> ([i64; LONGEST], usize)
    ensures few { result.1 ≤ 4 }
    ensures spells { Spells (take result.1 result.0) (ItemMsg (IntItem number)) }
{
    if let Ok(word) = i64::try_from(number) {
        if !escapes(word) {
            return ([word, 0, 0, 0], 1);
        }
    }
    let (top, middle, low) = digits(number);
    ([ESCAPE, top, middle, low], LONGEST)
}

// The words that say a message of an edge of integers, and how many they are.
#[inline(always)]
pub(crate) fn spell(message: &Msg) -> ([i64; LONGEST], usize)
    requires { fits IntKind (signal_of message.now) ≡ true }
    ensures few { result.1 ≤ 4 }
    ensures spells { Spells (take result.1 result.0) message.now }
{
    match message {
        Msg::Item(Item::Int(number)) => spell_int(*number),
        Msg::End => ([ESCAPE, ESCAPE, 0, 0], 2),
        _ => unreachable!(),
    }
}

impl Group {
    // What has come after one word more, and the message that is then whole.
    #[inline(always)]
    pub(crate) fn step(self, word: i64) -> (Group, Option<Msg>)
        ensures group { result.0 ≡ group_after self (word ∷ []) }
        ensures some { IfSome result.1 (λ m. ints_said self (word ∷ []) ≡ m ∷ []) }
        ensures none { IfNone result.1 (ints_said self (word ∷ []) ≡ []) }
    {
        let escape = escapes(word);
        match self {
            Group::None if escape => (Group::Begun, None),
            Group::None => (Group::None, Some(Msg::Item(Item::Int(i128::from(word))))),
            Group::Begun if escape => (Group::None, Some(Msg::End)),
            Group::Begun => (Group::Top(word), None),
            Group::Top(top) => (Group::Half(top, word), None),
            Group::Half(top, middle) => {
                let number = number_of(top, middle, word);
                (Group::None, Some(Msg::Item(Item::Int(number))))
            }
        }
    }
}

// Whether none of these begins a group.
pub(crate) fn are_plain(words: &[i64]) -> bool
    ensures { IsTrue result → ArePlain words.now }
{
    // The loop goes on after the first, so that it can look at several at once.
    let mut escaped = false;
    for word in words {
        escaped |= escapes(*word);
    }
    !escaped
}
