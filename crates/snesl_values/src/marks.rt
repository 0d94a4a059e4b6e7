// Tokens of a text, as a scanner sees them.

ghost use Rattle.std.specs.Prelude.{◌≡◌, ◌+◌, ◌<◌, ◌≤◌, ◌^◌, length, IfSome, Some, option_map};
ghost use Rattle.std.specs.List.{take_while};
ghost use Rattle.std.specs.Char.{is_ascii_digit};
ghost use Rattle.snesl_values.specs.InputTokens.{AreDigits, integer, number_of, minus_lexeme, first, next_lexeme, next_at};
ghost use Rattle.snesl_values.specs.Marks.{mark_of, sized_mark, sign_mark, word_mark, found_from};

use crate::scan::{signed_number, skip_blanks};
use snesl_data::{Dialect, digits_len, word_len};

/// A bracket: round for a pair, square for a vector, curly for a sequence.
#[derive(Clone, Copy, Debug, PartialEq, Eq)]
pub enum Bracket {
    Round,
    Square,
    Curly,
}

/// A token, as far as a scanner looks at it.
#[derive(Clone, Copy, Debug, PartialEq, Eq)]
pub enum Mark {
    /// The word `true` or `false`.
    Truth(bool),
    /// An integer that 128 bits hold, with its sign.
    Number(i128),
    Open(Bracket),
    Close(Bracket),
    Comma,
    /// Any other token.
    Other,
}

/// A token, and the offset after it, in bytes from the start of the text.
#[derive(Clone, Copy, Debug, PartialEq, Eq)]
pub struct Found {
    pub mark: Mark,
    pub end: usize,
}

/// The token that comes next from the offset `at` on, after blanks, with the offset after it, or
/// `None` where only blanks are left. Offsets are in bytes from the start of the text, and `at`
/// must not be after its end.
#[inline(always)]
pub fn mark_at(text: &[u8], at: usize) -> Option<Found>
    requires { at ≤ length text.now }
    ensures next { result ≡ found_from (next_at text.now at) (next_lexeme text.now at) }
    ensures moves { IfSome result (λ found. at < found.end) }
    ensures within { IfSome result (λ found. found.end ≤ length text.now) }
{
    let start = skip_blanks(text, at);
    if start == text.len() {
        return None;
    }
    let (mark, len) = first_mark(&text[start..]);
    Some(Found {
        mark,
        end: start + len,
    })
}

// The token that stands first, and its length.
#[inline(always)]
fn first_mark(bytes: &[u8]) -> (Mark, usize)
    requires { 0 < length bytes.now }
    ensures first { Some result ≡ option_map sized_mark (first bytes.now) }
    ensures moves { 0 < result.1 }
    ensures within { result.1 ≤ length bytes.now }
{
    let byte = bytes[0];
    if byte.is_ascii_alphabetic() {
        let len = word_len(bytes);
        return (word_mark(&bytes[..len]), len);
    }
    if byte.is_ascii_digit() {
        let len = digits_len(bytes);
        return (number_mark(false, &bytes[..len]), len);
    }
    if byte == b'-' {
        return minus_mark(&bytes[1..]);
    }
    (sign_mark(byte), 1)
}

// The token that a minus begins, by the bytes after it, and its length with the minus.
#[inline(always)]
fn minus_mark(rest: &[u8]) -> (Mark, usize)
    requires { length rest.now < 2 ^ 63 }
    ensures first { result ≡ sized_mark (minus_lexeme (take_while is_ascii_digit rest.now)) }
    ensures moves { 0 < result.1 }
    ensures within { result.1 ≤ length rest.now + 1 }
{
    let len = digits_len(rest);
    if len == 0 {
        return (Mark::Other, 1);
    }
    (number_mark(true, &rest[..len]), len + 1)
}

// The mark of a word.
#[inline(always)]
fn word_mark(letters: &[u8]) -> Mark
    ensures { result ≡ word_mark letters.now }
{
    if letters == b"true".as_slice() {
        return Mark::Truth(true);
    }
    if letters == b"false".as_slice() {
        return Mark::Truth(false);
    }
    Mark::Other
}

/// The mark of a byte that stands for itself: a bracket or a comma, else `Other`.
#[inline(always)]
pub fn sign_mark(byte: u8) -> Mark
    ensures { result ≡ sign_mark byte }
{
    match byte {
        b'(' => Mark::Open(Bracket::Round),
        b')' => Mark::Close(Bracket::Round),
        b'[' => Mark::Open(Bracket::Square),
        b']' => Mark::Close(Bracket::Square),
        b'{' => Mark::Open(Bracket::Curly),
        b'}' => Mark::Close(Bracket::Curly),
        b',' => Mark::Comma,
        _ => Mark::Other,
    }
}

// The integer that digits write with this sign, where 128 bits hold it.
#[inline(always)]
fn number_mark(is_negative: bool, digits: &[u8]) -> Mark
    requires { AreDigits digits.now }
    ensures { result ≡ mark_of (integer (number_of is_negative digits.now)) }
{
    match signed_number(Dialect::Two, is_negative, digits) {
        Some(number) => Mark::Number(number),
        None => Mark::Other,
    }
}
