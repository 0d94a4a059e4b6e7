// Single tokens of an input text.

ghost use Rattle.std.specs.Prelude.{◌≡◌, ◌<◌, suc, ◌≤◌, length, IsTrue, IfSome, IfNone, Some, true, false};
ghost use Rattle.std.specs.List.{prefix_len};
ghost use Rattle.snesl_data.specs.Blanks.{is_blank};
ghost use Rattle.snesl_data.specs.Characters.{value_from};
ghost use Rattle.snesl_data.specs.declared.dialect.Dialect.TheVariants.{Two};
ghost use Rattle.snesl_data.specs.Integers.{greatest_integer};
ghost use Rattle.snesl_values.specs.InputTokens.{AreDigits, digits_at, number_of, integer_in, magnitude_of, IsNumber, WritesInteger};
ghost use Rattle.snesl_values.specs.InputTokens.{word, sign, is_sign, next_at, next_token, signed, IsNextToken, IsNextInteger, IsNoInteger};

use snesl_data::{Dialect, digits_len, is_blank, word_len};

// The greatest number that may stand after a minus, in the wider dialect.
const GREATEST_MAGNITUDE: u128 = 1 << 127;

// How many bytes at the front are blanks.
#[inline(always)]
fn blanks_len(text: &[u8]) -> usize
    ensures count { result ≡ prefix_len is_blank text.now }
    ensures within { result ≤ length text.now }
{
    text.iter().take_while(|b| is_blank(**b)).count()
}

// The offset of the first byte from here on that is no blank, or the text's length.
#[inline(always)]
pub fn skip_blanks(text: &[u8], at: usize) -> usize
    requires { at ≤ length text.now }
    ensures offset { result ≡ next_at text.now at }
    ensures from { at ≤ result }
    ensures within { result ≤ length text.now }
{
    at + blanks_len(&text[at..])
}

// The offset after the next token, where that is the sign of this byte.
#[inline(always)]
pub fn after_sign(text: &[u8], at: usize, byte: u8) -> Option<usize>
    requires within { at ≤ length text.now }
    requires lawful { IsTrue (is_sign byte) }
    ensures taken { IfSome result (IsNextToken text.now at (sign byte)) }
    ensures another { IfNone result (¬ (next_token text.now at ≡ Some (sign byte))) }
{
    let start = skip_blanks(text, at);
    if start < text.len() && text[start] == byte {
        Some(start + 1)
    } else {
        None
    }
}

// The offset after the next token, where that is this word.
pub fn after_word(text: &[u8], at: usize, expected: &[u8]) -> Option<usize>
    requires { at ≤ length text.now }
    ensures taken { IfSome result (IsNextToken text.now at (word expected.now)) }
    ensures another { IfNone result (¬ (next_token text.now at ≡ Some (word expected.now))) }
{
    let start = skip_blanks(text, at);
    if start == text.len() || !text[start].is_ascii_alphabetic() {
        return None;
    }
    let end = start + word_len(&text[start..]);
    if &text[start..end] == expected {
        Some(end)
    } else {
        None
    }
}

// The next token, where that is an integer of the dialect, and the offset after it.
#[inline(always)]
pub fn integer_at(dialect: Dialect, text: &[u8], at: usize) -> Option<(i128, usize)>
    requires { at ≤ length text.now }
    ensures taken { IfSome result (IsNextInteger dialect text.now at) }
    ensures another { IfNone result (IsNoInteger dialect text.now at) }
{
    let start = skip_blanks(text, at);
    if start < text.len() && text[start] == b'-' {
        number_at(dialect, text, start + 1, true)
    } else {
        number_at(dialect, text, start, false)
    }
}

// The integer of this sign that the digits from here on write, and the offset after them.
#[inline(always)]
fn number_at(dialect: Dialect, text: &[u8], from: usize, is_negative: bool) -> Option<(i128, usize)>
    requires { from ≤ length text.now }
    ensures taken { IfSome result (IsNumber dialect text.now from is_negative) }
    ensures another { IfNone result
        (¬ WritesInteger dialect is_negative (digits_at text.now from)) }
{
    let len = digits_len(&text[from..]);
    if len == 0 {
        return None;
    }
    let end = from + len;
    match signed_number(dialect, is_negative, &text[from..end]) {
        Some(n) => Some((n, end)),
        None => None,
    }
}

// The integer that digits write with this sign, where it is in the range of the dialect.
#[inline(always)]
pub fn signed_number(dialect: Dialect, is_negative: bool, digits: &[u8]) -> Option<i128>
    requires { AreDigits digits.now }
    ensures { result ≡ integer_in dialect (number_of is_negative digits.now) }
{
    let number = signed(is_negative, magnitude(digits)?)?;
    if dialect.has(number) {
        Some(number)
    } else {
        None
    }
}

// The number that digits write, where it is not over the greatest magnitude.
#[inline(always)]
fn magnitude(digits: &[u8]) -> Option<u128>
    requires { AreDigits digits.now }
    ensures { result ≡ magnitude_of (value_from 0 digits.now) }
{
    let mut value = 0u64;
    for (at, c) in digits.iter().enumerate() {
        // Most numbers are small, and 64 bits are faster.
        if value >= u64::MAX / 10 {
            return wide_magnitude(u128::from(value), &digits[at..]);
        }
        value = 10 * value + u64::from(*c - b'0');
    }
    Some(u128::from(value))
}

// The number that this one and the digits after it write, where it is not over the greatest
// magnitude.
fn wide_magnitude(number: u128, digits: &[u8]) -> Option<u128>
    requires within { number ≤ suc (greatest_integer Two) }
    requires digits { AreDigits digits.now }
    ensures { result ≡ magnitude_of (value_from number digits.now) }
{
    let mut value = number;
    for c in digits {
        let digit = u128::from(*c - b'0');
        // A test against a constant: a division for each digit would take most of the time.
        if value > GREATEST_MAGNITUDE / 10 {
            return None;
        }
        value = 10 * value + digit;
        if value > GREATEST_MAGNITUDE {
            return None;
        }
    }
    Some(value)
}

// The integer of this sign and magnitude, where it is in the range of the wider dialect.
#[inline(always)]
fn signed(is_negative: bool, number: u128) -> Option<i128>
    requires { number ≤ suc (greatest_integer Two) }
    ensures { result ≡ integer_in Two (signed is_negative number) }
{
    if !is_negative {
        return if number <= i128::MAX as u128 {
            Some(number as i128)
        } else {
            None
        };
    }
    if number == 0 {
        return Some(0);
    }
    Some(-1 - (number - 1) as i128)
}
