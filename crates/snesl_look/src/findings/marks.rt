// How far what a message stands at goes.

ghost use Rattle.std.specs.Prelude.{◌≡◌, ◌≤◌, drop, length};
ghost use Rattle.std.specs.List.{prefix_len};
ghost use Rattle.snesl_look.specs.findings.Marks.{continues, mark_len, is_long_sign, later_len, sign_len};

use snesl_data::{is_blank, word_len};

// Whether a sign of two bytes begins with the one and ends with the other.
fn is_long_sign(first: u8, second: u8) -> bool
    ensures { result ≡ is_long_sign first second }
{
    matches!(
        (first, second),
        (b'=', b'=') | (b'<', b'=') | (b'>', b'=') | (b'+', b'+')
    )
}

// Whether a byte is a later one of a character of several.
fn continues(byte: u8) -> bool
    ensures { result ≡ continues byte }
{
    matches!(byte, 0x80..=0xbf)
}

// How many bytes at the front go on with a character.
fn later_len(text: &[u8]) -> usize
    ensures count { result ≡ prefix_len continues text.now }
    ensures within { result ≤ length text.now }
{
    text.iter().take_while(|byte| continues(**byte)).count()
}

// How many bytes the sign or the character at the front of a text has that no word begins.
fn sign_len(text: &[u8]) -> usize
    ensures count { result ≡ sign_len text.now }
    ensures within { result ≤ length text.now }
{
    match text {
        [] => 0,
        [first, ..] if is_blank(*first) => 0,
        [first, second, ..] if is_long_sign(*first, *second) => 2,
        [_, rest @ ..] => later_len(rest) + 1,
    }
}

/// How many bytes of a text the word, the sign or the character has that stands at an offset: none at a blank, and where the text
/// ends. A word is of letters, digits and `_`.
pub fn mark_len(text: &[u8], offset: usize) -> usize
    ensures count { result ≡ mark_len (drop offset text.now) }
    ensures within { result ≤ length text.now }
{
    let rest = &text[offset.min(text.len())..];
    let word = word_len(rest);
    if word > 0 { word } else { sign_len(rest) }
}
