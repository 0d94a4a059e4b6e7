// The words and signs of a program.

ghost use Rattle.std.specs.Prelude.{◌≡◌, ◌≤◌, IfOk, length};
ghost use Rattle.snesl_advice.specs.Told.{in_quotes, length_without_blanks};

use snesl_data::{is_blank, word_len};
use std::alloc::{AllocError, Global};

/// The words that no name may be, but for the built-in functions, between blanks.
pub(crate) const KEYWORDS: &[u8] =
    b" input function let in if then else true false not and or int bool dialect ";

/// The built-in functions, between blanks.
pub(crate) const BUILT_INS: &[u8] =
    b" iota scan_add reduce_add reduce_max reduce_and reduce_or length concat part the tab seq fst snd ";

// The token at a place, or nothing where the text ends.
pub(crate) fn token_at(program: &[u8], at: usize) -> &[u8]
    requires { at ≤ length program.now }
{
    let rest = &program[at..];
    let word = word_len(rest);
    if word > 0 {
        return &rest[..word];
    }
    if rest.starts_with(b"==") || rest.starts_with(b"<=") {
        return &rest[..2];
    }
    if rest.starts_with(b">=") || rest.starts_with(b"++") {
        return &rest[..2];
    }
    &rest[..rest.len().min(1)]
}

// What stands after the blanks at the front.
pub(crate) fn after_blanks(text: &[u8]) -> &[u8] {
    let blanks = text.iter().take_while(|byte| is_blank(**byte)).count();
    &text[blanks.min(text.len())..]
}

// The length of what stands before the blanks at the end.
pub(crate) fn length_without_blanks(text: &[u8]) -> usize
    ensures is { result ≡ length_without_blanks text.now (length text.now) }
    ensures within { result ≤ length text.now }
{
    let mut end = 0;
    for place in 0..text.len() {
        if !is_blank(text[place]) {
            end = place + 1;
        }
    }
    end
}

// A text between quotes, and others around it.
pub(crate) fn quoted(
    alloc: Global,
    before: &[u8],
    text: &[u8],
    after: &[u8],
) -> Result<Vec<u8>, AllocError>
    ensures { IfOk result (λ made. made.items ≡ in_quotes before.now text.now after.now) }
{
    let mut made = Vec::new(alloc);
    made.extend_from_slice(before)?;
    made.extend_from_slice(b"`")?;
    made.extend_from_slice(text)?;
    made.extend_from_slice(b"`")?;
    made.extend_from_slice(after)?;
    Ok(made)
}

// Whether a word stands among others between blanks.
pub(crate) fn is_among(word: &[u8], words: &[u8]) -> bool {
    if word.is_empty() {
        return false;
    }
    for place in 0..words.len() {
        let rest = &words[place..];
        if rest[0] == b' '
            && rest[1..].starts_with(word)
            && after(&rest[1..], word.len()).starts_with(b" ")
        {
            return true;
        }
    }
    false
}

// What stands after so many bytes of a text.
fn after(text: &[u8], count: usize) -> &[u8] {
    &text[count.min(text.len())..]
}

// Whether a name stands in the program right after a word: `function f`, say.
pub(crate) fn stands_after(program: &[u8], word: &[u8], name: &[u8]) -> bool {
    for place in 0..program.len() {
        if begins_word(program, place) {
            let rest = &program[place..];
            let first = word_len(rest);
            if &rest[..first] == word {
                let next = after_blanks(&rest[first..]);
                if &next[..word_len(next)] == name {
                    return true;
                }
            }
        }
    }
    false
}

// Whether a word stands in the program.
pub(crate) fn stands_in(program: &[u8], word: &[u8]) -> bool {
    for place in 0..program.len() {
        if begins_word(program, place) {
            let rest = &program[place..];
            if &rest[..word_len(rest)] == word {
                return true;
            }
        }
    }
    false
}

// Whether a program begins by naming its dialect.
pub(crate) fn names_dialect(program: &[u8]) -> bool {
    let front = after_blanks(program);
    &front[..word_len(front)] == b"dialect".as_slice()
}

// Whether a text stands in another.
pub(crate) fn has_text(text: &[u8], part: &[u8]) -> bool {
    for place in 0..text.len() {
        if text[place..].starts_with(part) {
            return true;
        }
    }
    false
}

// The last word of a text, and what stands after it.
pub(crate) fn last_word(text: &[u8]) -> &[u8] {
    let mut start = text.len();
    for place in 0..text.len() {
        if begins_word(text, place) {
            start = place;
        }
    }
    &text[start.min(text.len())..]
}

// Whether a word begins at a place.
pub(crate) fn begins_word(program: &[u8], place: usize) -> bool
    requires { place ≤ length program.now }
{
    word_len(&program[place..]) > 0 && (place == 0 || word_len(&program[place - 1..]) == 0)
}
