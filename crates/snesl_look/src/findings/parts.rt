// The parts of a message.

ghost use Rattle.std.specs.Prelude.{◌≡◌, option_map};
ghost use Rattle.snesl_look.specs.findings.Parts.{behind, hint_of, last_line, sentence_of};

use crate::functions::after_blanks;
use crate::line_at;

// What stands before the sentence, and before the hint.
const ERROR: &[u8] = b"error: ";

const HINT: &[u8] = b"= hint: ";

// What stands behind a word at the front of a text.
fn behind<'a>(word: &[u8], text: &'a [u8]) -> Option<&'a [u8]>
    ensures { option_map (λ rest. rest.now) result ≡ behind word.now text.now }
{
    if text.starts_with(word) {
        Some(&text[word.len()..])
    } else {
        None
    }
}

// The last line of a text that ends with a line feed.
fn last_line(text: &[u8]) -> &[u8]
    ensures { result.now ≡ last_line text.now }
{
    line_at(text, text.len().saturating_sub(1))
}

/// The sentence of a message: its first line, without `error: `.
pub fn sentence_of(message: &[u8]) -> &[u8]
    ensures { result.now ≡ sentence_of message.now }
{
    let line = line_at(message, 0);
    match behind(ERROR, line) {
        Some(sentence) => sentence,
        None => line,
    }
}

/// The hint of a message, where it has one: its last line, behind `= hint: `.
pub fn hint_of(message: &[u8]) -> Option<&[u8]>
    ensures { option_map (λ hint. hint.now) result ≡ hint_of message.now }
{
    behind(HINT, after_blanks(last_line(message)))
}
