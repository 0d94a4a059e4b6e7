// In which function a place of a program lies.

ghost use Rattle.std.specs.Prelude.{◌≡◌, ◌↔◌, ◌<◌, ◌≤◌, ◌+◌, ◌^◌, IsTrue, length};
ghost use Rattle.std.specs.List.{prefix_len};
ghost use Rattle.snesl_data.specs.Blanks.{is_blank};
ghost use Rattle.snesl_look.specs.Functions.{DeclaresFunction, after_blanks, after_word, depth_after_byte, front_word};
ghost use Rattle.snesl_look.specs.Views.{FindsDeclaration, FindsFunction, FindsName};

use snesl_data::{is_blank, word_len};

/// The first word of a function's declaration.
const FUNCTION: &[u8] = b"function";

/// The name of the function in whose declaration an offset of a program lies: a declaration ends with the first `;` that
/// stands in no bracket. `None` where the offset lies in another declaration or after all of them.
pub fn function_at(program: &[u8], offset: usize) -> Option<&[u8]>
    ensures { FindsFunction program.now offset result }
{
    match declaration_at(program, offset) {
        Some(declaration) => name_of(declaration),
        None => None,
    }
}

// The declaration in which the offset lies, without its `;`.
fn declaration_at(text: &[u8], offset: usize) -> Option<&[u8]>
    ensures { FindsDeclaration text.now offset result }
{
    let mut start = 0;
    let mut depth = 0;
    for place in 0..text.len() {
        if text[place] == b';' && depth == 0 {
            if place >= offset {
                return Some(&text[start..place]);
            }
            start = place + 1;
        }
        depth = depth_after_byte(depth, text[place]);
    }
    None
}

// How many brackets are open after a byte.
fn depth_after_byte(depth: usize, byte: u8) -> usize
    requires { depth < 2 ^ 63 }
    ensures depth { result ≡ depth_after_byte depth byte }
    ensures few { result ≤ depth + 1 }
{
    match byte {
        b'(' | b'[' | b'{' => depth + 1,
        b')' | b']' | b'}' => depth.saturating_sub(1),
        _ => depth,
    }
}

// The name in a function's declaration.
fn name_of(declaration: &[u8]) -> Option<&[u8]>
    ensures { FindsName declaration.now result }
{
    if !is_function(declaration) {
        return None;
    }
    let from_word = after_blanks(declaration);
    let behind = after_word(from_word);
    let from_name = after_blanks(behind);
    Some(front_word(from_name))
}

// Whether the declaration is that of a function.
fn is_function(declaration: &[u8]) -> bool
    ensures { IsTrue result ↔ DeclaresFunction declaration.now }
{
    let from_word = after_blanks(declaration);
    front_word(from_word) == FUNCTION
}

// The word at the front.
pub(crate) fn front_word(text: &[u8]) -> &[u8]
    ensures { result.now ≡ front_word text.now }
{
    &text[..word_len(text)]
}

// What stands after it.
fn after_word(text: &[u8]) -> &[u8]
    ensures { result.now ≡ after_word text.now }
{
    &text[word_len(text)..]
}

// What stands after the blanks at the front.
pub(crate) fn after_blanks(text: &[u8]) -> &[u8]
    ensures { result.now ≡ after_blanks text.now }
{
    &text[blanks_len(text)..]
}

// How many bytes at the front are blanks.
fn blanks_len(text: &[u8]) -> usize
    ensures count { result ≡ prefix_len is_blank text.now }
    ensures within { result ≤ length text.now }
{
    text.iter().take_while(|byte| is_blank(**byte)).count()
}
