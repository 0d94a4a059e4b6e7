// What is said of an input text that is not as the program declares its inputs.

ghost use Rattle.std.specs.Prelude.{◌≤◌, IfOk, length};
ghost use Rattle.snesl_advice.specs.Told.{IsAdviceOnInput};

use crate::telling::tell_of_input;
use crate::tokens::{
    after_blanks, begins_word, has_text, length_without_blanks, names_dialect, quoted, token_at,
};
use snesl_data::word_len;
use std::alloc::{AllocError, Global};

// As many inputs are told where the text ends too early.
const MOST_TOLD: usize = 4;

// As many digits have integers that may be too great.
const MANY_DIGITS: usize = 19;

/// What is said of an input text that is not as the program declares its inputs: which input is declared where it goes wrong, and
/// what may help. The offset counts bytes of the input text from 0. The error is that memory was refused.
pub fn input_message(
    alloc: Global,
    program: &[u8],
    input: &[u8],
    at: usize,
) -> Result<Vec<u8>, AllocError>
    ensures { IfOk result (IsAdviceOnInput input.now at) }
{
    let within = at.min(input.len());
    let number = semicolons(&input[..within]);
    if within == input.len() {
        return end_message(alloc, program, input, at, number);
    }
    match declaration(program, number) {
        Some(declared) => {
            let note = quoted(alloc, b"the program declares ", declared, b"")?;
            let hint = hint_of(program, input, within, declared).as_bytes();
            let notes = [note];
            let sentence = b"this does not fit the input that is declared";
            tell_of_input(alloc, input, at, sentence, &notes, hint)
        }
        None => {
            let sentence: &[u8] = if number == 0 {
                b"the program declares no inputs"
            } else {
                b"the program declares no further input"
            };
            tell_of_input(alloc, input, at, sentence, &[], b"")
        }
    }
}

// Where it ends too early: the inputs that are declared from this one on.
fn end_message(
    alloc: Global,
    program: &[u8],
    input: &[u8],
    at: usize,
    number: usize,
) -> Result<Vec<u8>, AllocError>
    ensures { IfOk result (IsAdviceOnInput input.now at) }
{
    let mut notes = Vec::new(alloc);
    for further in 0..MOST_TOLD {
        if let Some(declared) = declaration(program, number.saturating_add(further)) {
            notes.push(quoted(alloc, b"the program declares ", declared, b"")?)?;
        }
    }
    let hint: &[u8] = if after_blanks(input).is_empty() {
        b"the input text stands after a line `---`, as `n = 1; v = [1,2]`"
    } else {
        b""
    };
    let sentence = b"the input text ends too early";
    tell_of_input(alloc, input, at, sentence, &notes, hint)
}

// What may help where it goes wrong within an input that is so declared.
fn hint_of(program: &[u8], input: &[u8], at: usize, declared: &[u8]) -> &'static str
    requires { at ≤ length input.now }
{
    let before = &input[..length_without_blanks(&input[..at])];
    let found = token_at(input, at);
    if before.is_empty() || before.ends_with(b";") {
        return "inputs stand in the order of their declarations, each with its name, as `n = 1; v = [1,2]`";
    }
    if found == b".".as_slice() {
        return "there are no fractions";
    }
    if !ends_before_value(before) {
        return "inputs are parted by `;`, and what stands in brackets by `,`";
    }
    match found {
        b"{" if !has_text(declared, b"{") => "a vector is written `[1,2]`",
        b"[" if !has_text(declared, b"[") => "a sequence is written `{1,2}`",
        [b'0'..=b'9', ..] if word_len(&input[at..]) >= MANY_DIGITS && !names_dialect(program) =>
            "a program that begins with `dialect 2;` has integers of 128 bits",
        [b'0'..=b'9', ..] if has_text(declared, b"bool") =>
            "truth values are written `true` and `false`",
        _ => "",
    }
}

// Whether a value stands after this.
fn ends_before_value(text: &[u8]) -> bool {
    match text {
        [.., b'=' | b',' | b'(' | b'[' | b'{' | b'-'] => true,
        _ => false,
    }
}

// How many `;` there are: each ends an input.
fn semicolons(text: &[u8]) -> usize {
    text.iter().filter(|byte| **byte == b';').count()
}

// The declaration of an input, by its number from 0 on, without its `;`: no other declaration has the word.
fn declaration(program: &[u8], number: usize) -> Option<&[u8]> {
    let mut left = number;
    for place in 0..program.len() {
        if begins_word(program, place) {
            let rest = &program[place..];
            if &rest[..word_len(rest)] == b"input".as_slice() {
                if left == 0 {
                    let long = rest.iter().take_while(|byte| **byte != b';').count();
                    return Some(&rest[..long.min(rest.len())]);
                }
                left -= 1;
            }
        }
    }
    None
}
