// What is said of names that are not bound, or bound twice.

ghost use Rattle.std.specs.Prelude.{◌≤◌, IfOk, length};
ghost use Rattle.snesl_advice.specs.Told.{IsAdviceAt};

use crate::habits::habit_of_name;
use crate::near::near_name;
use crate::telling::tell;
use crate::tokens::{after_blanks, length_without_blanks, quoted, stands_after};
use snesl_data::word_len;
use snesl_grammar::Program;
use snesl_look::function_at;
use std::alloc::{AllocError, Global};

/// What is said of a name that is not bound, or that is bound twice: which of the two it is, and what may help. The offset
/// counts bytes of the program from 0. The error is that memory was refused.
pub fn name_message(alloc: Global, program: &Program, at: usize) -> Result<Vec<u8>, AllocError>
    ensures { IfOk result (IsAdviceAt program.now.text.items at) }
{
    let text = program.text.as_slice();
    let within = at.min(text.len());
    let rest = &text[within..];
    let name = &rest[..word_len(rest)];
    let next = after_blanks(&rest[name.len()..]);
    if is_binding(text, within, next) {
        let sentence = quoted(alloc, b"", name, b" is bound a second time here")?;
        return tell(alloc, text, at, &sentence, &[], b"");
    }
    let (sentence, hint) = if next.starts_with(b"(") {
        let sentence = quoted(alloc, b"there is no function ", name, b" here")?;
        (sentence, hint_of_function(alloc, program, at, name)?)
    } else {
        let sentence = quoted(alloc, b"there is no value ", name, b" here")?;
        (sentence, hint_of_value(alloc, program, at, name)?)
    };
    tell(alloc, text, at, &sentence, &[], &hint)
}

// Whether the name at the offset is bound there: after `input` or `function`, as a parameter or by a binder.
fn is_binding(program: &[u8], at: usize, next: &[u8]) -> bool
    requires { at ≤ length program.now }
{
    let before = &program[..length_without_blanks(&program[..at])];
    if before.ends_with(b"(") || before.ends_with(b",") {
        return next.starts_with(b":");
    }
    if before.ends_with(b":") || before.ends_with(b";") {
        return next.starts_with(b"in") && word_len(next) == 2;
    }
    before.ends_with(b"input") || before.ends_with(b"function")
}

// What may help where a function is not bound.
fn hint_of_function(
    alloc: Global,
    program: &Program,
    at: usize,
    name: &[u8],
) -> Result<Vec<u8>, AllocError> {
    let text = program.text.as_slice();
    if let Some(around) = function_at(text, at)
        && around == name
    {
        return Vec::from_slice(alloc, b"functions do not call themselves");
    }
    if stands_after(text, b"function", name) {
        return Vec::from_slice(
            alloc,
            b"a function calls those that stand before it: declare this one earlier",
        );
    }
    if stands_after(text, b"input", name) {
        return quoted(alloc, b"", name, b" is an input, and no function");
    }
    hint_of_any(alloc, program, at, name)
}

// And where a value is not.
fn hint_of_value(
    alloc: Global,
    program: &Program,
    at: usize,
    name: &[u8],
) -> Result<Vec<u8>, AllocError> {
    let text = program.text.as_slice();
    if stands_after(text, b"function", name) {
        return Vec::from_slice(alloc, b"a function is no value: call it, as in `f(1)`");
    }
    if stands_after(text, b"input", name) && function_at(text, at).is_some() {
        return Vec::from_slice(
            alloc,
            b"a function sees its parameters and no inputs: give it one more parameter",
        );
    }
    hint_of_any(alloc, program, at, name)
}

// What others use the name for, or which name is near.
fn hint_of_any(
    alloc: Global,
    program: &Program,
    at: usize,
    name: &[u8],
) -> Result<Vec<u8>, AllocError> {
    if let Some(advice) = habit_of_name(name) {
        return Vec::from_slice(alloc, advice.as_bytes());
    }
    match near_name(alloc, program, at, name)? {
        Some(near) => quoted(alloc, b"did you mean ", &near, b"?"),
        None => Ok(Vec::new(alloc)),
    }
}
