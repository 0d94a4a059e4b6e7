// Messages: what went wrong, where, and what may help.

ghost use Rattle.std.specs.Prelude.{◌≡◌, ◌≤◌, [], None, IfOk, decimal};
ghost use Rattle.snesl_look.specs.Messages.{IsFaultMessage, IsNameMessage, IsRefusalMessage, caret_part, enough_part, function_part, gutter, hint_part, line_part, message, messages_part, near_part, notes_part, note_part, placed_message, remark, sentence_part, shown_from, shown_part, stalled_message};
ghost use Rattle.snesl_look.specs.Places.{line_of};
ghost use Rattle.snesl_look.specs.Views.{Appends, IsNoted, IsMessageAt, heading_at, lent_text, place_at, texts_of};

use crate::functions::function_at;
use crate::names::near_name;
use crate::places::{Position, caret_line, line_at, position_of, shown_line};
use crate::stalls::{Enough, STALLED_SENTENCE, stalled_hint};
use crate::words::{fault_hint, fault_sentence, refusal_hint, refusal_sentence};
use itoa::Buffer;
use snesl_data::{Fault, Refusal};
use std::alloc::{AllocError, Global};

// Of a line so many bytes are shown at most, and of a longer one so many up to the place.
const MOST_SHOWN: usize = 120;

const MOST_BEFORE: usize = 61;

// As many blanks as a number may have digits.
const BLANKS: &[u8] = b"                    ";

// What stands before the name of a function in which a fault lies, and after it.
const IN_FUNCTION: &[u8] = b" = note: this is in the function `";

const LED_HERE: &[u8] = b"`; which call of it led here is not known\n";

// What is said of the form at which a network has stalled.
const FULL: &[u8] = b"a stream that this form writes is full";

/// What is said of a refusal: a sentence; its place, in the program or in the input text, where it has one; and a hint, which
/// for a name that is not bound is the name that is meant, if one is. The error is that memory was refused.
pub fn refusal_message(
    alloc: Global,
    refusal: Refusal,
    program: &[u8],
    input: &[u8],
) -> Result<Vec<u8>, AllocError>
    ensures { IfOk result (λ message.
        IsRefusalMessage refusal program.now input.now message.items) }
{
    let sentence = refusal_sentence(refusal);
    let hint = refusal_hint(refusal);
    match refusal {
        Refusal::BadInput(at) => placed(
            alloc,
            sentence,
            input,
            at,
            " of the input text",
            None,
            hint,
        ),
        Refusal::Name(at) => name_message(alloc, at, program),
        Refusal::Lex(at) | Refusal::Syntax(at) | Refusal::Mismatch(at) | Refusal::Streamed(at) =>
            placed(alloc, sentence, program, at, "", None, hint),
        _ => unplaced(alloc, sentence, hint),
    }
}

// What is said of a name that is not bound.
fn name_message(alloc: Global, at: usize, program: &[u8]) -> Result<Vec<u8>, AllocError>
    ensures { IfOk result (λ message. IsNameMessage at program.now message.items) }
{
    let refusal = Refusal::Name(at);
    let sentence = refusal_sentence(refusal);
    match near_name(alloc, program, at)? {
        Some(name) => {
            let mut message = placed(alloc, sentence, program, at, "", None, None)?;
            append_near(&mut message, position_of(program, at).line, &name)?;
            Ok(message)
        }
        None => placed(
            alloc,
            sentence,
            program,
            at,
            "",
            None,
            refusal_hint(refusal),
        ),
    }
}

// The name that is meant.
fn append_near(message: &mut Vec<u8>, number: usize, name: &[u8]) -> Result<(), AllocError>
    ensures { Appends message.old message.new (near_part number name.now) result }
{
    append_remark(message, number, b" = hint: did you mean `", name, b"`?\n")
}

/// What is said of a fault: a sentence; its place in the program, and the function in which that lies, if it lies in one; and a
/// hint. The error is that memory was refused.
pub fn fault_message(alloc: Global, fault: Fault, program: &[u8]) -> Result<Vec<u8>, AllocError>
    ensures { IfOk result (λ message. IsFaultMessage fault program.now message.items) }
{
    let name = function_at(program, fault.at);
    let sentence = fault_sentence(fault.kind);
    placed(
        alloc,
        sentence,
        program,
        fault.at,
        "",
        name,
        fault_hint(fault.kind),
    )
}

/// What is said of a network that has stalled: a sentence; the place of the form of the program whose stream is full, where
/// its offset is given; how many messages are enough, where that is known; and else a hint. The error is that memory was
/// refused.
pub fn stalled_message(
    alloc: Global,
    program: &[u8],
    full: Option<usize>,
    enough: Enough,
) -> Result<Vec<u8>, AllocError>
    ensures { IfOk result (λ message. message.items ≡ stalled_message program.now full enough) }
{
    match full {
        Some(at) => {
            let line = position_of(program, at).line;
            let mut message = placed(alloc, STALLED_SENTENCE, program, at, "", None, None)?;
            append_remark(&mut message, line, b" = note: ", FULL, b"\n")?;
            append_enough(&mut message, line, enough)?;
            Ok(message)
        }
        None => {
            let mut message = unplaced(alloc, STALLED_SENTENCE, None)?;
            append_enough(&mut message, 0, enough)?;
            Ok(message)
        }
    }
}

// What is known of how many messages are enough, or a hint.
fn append_enough(message: &mut Vec<u8>, number: usize, enough: Enough) -> Result<(), AllocError>
    ensures { Appends message.old message.new (enough_part number enough) result }
{
    match enough {
        Enough::Messages(count) => append_messages(message, number, count),
        _ => append_hint(message, number, Some(stalled_hint(enough))),
    }
}

// How many messages are enough.
fn append_messages(message: &mut Vec<u8>, number: usize, count: usize) -> Result<(), AllocError>
    ensures { Appends message.old message.new (messages_part number count) result }
{
    append_gutter(message, number)?;
    message.extend_from_slice(b" = note: ")?;
    append_number(message, count)?;
    message.extend_from_slice(b" messages are enough, as by `--capacity ")?;
    append_number(message, count)?;
    message.extend_from_slice(b"`\n")
}

// A message with no place.
fn unplaced(alloc: Global, sentence: &str, hint: Option<&str>) -> Result<Vec<u8>, AllocError>
    ensures { IfOk result (λ made. made.items ≡ message sentence.now (lent_text hint.entry)) }
{
    let mut message = Vec::new(alloc);
    append_sentence(&mut message, sentence)?;
    append_hint(&mut message, 0, hint)?;
    Ok(message)
}

// A message with a place in a text, and the name of a function in which it lies.
fn placed(
    alloc: Global,
    sentence: &str,
    text: &[u8],
    offset: usize,
    of_text: &str,
    name: Option<&[u8]>,
    hint: Option<&str>,
) -> Result<Vec<u8>, AllocError>
    ensures { IfOk result (IsMessageAt sentence.now text.now offset of_text.now name.entry hint.entry) }
{
    let position = position_of(text, offset);
    let mut message = Vec::new(alloc);
    append_sentence(&mut message, sentence)?;
    append_heading(&mut message, position, of_text)?;
    append_place(&mut message, alloc, line_at(text, offset), position)?;
    append_function(&mut message, position.line, name)?;
    append_hint(&mut message, position.line, hint)?;
    Ok(message)
}

/// A message with a place in a text: a sentence, the line with a caret under it, some notes, and a hint, where it is not empty.
/// The offset counts bytes of the text from 0; behind the column it says of which text it is. The error is that memory was
/// refused.
pub fn noted_message(
    alloc: Global,
    sentence: &[u8],
    text: &[u8],
    offset: usize,
    of_text: &str,
    notes: &[Vec<u8>],
    hint: &[u8],
) -> Result<Vec<u8>, AllocError>
    ensures { IfOk result (IsNoted sentence.now text.now offset of_text.now notes.now hint.now) }
{
    let position = position_of(text, offset);
    let mut message = Vec::new(alloc);
    append_bytes_of_sentence(&mut message, sentence)?;
    append_heading(&mut message, position, of_text)?;
    append_place(&mut message, alloc, line_at(text, offset), position)?;
    append_notes(&mut message, position.line, notes)?;
    if !hint.is_empty() {
        append_remark(&mut message, position.line, b" = hint: ", hint, b"\n")?;
    }
    Ok(message)
}

// Some notes, each in a line.
fn append_notes(message: &mut Vec<u8>, number: usize, notes: &[Vec<u8>]) -> Result<(), AllocError>
    ensures { Appends message.old message.new (notes_part number (texts_of notes.now)) result }
{
    match notes {
        [] => Ok(()),
        [first, rest @ ..] => {
            append_remark(message, number, b" = note: ", first, b"\n")?;
            append_notes(message, number, rest)
        }
    }
}

fn append_sentence(message: &mut Vec<u8>, sentence: &str) -> Result<(), AllocError>
    ensures { Appends message.old message.new (sentence_part sentence.now) result }
{
    append_bytes_of_sentence(message, sentence.as_bytes())
}

fn append_bytes_of_sentence(message: &mut Vec<u8>, sentence: &[u8]) -> Result<(), AllocError>
    ensures { Appends message.old message.new (sentence_part sentence.now) result }
{
    message.extend_from_slice(b"error: ")?;
    message.extend_from_slice(sentence)?;
    message.extend_from_slice(b"\n")
}

// The line and the column.
fn append_heading(
    message: &mut Vec<u8>,
    position: Position,
    of_text: &str,
) -> Result<(), AllocError>
    ensures { Appends message.old message.new (heading_at position of_text.now) result }
{
    append_gutter(message, position.line)?;
    message.extend_from_slice(b"--> line ")?;
    append_number(message, position.line)?;
    message.extend_from_slice(b", column ")?;
    append_number(message, position.column)?;
    message.extend_from_slice(of_text.as_bytes())?;
    message.extend_from_slice(b"\n")
}

// The line, or a part of it, and a caret under the column.
fn append_place(
    message: &mut Vec<u8>,
    alloc: Global,
    line: &[u8],
    position: Position,
) -> Result<(), AllocError>
    ensures { Appends message.old message.new (place_at line.now position) result }
{
    let from = shown_from(line, position.column);
    let part = shown_part(line, from);
    append_line(message, alloc, position.line, part)?;
    append_caret(message, alloc, position.line, part, position.column - from)
}

// The bytes of a line, after its number.
fn append_line(
    message: &mut Vec<u8>,
    alloc: Global,
    number: usize,
    part: &[u8],
) -> Result<(), AllocError>
    ensures { Appends message.old message.new (line_part number part.now) result }
{
    let shown = shown_line(alloc, part)?;
    append_gutter(message, number)?;
    message.extend_from_slice(b" |\n")?;
    append_number(message, number)?;
    message.extend_from_slice(b" | ")?;
    message.extend_from_slice(&shown)?;
    message.extend_from_slice(b"\n")
}

// A caret under it.
fn append_caret(
    message: &mut Vec<u8>,
    alloc: Global,
    number: usize,
    part: &[u8],
    column: usize,
) -> Result<(), AllocError>
    ensures { Appends message.old message.new (caret_part number part.now column) result }
{
    let caret = caret_line(alloc, part, column)?;
    append_gutter(message, number)?;
    message.extend_from_slice(b" | ")?;
    message.extend_from_slice(&caret)?;
    message.extend_from_slice(b"\n")
}

// The function in which the place lies.
fn append_function(
    message: &mut Vec<u8>,
    number: usize,
    name: Option<&[u8]>,
) -> Result<(), AllocError>
    ensures { Appends message.old message.new (function_part number (lent_text name.entry)) result }
{
    match name {
        Some(name) => append_remark(message, number, IN_FUNCTION, name, LED_HERE),
        None => Ok(()),
    }
}

fn append_hint(message: &mut Vec<u8>, number: usize, hint: Option<&str>) -> Result<(), AllocError>
    ensures { Appends message.old message.new (hint_part number (lent_text hint.entry)) result }
{
    match hint {
        Some(hint) => append_remark(message, number, b" = hint: ", hint.as_bytes(), b"\n"),
        None => Ok(()),
    }
}

// A text after the gutter, between others.
fn append_remark(
    message: &mut Vec<u8>,
    number: usize,
    before: &[u8],
    text: &[u8],
    behind: &[u8],
) -> Result<(), AllocError>
    ensures { Appends message.old message.new (remark number before.now text.now behind.now) result }
{
    append_gutter(message, number)?;
    message.extend_from_slice(before)?;
    message.extend_from_slice(text)?;
    message.extend_from_slice(behind)
}

fn append_number(message: &mut Vec<u8>, number: usize) -> Result<(), AllocError>
    ensures { Appends message.old message.new (decimal number) result }
{
    let mut buffer = Buffer::new();
    message.extend_from_slice(buffer.format(number).as_bytes())
}

// As many blanks as the number has digits.
fn append_gutter(message: &mut Vec<u8>, number: usize) -> Result<(), AllocError>
    ensures { Appends message.old message.new (gutter number) result }
{
    let mut buffer = Buffer::new();
    let digits = buffer.format(number).len();
    message.extend_from_slice(&BLANKS[..digits])
}

// From where on a line is shown: from its beginning, unless it is long.
fn shown_from(line: &[u8], column: usize) -> usize
    ensures from { result ≡ shown_from line.now column }
    ensures within { result ≤ column }
{
    if line.len() <= MOST_SHOWN {
        0
    } else {
        column.saturating_sub(MOST_BEFORE)
    }
}

// The part of a line that is shown.
fn shown_part(line: &[u8], from: usize) -> &[u8]
    ensures { result.now ≡ shown_part line.now from }
{
    let start = from.min(line.len());
    let rest = &line[start..];
    let shown = MOST_SHOWN.min(rest.len());
    &rest[..shown]
}
