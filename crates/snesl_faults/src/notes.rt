// What is said of the values of the parts of a form at fault.

ghost use Rattle.std.specs.Prelude.{◌≡◌, ◌++◌, IfOk, OnOk, option_map};
ghost use Rattle.snesl_data.specs.Values.{value_of};
ghost use Rattle.snesl_faults.specs.Notes.{data_note, data_text, data_words, elements_text, value_text};

use itoa::Buffer;
use snesl_data::{Datum, FaultKind, text_of};
use std::alloc::{AllocError, Global};

/// What is said of a fault of this kind at a form whose parts have these values, as
/// `values_at_fault` gives them; of some nothing is. The error is that memory was refused.
pub fn note_of(
    alloc: Global,
    kind: FaultKind,
    values: &[Datum],
) -> Result<Option<Vec<u8>>, AllocError>
    ensures { IfOk result (λ found. option_map (λ made. made.items) found ≡ data_note kind values.now) }
{
    match words_of(kind, values) {
        Some((before, between)) => {
            let mut made = Vec::from_slice(alloc, before)?;
            append_values(alloc, &mut made, between, values)?;
            Ok(Some(made))
        }
        None => Ok(None),
    }
}

// What stands before the values, and between them.
fn words_of(kind: FaultKind, values: &[Datum]) -> Option<(&'static [u8], &'static [u8])>
    ensures { option_map (λ words. (words.0.now, words.1.now)) result ≡ data_words kind values.now }
{
    match (kind, values) {
        (FaultKind::Divide, [_, _]) => Some((b"the operands are ", b" and ")),
        (FaultKind::Overflow, [_, _]) => Some((b"the operands are ", b" and ")),
        (FaultKind::Overflow, [Datum::Seq(_)]) => Some((b"the sequence has ", b"")),
        (FaultKind::Overflow, [_]) => Some((b"the operand is ", b"")),
        (FaultKind::NegativeCount, [_]) => Some((b"the argument is ", b"")),
        (FaultKind::Length, [_, _, ..]) => Some((b"the sequences have ", b" and ")),
        (FaultKind::Part, [_, _]) => Some((b"the sequence has ", b" and the flags have ")),
        (FaultKind::The, [_]) => Some((b"the sequence has ", b"")),
        (FaultKind::Index, [_, _]) => Some((b"the vector has ", b" and the index is ")),
        _ => None,
    }
}

fn append_values(
    alloc: Global,
    made: &mut Vec<u8>,
    between: &[u8],
    values: &[Datum],
) -> Result<(), AllocError>
    ensures { OnOk result (made.new.items ≡ made.old.items ++ data_text between.now values.now) }
{
    match values {
        [] => Ok(()),
        [last] => append_value(alloc, made, last),
        [first, rest @ ..] => {
            append_value(alloc, made, first)?;
            made.extend_from_slice(between)?;
            append_values(alloc, made, between, rest)
        }
    }
}

fn append_value(alloc: Global, made: &mut Vec<u8>, datum: &Datum) -> Result<(), AllocError>
    ensures { OnOk result (made.new.items ≡ made.old.items ++ value_text (value_of datum.now)) }
{
    match datum {
        Datum::Vec(elements) => append_count(made, elements.len()),
        Datum::Seq(items) => append_count(made, items.len()),
        _ => {
            let shown = text_of(alloc, datum)?;
            made.extend_from_slice(&shown)
        }
    }
}

fn append_count(made: &mut Vec<u8>, count: usize) -> Result<(), AllocError>
    ensures { OnOk result (made.new.items ≡ made.old.items ++ elements_text count) }
{
    let mut buffer = Buffer::new();
    made.extend_from_slice(buffer.format(count).as_bytes())?;
    if count == 1 {
        made.extend_from_slice(b" element")
    } else {
        made.extend_from_slice(b" elements")
    }
}
