// What is told at a place of a text.

ghost use Rattle.std.specs.Prelude.{IfOk};
ghost use Rattle.snesl_advice.specs.Told.{IsAdviceAt, IsAdviceOnInput, IsToldOf};

use snesl_look::noted_message;
use std::alloc::{AllocError, Global};

// A sentence, some notes, and a hint, where it is not empty, at a place of a program.
pub(crate) fn tell(
    alloc: Global,
    program: &[u8],
    place: usize,
    sentence: &[u8],
    notes: &[Vec<u8>],
    hint: &[u8],
) -> Result<Vec<u8>, AllocError>
    ensures { IfOk result (IsAdviceAt program.now place) }
{
    tell_of(alloc, program, place, "", sentence, notes, hint)
}

// The same at a place of an input text.
pub(crate) fn tell_of_input(
    alloc: Global,
    input: &[u8],
    place: usize,
    sentence: &[u8],
    notes: &[Vec<u8>],
    hint: &[u8],
) -> Result<Vec<u8>, AllocError>
    ensures { IfOk result (IsAdviceOnInput input.now place) }
{
    tell_of(
        alloc,
        input,
        place,
        " of the input text",
        sentence,
        notes,
        hint,
    )
}

// And at one of a text of which it says which it is.
fn tell_of(
    alloc: Global,
    text: &[u8],
    place: usize,
    of_text: &str,
    sentence: &[u8],
    notes: &[Vec<u8>],
    hint: &[u8],
) -> Result<Vec<u8>, AllocError>
    ensures { IfOk result (λ message. IsToldOf of_text.now text.now place message.items) }
{
    noted_message(alloc, sentence, text, place, of_text, notes, hint)
}
