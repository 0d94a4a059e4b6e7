// What is said of a fault.

ghost use Rattle.std.specs.Prelude.{IfOk};
ghost use Rattle.snesl_advice.specs.Told.{IsAdviceAt};

use crate::telling::tell;
use crate::tokens::quoted;
use snesl_data::Fault;
use snesl_look::{fault_hint, fault_sentence, function_at};
use std::alloc::{AllocError, Global};

/// What is said of a fault of which there is something to note: a sentence, the note, the function in which its place lies, if it
/// lies in one, and a hint. The error is that memory was refused.
pub fn noted_fault_message(
    alloc: Global,
    fault: Fault,
    program: &[u8],
    note: Vec<u8>,
) -> Result<Vec<u8>, AllocError>
    ensures { IfOk result (IsAdviceAt program.now fault.at) }
{
    let mut notes = Vec::new(alloc);
    notes.push(note)?;
    if let Some(name) = function_at(program, fault.at) {
        let behind = b"; which call of it led here is not known";
        notes.push(quoted(alloc, b"this is in the function ", name, behind)?)?;
    }
    let sentence = fault_sentence(fault.kind);
    let hint = fault_hint(fault.kind).unwrap_or("");
    tell(
        alloc,
        program,
        fault.at,
        sentence.as_bytes(),
        &notes,
        hint.as_bytes(),
    )
}
