// What is said on standard error.

use crate::placing::{say_place_in_program, say_place_of_refusal};
use crate::reading::Job;
use crate::voice::Voice;
use clap::Error;
use clap::error::ErrorKind;
use snesl_advice::{advice_on, noted_fault_message};
use snesl_data::{Counted, Fault, Refusal};
use snesl_faults::{note_of, values_at_fault};
use snesl_look::{fault_message, refusal_sentence};
use snesl_run::console::send;
use snesl_syntax::parse;
use snesl_types::check;
use snesl_values::read_inputs;
use std::alloc::{AllocError, Global};
use std::io::Write;

// Says a message, where that can be written, and gives the exit status: this one, unless memory was refused to the message.
pub(crate) fn say<E: Write>(
    message: Result<Vec<u8>, AllocError>,
    status: u8,
    err: &mut Voice<'_, E>,
) -> u8 {
    match message {
        Ok(message) => {
            let _ = err.say(&message);
            status
        }
        Err(AllocError) => say_plainly(Refusal::NoMemory, err),
    }
}

// Prints a text, unless memory was refused to it, and gives the exit status: this one, where nothing went wrong.
pub(crate) fn print<W: Write, E: Write>(
    text: Result<Vec<u8>, AllocError>,
    status: u8,
    out: &mut Counted<W>,
    err: &mut Voice<'_, E>,
) -> u8 {
    match text {
        Ok(text) if send(out, &text) => status,
        Ok(_) => say_plainly(Refusal::Output, err),
        Err(AllocError) => say_plainly(Refusal::NoMemory, err),
    }
}

// Says a refusal by its sentence alone, for which no memory is taken, and gives its exit status.
pub(crate) fn say_plainly<E: Write>(refusal: Refusal, err: &mut Voice<'_, E>) -> u8 {
    let sentence = refusal_sentence(refusal);
    let _ = err.say(b"error: ") && err.say(sentence.as_bytes()) && err.say(b"\n");
    refusal.status()
}

// Says why a job is refused, and gives the exit status.
pub(crate) fn say_refused<E: Write>(
    alloc: Global,
    refusal: Refusal,
    job: &Job<'_>,
    err: &mut Voice<'_, E>,
) -> u8 {
    let advice = match advice_on(alloc, refusal, &job.program, &job.input) {
        Ok(advice) => advice,
        Err(AllocError) => return say_plainly(Refusal::NoMemory, err),
    };
    if say_place_of_refusal(alloc, advice.shown, job, err).is_err() {
        return say_plainly(Refusal::NoMemory, err);
    }
    say(Ok(advice.message), refusal.status(), err)
}

// Of a longer input text no values are told, for which the program is evaluated anew.
const MOST_INPUT: usize = 65_536;

// What is said of the values at a fault, where evaluation comes to it first, and soon.
fn note_of_fault(alloc: Global, fault: Fault, job: &Job<'_>) -> Option<Vec<u8>> {
    if job.input.len() > MOST_INPUT {
        return None;
    }
    if let Ok(parsed) = parse(alloc, &job.program)
        && let Ok(typed) = check(alloc, &parsed)
        && let Ok(inputs) = read_inputs(typed.dialect(), alloc, typed.decls(), &job.input)
        && let Some(values) = values_at_fault(alloc, &parsed, &inputs, fault)
        && let Ok(note) = note_of(alloc, fault.kind, &values)
    {
        return note;
    }
    None
}

// Says in which fault a program ends, and gives the exit status.
pub(crate) fn say_fault<E: Write>(
    alloc: Global,
    fault: Fault,
    job: &Job<'_>,
    err: &mut Voice<'_, E>,
) -> u8 {
    if say_place_in_program(alloc, job, fault.at, err).is_err() {
        return say_plainly(Refusal::NoMemory, err);
    }
    let message = match note_of_fault(alloc, fault, job) {
        Some(note) => noted_fault_message(alloc, fault, &job.program, note),
        None => fault_message(alloc, fault, &job.program),
    };
    say(message, 2, err)
}

// What is said of a file: what it could not be.
pub(crate) fn file_message(alloc: Global, path: &str, what: &[u8]) -> Result<Vec<u8>, AllocError> {
    let mut message = Vec::from_slice(alloc, b"error: the file `")?;
    message.extend_from_slice(path.as_bytes())?;
    message.extend_from_slice(b"` ")?;
    message.extend_from_slice(what)?;
    message.extend_from_slice(b"\n")?;
    Ok(message)
}

// Says what clap has found: the help that was asked for, which goes to standard output, or what is wrong with the words.
pub(crate) fn say_words<W: Write, E: Write>(
    alloc: Global,
    error: &Error,
    out: &mut Counted<W>,
    err: &mut Voice<'_, E>,
) -> u8 {
    let text = match format!(in alloc; "{error}") {
        Ok(text) => text,
        Err(_) => return say_plainly(Refusal::NoMemory, err),
    };
    if error.use_stderr() {
        let _ = err.say(text.as_bytes());
        match error.kind() {
            ErrorKind::OutOfMemory => Refusal::NoMemory.status(),
            _ => Refusal::BadConfig.status(),
        }
    } else if send(out, text.as_bytes()) {
        0
    } else {
        say_plainly(Refusal::Output, err)
    }
}
