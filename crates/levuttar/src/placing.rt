// Places in files, as editors read them.

use crate::reading::Job;
use crate::voice::Voice;
use snesl_data::Refusal;
use snesl_look::findings::place_of;
use snesl_look::{Position, position_of};
use std::alloc::{AllocError, Global};
use std::io::Write;

// Says before a message where in its file a refusal has its place, as `marks.snesl:2:6: `. Its offset is that of the message's caret.
pub(crate) fn say_place_of_refusal<E: Write>(
    alloc: Global,
    refusal: Refusal,
    job: &Job<'_>,
    err: &mut Voice<'_, E>,
) -> Result<(), AllocError> {
    match place_of(refusal, &job.program, &job.input) {
        Some(position) => say_place(alloc, job, position, err),
        None => Ok(()),
    }
}

// Says it of an offset in the program.
pub(crate) fn say_place_in_program<E: Write>(
    alloc: Global,
    job: &Job<'_>,
    at: usize,
    err: &mut Voice<'_, E>,
) -> Result<(), AllocError> {
    say_place(alloc, job, position_of(&job.program, at), err)
}

// Says a place, where the job came from a file.
fn say_place<E: Write>(
    alloc: Global,
    job: &Job<'_>,
    position: Position,
    err: &mut Voice<'_, E>,
) -> Result<(), AllocError> {
    if let Some(file) = job.file {
        let Position { line, column } = position;
        let place = format!(in alloc; "{file}:{line}:{column}: ")?;
        let _ = err.say(place.as_bytes());
    }
    Ok(())
}
