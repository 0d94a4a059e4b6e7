// The parts of a job.

ghost use Rattle.std.specs.Prelude.{◌≡◌, ◌<◌, length};
ghost use Rattle.snesl_run.specs.declared.console.job.JobError.TheVariants.{NoMemory};
ghost use Rattle.snesl_run.specs.console.Job.{HaveOneJob, HaveSomeJob};
ghost use Rattle.snesl_run.specs.console.Streams.{read_effect};
ghost use Rattle.snesl_run.specs.console.Reads.{HasSplit};

use crate::console::beginning::{Beginning, LONGEST_PROGRAM, look, parts_at_end};
use crate::console::reading::{new_piece, read_input, read_more};
use snesl_data::{Counted, Refusal};
use std::alloc::{AllocError, Global};
use std::io::Read;
use thiserror::Error;

/// Why a job was not split.
#[derive(Clone, Copy, Debug, PartialEq, Eq, Error)]
pub enum JobError {
    /// A call of the reader failed.
    #[error("the job could not be read")]
    Read,
    /// Memory was refused.
    #[error("out of memory")]
    NoMemory,
}

impl From<AllocError> for JobError {
    ghost from_gives = { λ _ error. error ≡ NoMemory };

    fn from(_: AllocError) -> Self {
        JobError::NoMemory
    }
}

impl From<JobError> for Refusal {
    ghost use Rattle.snesl_run.specs.console.Reads.{refusal_of};

    ghost from_gives = { λ error refusal. refusal ≡ refusal_of error };

    fn from(error: JobError) -> Self {
        match error {
            JobError::Read => Refusal::Read,
            JobError::NoMemory => Refusal::NoMemory,
        }
    }
}

/// The program and the input text of the job that a reader gives.
///
/// The program is all that stands before the first line `---`, ended by a line feed, by carriage return and line feed, or by
/// the end. The input text is what follows that line. Without such a line all of the job is the program.
///
/// The program is cut to its first 65,537 bytes, and the input text to its first 16,777,217: no later byte changes what
/// they mean. A program that is cut has no input text here, since it is refused whatever that is. No byte is read that does
/// not decide these parts.
///
/// # Errors
///
/// - `Read`: a call of the reader failed. It was not tried again, and the bytes before it do not decide the parts.
/// - `NoMemory`: memory was refused. No call of the reader failed.
pub fn split_job<R: Read>(
    alloc: Global,
    job: &mut Counted<R>,
) -> Result<(Vec<u8>, Vec<u8>), JobError>
    ensures { HasSplit (read_effect R.remaining job.old job.new) result }
{
    let mut piece = new_piece(alloc)?;
    split_by_pieces(alloc, job, &mut piece)
}

// The same, with room for a read.
fn split_by_pieces<R: Read>(
    alloc: Global,
    job: &mut Counted<R>,
    piece: &mut [u8],
) -> Result<(Vec<u8>, Vec<u8>), JobError>
    requires { 0 < length piece.old }
    ensures { HasSplit (read_effect R.remaining job.old job.new) result }
{
    let mut bytes = Vec::new(alloc);
    let mut line = 0;
    let mut seen = 0;
    loop {
        match look(&bytes, line, seen) {
            Beginning::Parted { program, input } => {
                let mut text = Vec::from_slice(alloc, &bytes[input..])?;
                read_input(job, piece, &mut text)?;
                bytes.truncate(program);
                return Ok((bytes, text));
            }
            Beginning::TooLong => {
                bytes.truncate(LONGEST_PROGRAM + 1);
                return Ok((bytes, Vec::new(alloc)));
            }
            Beginning::Open { line: last } => line = last,
        }
        seen = bytes.len();
        let room = LONGEST_PROGRAM.saturating_sub(seen) + 1;
        if read_more(job, piece, room, &mut bytes)? == 0 {
            return Ok(parts_at_end(alloc, bytes, line));
        }
    }
}

/// A law and no code to run: a job has a program and an input text, and no others.
pub fn one_job()
    ensures one { HaveOneJob }
    ensures some { HaveSomeJob }
{}
