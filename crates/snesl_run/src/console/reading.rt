// Reading a job piece by piece.

ghost use Rattle.std.specs.Prelude.{◌≡◌, ◌<◌, ◌≤◌, length, IfOk};
ghost use Rattle.snesl_run.specs.console.Streams.{read_effect};
ghost use Rattle.snesl_run.specs.console.Reads.{ReadsMore, ReadsInput};

use crate::console::job::JobError;
use snesl_data::Counted;
use std::alloc::{AllocError, Global};
use std::io::Read;

/// The greatest length of an input text, in bytes.
const LONGEST_INPUT: usize = 16_777_216;

/// Of so many bytes is a read, at most.
const PIECE: usize = 65_536;

// Room for a read.
pub(crate) fn new_piece(alloc: Global) -> Result<Vec<u8>, AllocError>
    ensures { IfOk result (λ piece. length piece.items ≡ 65536) }
{
    vec![in alloc; 0; PIECE]
}

// One call of the reader, for no more bytes than there is room for; returns how many it gave. A call that fails is not tried
// again, an interrupted one either.
pub(crate) fn read_more<R: Read>(
    job: &mut Counted<R>,
    piece: &mut [u8],
    room: usize,
    bytes: &mut Vec<u8>,
) -> Result<usize, JobError>
    requires piece { 0 < length piece.old }
    requires room { 0 < room }
    ensures { ReadsMore (read_effect R.remaining job.old job.new) room bytes.old bytes.new result }
{
    let room = room.min(piece.len());
    let Ok(n) = job.read(&mut piece[..room]) else {
        return Err(JobError::Read);
    };
    bytes.extend_from_slice(&piece[..n])?;
    Ok(n)
}

// Reads on in an input text until it ends or is too long.
pub(crate) fn read_input<R: Read>(
    job: &mut Counted<R>,
    piece: &mut [u8],
    text: &mut Vec<u8>,
) -> Result<(), JobError>
    requires piece { 0 < length piece.old }
    requires short { length text.old.items ≤ 16777217 }
    ensures { ReadsInput (read_effect R.remaining job.old job.new) text.old text.new result }
{
    while text.len() <= LONGEST_INPUT {
        let room = LONGEST_INPUT + 1 - text.len();
        if read_more(job, piece, room, text)? == 0 {
            break;
        }
    }
    Ok(())
}
