// What is said where a sequence stands and only a value in memory may stand.

ghost use Rattle.std.specs.Prelude.{IfOk};
ghost use Rattle.snesl_advice.specs.Told.{IsAdviceAt};

use crate::telling::tell;
use crate::tokens::{quoted, token_at};
use std::alloc::{AllocError, Global};

const TAKE_THE_VECTOR: &[u8] =
    b"bind its vector before, and take the vector's sequence there: `let v = tab(s) in {length(seq(v)) : x in iota(2)}`";

/// What is said where a sequence stands and only a value in memory may stand: of a vector that it would hold sequences, and of a
/// name that it is bound outside of the comprehension. The offset counts bytes of the program from 0. The error is that memory was
/// refused.
pub fn streamed_message(alloc: Global, program: &[u8], at: usize) -> Result<Vec<u8>, AllocError>
    ensures { IfOk result (IsAdviceAt program.now at) }
{
    let found = token_at(program, at.min(program.len()));
    match found {
        b"tab" => tell(
            alloc,
            program,
            at,
            b"the elements of a vector are no sequences",
            &[],
            b"the vectors of the sequences in `s` make one of vectors: `tab({tab(x) : x in s})`",
        ),
        b"[" => tell(
            alloc,
            program,
            at,
            b"the elements of a vector are no sequences",
            &[],
            b"a vector of vectors is declared as `[[int]]`",
        ),
        _ => {
            let before = b"the sequence ";
            let after = b" is bound outside of the comprehension in which it stands here";
            let sentence = quoted(alloc, before, found, after)?;
            tell(alloc, program, at, &sentence, &[], TAKE_THE_VECTOR)
        }
    }
}
