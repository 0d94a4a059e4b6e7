// What is said where no token begins.

ghost use Rattle.std.specs.Prelude.{IfOk};
ghost use Rattle.snesl_advice.specs.Told.{IsAdviceAt};

use crate::habits::habit_at;
use crate::telling::tell;
use crate::tokens::{names_dialect, quoted};
use std::alloc::{AllocError, Global};

/// What is said where no token begins: of an integer that it is too great, and of another character that it is none of the
/// language. The offset counts bytes of the program from 0. The error is that memory was refused.
pub fn lexical_message(alloc: Global, program: &[u8], at: usize) -> Result<Vec<u8>, AllocError>
    ensures { IfOk result (IsAdviceAt program.now at) }
{
    let within = at.min(program.len());
    let rest = &program[within..];
    match rest {
        [b'0'..=b'9', ..] => great_integer(alloc, program, at),
        [b' '..=b'~', ..] | [0x80..=0xff, ..] => {
            let sentence = quoted(alloc, b"", character(rest), b" is no sign of the language")?;
            let hint = habit_at(program, within).unwrap_or("");
            tell(alloc, program, at, &sentence, &[], hint.as_bytes())
        }
        _ => tell(
            alloc,
            program,
            at,
            b"this control character is no blank",
            &[],
            b"",
        ),
    }
}

// Of an integer that is too great.
fn great_integer(alloc: Global, program: &[u8], at: usize) -> Result<Vec<u8>, AllocError>
    ensures { IfOk result (IsAdviceAt program.now at) }
{
    let (sentence, hint): (&[u8], &[u8]) = if names_dialect(program) {
        (
            b"this integer is greater than 170141183460469231731687303715884105727",
            b"",
        )
    } else {
        (
            b"this integer is greater than 9223372036854775807",
            b"a program that begins with `dialect 2;` has integers of 128 bits",
        )
    };
    tell(alloc, program, at, sentence, &[], hint)
}

// The first character of a text, in UTF-8.
fn character(text: &[u8]) -> &[u8] {
    let later = match text {
        [_, rest @ ..] => rest
            .iter()
            .take_while(|byte| matches!(**byte, 0x80..=0xbf))
            .count(),
        [] => 0,
    };
    &text[..text.len().min(later.saturating_add(1)).min(4)]
}
