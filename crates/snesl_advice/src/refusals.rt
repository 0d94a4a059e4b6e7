// What is said of a refusal.

ghost use Rattle.std.specs.Prelude.{IfOk};
ghost use Rattle.snesl_grammar.specs.View.{program_of};
ghost use Rattle.snesl_types.specs.Clashes.{ProgramClashes, clash_of};
ghost use Rattle.snesl_advice.specs.Advice.{IsMismatchAdvice, IsShown, TellsOfRefusal};
ghost use Rattle.snesl_advice.specs.Told.{IsAdviceAt};

use crate::culprits::culprit_of;
use crate::inputs::input_message;
use crate::lexemes::lexical_message;
use crate::mismatches::mismatch_message;
use crate::names::name_message;
use crate::streams::streamed_message;
use crate::syntax::{shown_place, syntax_message};
use crate::telling::tell;
use snesl_data::Refusal;
use snesl_grammar::Program;
use snesl_look::{refusal_message, refusal_sentence};
use snesl_syntax::parse;
use snesl_types::{Clash, clash_at};
use std::alloc::{AllocError, Global};

/// What a person is told of a refusal, and where.
#[derive(Drop)]
pub struct Advice {
    /// What is said of it.
    pub message: Vec<u8>,
    /// The refusal, with the offset at which the message has its caret, where it has one.
    pub shown: Refusal,
}

/// What is said of a refusal of a job: of a program that is none what could stand there, of a name whether it is unbound or bound
/// twice, of types that do not fit which they are, where that is found, and of an input text which input is declared there. The
/// offset in `shown` is that of the caret: of a program that ends too early it is the end of its last word, and of types that do not
/// fit that of the part at fault. The error is that memory was refused.
pub fn advice_on(
    alloc: Global,
    refusal: Refusal,
    program: &[u8],
    input: &[u8],
) -> Result<Advice, AllocError>
    ensures told { IfOk result (TellsOfRefusal program.now input.now) }
    ensures shown { IfOk result (IsShown refusal program.now) }
{
    match refusal {
        Refusal::Lex(at) => Ok(Advice {
            message: lexical_message(alloc, program, at)?,
            shown: refusal,
        }),
        Refusal::Syntax(at) => Ok(Advice {
            message: syntax_message(alloc, program, at)?,
            shown: Refusal::Syntax(shown_place(program, at)),
        }),
        Refusal::Name(at) => Ok(Advice {
            message: name_advice(alloc, program, at)?,
            shown: refusal,
        }),
        Refusal::Mismatch(at) => mismatch_advice(alloc, program, at),
        Refusal::Streamed(at) => Ok(Advice {
            message: streamed_message(alloc, program, at)?,
            shown: refusal,
        }),
        Refusal::BadInput(at) => Ok(Advice {
            message: input_message(alloc, program, input, at)?,
            shown: refusal,
        }),
        _ => Ok(Advice {
            message: refusal_message(alloc, refusal, program, input)?,
            shown: refusal,
        }),
    }
}

// What is said of types that do not fit, by the tree of the program.
fn mismatch_advice(alloc: Global, program: &[u8], at: usize) -> Result<Advice, AllocError>
    ensures { IfOk result (IsMismatchAdvice program.now at) }
{
    match parse(alloc, program) {
        Ok(parsed) => match clash_at(alloc, &parsed, at)? {
            Some(clash) => clash_advice(alloc, &parsed, at, &clash),
            None => plain_advice(alloc, program, at),
        },
        Err(Refusal::NoMemory) => Err(AllocError),
        Err(_) => plain_advice(alloc, program, at),
    }
}

// What is said of types that clash: at the part that is at fault, if there is one.
fn clash_advice(
    alloc: Global,
    program: &Program,
    at: usize,
    clash: &Clash,
) -> Result<Advice, AllocError>
    requires { ProgramClashes program.now.text.items (program_of program.now) at
        (clash_of clash.now) }
    ensures { IfOk result (IsMismatchAdvice program.now.text.items at) }
{
    let place = culprit_of(program, at, clash).unwrap_or(at);
    Ok(Advice {
        message: mismatch_message(alloc, &program.text, at, clash, place)?,
        shown: Refusal::Mismatch(place),
    })
}

// What is said where it was not found which types they are.
fn plain_advice(alloc: Global, program: &[u8], at: usize) -> Result<Advice, AllocError>
    ensures { IfOk result (IsMismatchAdvice program.now at) }
{
    let shown = Refusal::Mismatch(at);
    Ok(Advice {
        message: refusal_message(alloc, shown, program, &[])?,
        shown,
    })
}

// What is said of a name; of one in what is no program it is the sentence alone.
fn name_advice(alloc: Global, program: &[u8], at: usize) -> Result<Vec<u8>, AllocError>
    ensures { IfOk result (IsAdviceAt program.now at) }
{
    match parse(alloc, program) {
        Ok(parsed) => name_message(alloc, &parsed, at),
        Err(Refusal::NoMemory) => Err(AllocError),
        Err(_) => {
            let sentence = refusal_sentence(Refusal::Name(at));
            tell(alloc, program, at, sentence.as_bytes(), &[], b"")
        }
    }
}
