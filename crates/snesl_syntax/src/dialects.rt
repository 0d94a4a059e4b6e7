// The reader of a program from its dialect on, between two tokens, and what a token makes of it.

ghost use Rattle.std.specs.Prelude.{IfOk};
ghost use Rattle.snesl_syntax.specs.Dialects.{beginning, awaits_number, awaits_semicolon, in_rest};
ghost use Rattle.snesl_syntax.specs.ProgramMachine.{program_state};
ghost use Rattle.snesl_syntax.specs.DialectMachine.{reader, dialect_state, WholeSteps, IsThisProgram};

use crate::expressions::StepError;
use crate::programs::{Parsed, ProgramMachine};
use snesl_data::Dialect;
use snesl_grammar::lexer::{Token, TokenKind};
use std::alloc::{AllocError, Global};

/// The reader of a program between two tokens, by what may come next.
#[derive(Drop)]
pub enum DialectMachine {
    /// The dialect, or the rest of the program.
    Beginning,
    /// The number of the dialect.
    Number,
    /// The semicolon after it.
    Semicolon,
    /// The rest of the program.
    Rest {
        dialect: Dialect,
        machine: ProgramMachine,
    },
}

/// A program's dialect, and the parts after it.
#[derive(Drop)]
pub struct Whole {
    pub dialect: Dialect,
    pub parsed: Parsed,
}

// In the rest of the program.
fn in_rest(
    alloc: Global,
    dialect: Dialect,
    machine: ProgramMachine,
    token: Token,
) -> Result<DialectMachine, StepError>
    ensures { WholeSteps result (in_rest dialect (program_state machine)) token }
{
    let machine = machine.step(alloc, token)?;
    Ok(DialectMachine::Rest { dialect, machine })
}

// Where the program begins.
fn beginning(alloc: Global, token: Token) -> Result<DialectMachine, StepError>
    ensures { WholeSteps result beginning token }
{
    match token.kind {
        TokenKind::Dialect => Ok(DialectMachine::Number),
        _ => in_rest(alloc, Dialect::One, ProgramMachine::new(alloc), token),
    }
}

// Where the number of the dialect stands.
fn number(token: Token) -> Result<DialectMachine, StepError>
    ensures { WholeSteps result awaits_number token }
{
    match token.kind {
        TokenKind::Integer(2) => Ok(DialectMachine::Semicolon),
        _ => Err(StepError::Unexpected),
    }
}

// After the number.
fn semicolon(alloc: Global, token: Token) -> Result<DialectMachine, StepError>
    ensures { WholeSteps result awaits_semicolon token }
{
    match token.kind {
        TokenKind::Semicolon => {
            let machine = ProgramMachine::new(alloc);
            Ok(DialectMachine::Rest {
                dialect: Dialect::Two,
                machine,
            })
        }
        _ => Err(StepError::Unexpected),
    }
}

impl DialectMachine {
    /// The machine after the next token.
    pub fn step(self, alloc: Global, token: Token) -> Result<DialectMachine, StepError>
        ensures { WholeSteps result (dialect_state self) token }
    {
        match self {
            DialectMachine::Beginning => beginning(alloc, token),
            DialectMachine::Number => number(token),
            DialectMachine::Semicolon => semicolon(alloc, token),
            DialectMachine::Rest { dialect, machine } => in_rest(alloc, dialect, machine, token),
        }
    }

    /// The program that the tokens so far are, where they are one.
    pub fn finish(self, alloc: Global) -> Result<Option<Whole>, AllocError>
        ensures { IfOk result (λ found.
            IsThisProgram found (reader.finished (dialect_state self))) }
    {
        match self {
            DialectMachine::Rest { dialect, machine } => match machine.finish(alloc)? {
                Some(parsed) => Ok(Some(Whole { dialect, parsed })),
                None => Ok(None),
            },
            _ => Ok(None),
        }
    }
}
