// What plain evaluation gives, and allows.

ghost use Rattle.std.specs.Prelude.{◌≡◌, None, Some, IfOk, IfErr};

use crate::running::Done;
use flow_drives::Outcome;
use snesl_data::{Datum, Fault, Refusal, text_of};
use snesl_syntax::parse;
use snesl_types::{check, plain};
use snesl_values::read_inputs;
use std::alloc::{AllocError, Global};
use std::fmt;

/// What a program evaluates to for an input text: the line of its value, or the fault that evaluation meets first.
#[derive(Drop)]
pub struct Expected {
    ended: Result<Vec<u8>, Fault>,
}

impl Expected {
    /// By plain evaluation. Refused as the program or the input text is, or where memory was refused.
    pub fn of(alloc: Global, program: &[u8], input: &[u8]) -> Result<Expected, Refusal> {
        let program = parse(alloc, program)?;
        let typed = check(alloc, &program)?;
        let inputs = read_inputs(typed.dialect(), alloc, typed.decls(), input)?;
        let ended = match plain(alloc, &typed, &inputs)? {
            Ok(datum) => Ok(line_of(alloc, &datum)?),
            Err(fault) => Err(fault),
        };
        Ok(Expected { ended })
    }

    /// The line of the value, with its line feed.
    pub fn line(&self) -> Option<&[u8]> {
        match &self.ended {
            Ok(line) => Some(line),
            Err(_) => None,
        }
    }

    /// The fault that evaluation meets first; none where it gives a value.
    pub fn fault(&self) -> Option<Fault>
        ensures faulted { IfErr self.now.ended (λ fault. result ≡ Some fault) }
        ensures none { IfOk self.now.ended (λ _. result ≡ None) }
    {
        match self.ended {
            Ok(_) => None,
            Err(fault) => Some(fault),
        }
    }

    /// Whether a run may end so: in the value of evaluation, in a fault where that has one, or with nothing written where
    /// it has stalled or the network is too big.
    pub fn allows(&self, done: &Done) -> bool {
        let silent = done.written.is_empty();
        match done.ending {
            Ok(Outcome::Value) => match &self.ended {
                Ok(line) => line.as_slice() == done.written.as_slice(),
                Err(_) => false,
            },
            Ok(Outcome::Fault(_)) => silent && self.ended.is_err(),
            Ok(Outcome::Stalled { .. }) => silent,
            Err(Refusal::TooBig) => silent,
            Err(_) => false,
        }
    }
}

impl fmt::Display for Expected {
    fn fmt<W: fmt::Write>(&self, f: &mut fmt::Formatter<W>) -> fmt::Result {
        match &self.ended {
            Ok(line) => write!(f, "`{}`", line.escape_ascii()),
            Err(_) => write!(f, "a fault"),
        }
    }
}

// The text of a value, and one line feed.
fn line_of(alloc: Global, datum: &Datum) -> Result<Vec<u8>, AllocError> {
    let mut line = text_of(alloc, datum)?;
    line.push(b'\n')?;
    Ok(line)
}
