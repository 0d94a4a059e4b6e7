// Texts of programs.
ghost use Rattle.std.specs.Prelude.{Ok, ◌↔◌, IfOk, IsTrue};
ghost use Rattle.snesl_syntax.specs.Tree.{ProgramTree};
ghost use Rattle.snesl_syntax.specs.Parse.{Parses};

use snesl_syntax::parse;
use snesl_values::Refusal;
use std::alloc::{AllocError, Global};

/// Whether a text is a program, by the grammar and its limits. An error where memory was refused.
pub fn is_program(alloc: Global, text: &[u8]) -> Result<bool, AllocError>
    ensures { IfOk result (λ yes. IsTrue yes ↔ ((tree : ProgramTree) × Parses text.now (Ok tree))) }
{
    match parse(alloc, text) {
        Ok(_) => Ok(true),
        Err(Refusal::NoMemory) => Err(AllocError),
        Err(_) => Ok(false),
    }
}
