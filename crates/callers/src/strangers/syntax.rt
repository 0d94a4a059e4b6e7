// Programs.
use snesl_syntax::{Program, parse};
use snesl_values::{Dialect, Refusal};
use std::alloc::Global;

/// The program of a text.
pub fn program_of(alloc: Global, text: &[u8]) -> Result<Program, Refusal> {
    parse(alloc, text)
}

/// The dialect of a program.
pub fn dialect_of(program: &Program) -> Dialect {
    program.dialect()
}
