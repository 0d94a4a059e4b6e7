// Types of programs, and the slow evaluator.
use snesl_syntax::Program;
use snesl_types::{TypedProgram, check, plain};
use snesl_values::{Datum, Dialect, Fault, Inputs, Refusal, Ty};
use std::alloc::{AllocError, Global};

/// A program with its types.
pub fn typed_of(alloc: Global, program: &Program) -> Result<TypedProgram, Refusal> {
    check(alloc, program)
}

/// What a program gives for inputs, if they are its own.
pub fn answer_of(
    alloc: Global,
    typed: &TypedProgram,
    inputs: &Inputs,
) -> Result<Option<Result<Datum, Fault>>, AllocError> {
    if !typed.fits(inputs) {
        return Ok(None);
    }
    Ok(Some(plain(alloc, typed, inputs)?))
}

/// The dialect and the declared inputs of a program.
pub fn declared<'a>(typed: &'a TypedProgram) -> (Dialect, &'a [(Vec<u8>, Ty)]) {
    (typed.dialect(), typed.decls())
}

/// The tree of an input, where there is such a one.
pub fn tree_of(alloc: Global, inputs: &Inputs, number: usize) -> Result<Option<Datum>, AllocError> {
    if number >= inputs.len() {
        return Ok(None);
    }
    Ok(Some(inputs.datum(alloc, number)?))
}
