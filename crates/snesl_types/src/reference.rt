// Plain evaluation of typed programs.

ghost use Rattle.std.specs.Prelude.{◌≡◌, IfOk};
ghost use Rattle.snesl_values.specs.Inputs.{declarations_of, dialect_of, environment_of};
ghost use Rattle.snesl_types.specs.Soundness.{TypesAllow, TypedExpressionsAreSound, TypedProgramsAreSound};
ghost use Rattle.snesl_types.specs.Typed.{typed_dialect, typed_inputs, typed_ty, IsAnswerOf};

use crate::typed::TypedProgram;
use snesl_data::{Datum, Fault};
use snesl_evaluation::evaluate;
use snesl_values::{Inputs, inputs_fit};
use std::alloc::{AllocError, Global};

/// Evaluates a typed program by its definition, with all of each sequence in memory. It is slow, and
/// there to say what a program means. `inputs` were read in the program's dialect and for the
/// declared inputs.
///
/// Returns the program's value, which is of the program's type, or its first fault with the offset
/// that the form at fault keeps, in bytes of the text from 0. The fault is never `Shape`.
///
/// The language is Streaming NESL (Madsen and Filinski, FHPC 2013).
///
/// # Errors
///
/// `AllocError` where memory is refused, as for an `iota` of a number too great.
pub fn plain(
    alloc: Global,
    typed: &TypedProgram,
    inputs: &Inputs,
) -> Result<Result<Datum, Fault>, AllocError>
    requires in_dialect { dialect_of inputs.now ≡ typed_dialect typed.now }
    requires fits { declarations_of inputs.now ≡ typed_inputs typed.now }
    ensures exact { IfOk result (IsAnswerOf typed.now (environment_of inputs.now)) }
    ensures sound { IfOk result (TypesAllow (typed_dialect typed.now) (typed_ty typed.now)) }
{
    inputs_fit(inputs);
    evaluate(alloc, typed.program(), inputs)
}

/// The law that evaluation keeps types: a typed program whose inputs have values of their types
/// evaluates to a value of its type, with all its integers in the range of its dialect, or to a fault other than
/// `Shape`; and so does each typed expression where names and calls have fitting values.
pub fn soundness()
    ensures expressions { TypedExpressionsAreSound }
    ensures programs { TypedProgramsAreSound }
{}
