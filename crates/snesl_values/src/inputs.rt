// Input texts.

ghost use Rattle.std.specs.Prelude.{◌≡◌, IfOk, IfErr};
ghost use Rattle.snesl_values.specs.Declarations.{declared};
ghost use Rattle.snesl_values.specs.Inputs.{dialect_of, declarations_of, environment_of, text_in, spelled_environment, InputMeans, AreMeant, IsMeantStop, ReadsLawful, RefusesUnlawful, InputsFit, InputsPlaced, OneInputMeaning, SomeInputMeaning};
ghost use Rattle.snesl_values.specs.declared.inputs.InputError.TheVariants.{NoMemory};

use crate::environment::Inputs;
use crate::places::read_places;
use crate::scan::skip_blanks;
use snesl_data::{Dialect, Refusal, Ty, copy_ty};
use std::alloc::{AllocError, AllocFailed, Global};
use std::sync::Arc;
use thiserror::Error;

/// The greatest length of an input text, in bytes.
const GREATEST_INPUT_LENGTH: usize = 16_777_216;

/// Why an input text was not read.
#[derive(Clone, Copy, Debug, PartialEq, Eq, Error)]
pub enum InputError {
    /// The input text is not lawful at this offset, in bytes from 0.
    #[error("the input is not lawful at byte {0}")]
    Bad(usize),
    /// Memory was refused.
    #[error("out of memory")]
    NoMemory,
}

impl From<AllocError> for InputError {
    ghost from_gives = { λ _ error. error ≡ NoMemory };

    fn from(_: AllocError) -> Self {
        InputError::NoMemory
    }
}

impl<T: Drop> From<AllocFailed<T>> for InputError {
    ghost from_gives = { λ _ error. error ≡ NoMemory };

    fn from(_: AllocFailed<T>) -> Self {
        InputError::NoMemory
    }
}

impl From<InputError> for Refusal {
    ghost use Rattle.snesl_values.specs.Inputs.{refusal_of};

    ghost from_gives = { λ error refusal. refusal ≡ refusal_of error };

    fn from(error: InputError) -> Self {
        match error {
            InputError::Bad(at) => Refusal::BadInput(at),
            InputError::NoMemory => Refusal::NoMemory,
        }
    }
}

/// The values of the declared inputs, read from a text of at most 16,777,216 bytes. For each
/// declaration, a name and a type, the text has `name = value`, in their order, with `;` between
/// two, and one more `;` may stand after the last.
///
/// A value is an integer, `true` or `false`, a pair `(a,b)`, a vector `[a,b]` or a sequence
/// `{a,b}`, as its type says. An integer lies in the range of the dialect, and may have a minus
/// directly before its digits. Spaces, tabs, line feeds and carriage returns may stand before,
/// between and after tokens. The longest token is taken.
///
/// The text is read once and copied once. No value is built: beside the copy, memory is taken only
/// for the declarations, and for the name and the place of each value.
///
/// # Errors
///
/// - `Bad(at)`: the text is not lawful. `at` is the offset, in bytes from 0, of the first token that
///   no lawful text can have there, the length of a text that ends too early, and 16,777,216 for a
///   text that is longer than that.
/// - `NoMemory`: memory was refused.
pub fn read_inputs(
    dialect: Dialect,
    alloc: Global,
    decls: &[(Vec<u8>, Ty)],
    bytes: &[u8],
) -> Result<Inputs, InputError>
    // What is answered is what the text means.
    ensures spelled { IfOk result (AreMeant (InputMeans dialect (declared decls.now) bytes.now)) }
    ensures refused { IfErr result
        (IsMeantStop (InputMeans dialect (declared decls.now) bytes.now)) }

    // And what the text means is answered, unless memory was refused.
    ensures lawful { ReadsLawful (InputMeans dialect (declared decls.now) bytes.now) result }
    ensures unlawful { RefusesUnlawful (InputMeans dialect (declared decls.now) bytes.now) result }

    // The inputs are of the dialect and the declarations for which they were read.
    ensures in_dialect { IfOk result (λ inputs. dialect_of inputs ≡ dialect) }
    ensures declares { IfOk result (λ inputs. declarations_of inputs ≡ declared decls.now) }

    // The text that is kept is the one that was read.
    ensures kept { IfOk result (λ inputs. text_in inputs ≡ bytes.now) }

    // The names are the declared ones, and the values have their types.
    ensures fits { IfOk result (InputsFit dialect (declared decls.now)) }
{
    if bytes.len() > GREATEST_INPUT_LENGTH {
        return Err(InputError::Bad(GREATEST_INPUT_LENGTH));
    }
    let (all, behind) = read_places(dialect, alloc, decls, bytes)?;
    let end = skip_blanks(bytes, behind);
    if end < bytes.len() {
        return Err(InputError::Bad(end));
    }
    let decls = copy_decls(alloc, decls)?;
    let copy = Vec::from_slice(alloc, bytes)?;
    let text = Arc::new(alloc, copy)?;
    Ok(Inputs {
        dialect,
        decls,
        text,
        all,
    })
}

// The same declarations in memory of their own.
fn copy_decls(alloc: Global, decls: &[(Vec<u8>, Ty)]) -> Result<Vec<(Vec<u8>, Ty)>, AllocError>
    ensures { IfOk result (λ copies. declared copies.items ≡ declared decls.now) }
{
    let mut copies = Vec::with_capacity(alloc, decls.len())?;
    for declaration in decls {
        let name = Vec::from_slice(alloc, &declaration.0)?;
        let ty = copy_ty(alloc, &declaration.1)?;
        copies.push((name, ty))?;
    }
    Ok(copies)
}

/// A law and no code to run: the values have the names and types of the declarations for which they
/// were read, in order.
pub fn inputs_fit(inputs: &Inputs)
    ensures { InputsFit (dialect_of inputs.now) (declarations_of inputs.now) inputs.now }
{}

/// A law and no code to run: from each place on, the text spells a value of the declared type.
/// These values, each beside its name, are the inputs.
pub fn inputs_are_placed(inputs: &Inputs)
    ensures placed { InputsPlaced inputs.now }
    ensures environment { environment_of inputs.now ≡ spelled_environment inputs.now }
{}

/// A law and no code to run: each text has an answer for the declarations, and only one.
pub fn one_input_meaning()
    ensures one { OneInputMeaning }
    ensures some { SomeInputMeaning }
{}
