// Input texts, and the texts of values.
ghost use Rattle.std.specs.Prelude.{IfOk, IfErr};
ghost use Rattle.snesl_values.specs.Inputs.{declared};
ghost use Rattle.callers.specs.Values.{TellsValue, IsRefusedAs};

use snesl_values::{Dialect, InputError, Ty, read_inputs, text_of};
use std::alloc::Global;

/// The text of the value that an input text gives to a name, or `None` where no input has the name.
///
/// An error is that of the input text, or `NoMemory`.
pub fn value_text(
    alloc: Global,
    decls: &[(Vec<u8>, Ty)],
    input: &[u8],
    name: &[u8],
) -> Result<Option<Vec<u8>>, InputError>
    ensures told { IfOk result (TellsValue (declared decls.now) input.now name.now) }
    ensures refused { IfErr result (IsRefusedAs (declared decls.now) input.now) }
{
    let inputs = read_inputs(Dialect::One, alloc, decls, input)?;
    for number in 0..inputs.len() {
        let found = inputs.name(number).unwrap();
        if name == found {
            return Ok(Some(text_of(alloc, &inputs.datum(alloc, number)?)?));
        }
    }
    Ok(None)
}
