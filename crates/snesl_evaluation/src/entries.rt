// The inputs of a program, each value built once for the whole evaluation.

ghost use Rattle.std.specs.Prelude.{◌≡◌, ◌<◌, length, map, IfOk};
ghost use Rattle.snesl_values.specs.Inputs.{environment_of, value_in};
ghost use Rattle.snesl_evaluation.specs.Entries.{entry_of, IsInputAt};
ghost use Rattle.snesl_evaluation.specs.Data.{found_value};

use snesl_data::Datum;
use snesl_values::Inputs;
use std::alloc::{AllocError, Global};

/// The name of an input, and its value.
#[derive(Drop)]
pub struct Entry {
    pub name: Vec<u8>,
    pub datum: Datum,
}

/// All inputs, in the order of declaration. The error is that memory was refused.
pub fn entries_of(alloc: Global, inputs: &Inputs) -> Result<Vec<Entry>, AllocError>
    ensures { IfOk result (λ entries. map entry_of entries.items ≡ environment_of inputs.now) }
{
    let mut entries = Vec::new(alloc);
    for number in 0..inputs.len() {
        entries.push(build_entry(alloc, inputs, number)?)?;
    }
    Ok(entries)
}

fn build_entry(alloc: Global, inputs: &Inputs, number: usize) -> Result<Entry, AllocError>
    requires { number < length (environment_of inputs.now) }
    ensures { IfOk result (IsInputAt inputs.now number) }
{
    let name = inputs.name(number).unwrap().to_vec(alloc)?;
    let datum = inputs.datum(alloc, number)?;
    Ok(Entry { name, datum })
}

// The value of the first input of a name.
pub fn find_entry<'a>(name: &[u8], entries: &'a [Entry]) -> Option<&'a Datum>
    ensures { found_value result ≡ value_in name.now (map entry_of entries.now) }
{
    for entry in entries {
        if entry.name.as_slice() == name {
            return Some(&entry.datum);
        }
    }
    None
}
