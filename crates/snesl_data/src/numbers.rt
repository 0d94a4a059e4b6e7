// Integers that are gathered for a vector.

ghost use Rattle.std.specs.Prelude.{◌≡◌, ◌∷◌, ◌++◌, [], map, IfOk, OnOk, OnErr};
ghost use Rattle.snesl_data.specs.Values.{an_int, value_of};
ghost use Rattle.snesl_data.specs.Builders.{numbers_in};

use crate::datum::Datum;
use crate::unpacked::{data_of_ints, data_of_wides};
use std::alloc::{AllocError, Global};

/// Integers in order: of 64 bits while all are so small.
#[derive(Debug, Drop)]
pub enum Numbers {
    Small(Vec<i64>),
    Wide(Vec<i128>),
}

impl Numbers {
    /// No integers.
    pub(crate) fn new(alloc: Global) -> Numbers
        ensures { numbers_in result ≡ [] }
    {
        Numbers::Small(Vec::new(alloc))
    }

    /// One more after all others. Where memory is refused, they are the same as before.
    pub(crate) fn push(&mut self, alloc: Global, number: i128) -> Result<(), AllocError>
        ensures ok { OnOk result (numbers_in self.new ≡ numbers_in self.old ++ number ∷ []) }
        ensures err { OnErr result (numbers_in self.new ≡ numbers_in self.old) }
    {
        match self {
            Numbers::Small(all) => {
                if let Ok(small) = i64::try_from(number) {
                    all.push(small)?;
                    return Ok(());
                }
                let mut wide = widened(alloc, all)?;
                wide.push(number)?;
                *self = Numbers::Wide(wide);
                Ok(())
            }
            Numbers::Wide(all) => {
                all.push(number)?;
                Ok(())
            }
        }
    }

    /// The same integers as data. Its only error is that memory was refused.
    pub(crate) fn data(&self, alloc: Global) -> Result<Vec<Datum>, AllocError>
        ensures { IfOk result (λ made. map value_of made.items ≡ map an_int (numbers_in self.now)) }
    {
        match self {
            Numbers::Small(all) => data_of_ints(alloc, all),
            Numbers::Wide(all) => data_of_wides(alloc, all),
        }
    }
}

// The same integers, with room for more of any size.
fn widened(alloc: Global, all: &[i64]) -> Result<Vec<i128>, AllocError>
    ensures { IfOk result (λ wide. wide.items ≡ all.now) }
{
    let mut wide = Vec::with_capacity(alloc, all.len())?;
    for number in all {
        wide.push(*number as i128)?;
    }
    Ok(wide)
}
