// A vector that is gathered, element by element.

ghost use Rattle.std.specs.Prelude.{◌≡◌, ◌∷◌, ◌++◌, [], IfOk, IfErr, OnOk, OnErr};
ghost use Rattle.snesl_data.specs.Values.{value_of, values_of, elements_of};
ghost use Rattle.snesl_data.specs.Builders.{built_in};

use crate::datum::{Datum, Elements};
use crate::numbers::Numbers;
use crate::unpacked::data_of_bools;
use std::alloc::{AllocError, Global};
use std::sync::Arc;

/// Elements in order, for a vector. Integers, and truth values, lie side by side as long as no
/// element of another kind comes. Only one holds it: it is shared once it is finished.
#[derive(Debug, Drop)]
pub enum Builder {
    Empty,
    Numbers(Numbers),
    Truths(Vec<bool>),
    Others(Vec<Datum>),
}

impl Builder {
    /// One more element after all others. Where memory is refused, they are the same as before.
    pub fn push(&mut self, alloc: Global, datum: Datum) -> Result<(), AllocError>
        ensures ok { OnOk result (built_in self.new ≡ built_in self.old ++ value_of datum ∷ []) }
        ensures err { OnErr result (built_in self.new ≡ built_in self.old) }
    {
        match self {
            Builder::Empty => {
                *self = first(alloc, datum)?;
                Ok(())
            }
            Builder::Numbers(numbers) => match datum {
                Datum::Int(number) => numbers.push(alloc, number),
                other => {
                    let mut all = numbers.data(alloc)?;
                    all.push(other)?;
                    *self = Builder::Others(all);
                    Ok(())
                }
            },
            Builder::Truths(truths) => match datum {
                Datum::Bool(truth) => {
                    truths.push(truth)?;
                    Ok(())
                }
                other => {
                    let mut all = data_of_bools(alloc, truths)?;
                    all.push(other)?;
                    *self = Builder::Others(all);
                    Ok(())
                }
            },
            Builder::Others(all) => {
                all.push(datum)?;
                Ok(())
            }
        }
    }

    /// The vector of these elements. Where memory is refused, they come back.
    pub fn finish(self, alloc: Global) -> Result<Elements, Builder>
        ensures ok { IfOk result (λ elements. elements_of elements ≡ values_of (built_in self)) }
        ensures err { IfErr result (λ same. built_in same ≡ built_in self) }
    {
        match self {
            Builder::Empty => {
                let none = Vec::new(alloc);
                match Arc::new(alloc, none) {
                    Ok(all) => Ok(Elements::Others(all)),
                    Err(_) => Err(Builder::Empty),
                }
            }
            Builder::Numbers(Numbers::Small(all)) => match Arc::new(alloc, all) {
                Ok(all) => Ok(Elements::Ints(all)),
                Err(refused) => Err(Builder::Numbers(Numbers::Small(refused.value))),
            },
            Builder::Numbers(Numbers::Wide(all)) => match Arc::new(alloc, all) {
                Ok(all) => Ok(Elements::Wides(all)),
                Err(refused) => Err(Builder::Numbers(Numbers::Wide(refused.value))),
            },
            Builder::Truths(all) => match Arc::new(alloc, all) {
                Ok(all) => Ok(Elements::Bools(all)),
                Err(refused) => Err(Builder::Truths(refused.value)),
            },
            Builder::Others(all) => match Arc::new(alloc, all) {
                Ok(all) => Ok(Elements::Others(all)),
                Err(refused) => Err(Builder::Others(refused.value)),
            },
        }
    }
}

// This element alone, as its kind lies.
fn first(alloc: Global, datum: Datum) -> Result<Builder, AllocError>
    ensures { IfOk result (λ one. built_in one ≡ value_of datum ∷ []) }
{
    match datum {
        Datum::Int(number) => {
            let mut numbers = Numbers::new(alloc);
            numbers.push(alloc, number)?;
            Ok(Builder::Numbers(numbers))
        }
        Datum::Bool(truth) => {
            let mut truths = Vec::new(alloc);
            truths.push(truth)?;
            Ok(Builder::Truths(truths))
        }
        other => {
            let mut all = Vec::new(alloc);
            all.push(other)?;
            Ok(Builder::Others(all))
        }
    }
}
