// Values, and copies of them.

ghost use Rattle.std.specs.Prelude.{◌≡◌, map, IfOk};
ghost use Rattle.snesl_data.specs.Values.{value_of, elements_of};

use std::alloc::{AllocError, Global};
use std::sync::Arc;

/// A value: an integer, a truth value, a pair, a vector or a sequence.
#[derive(Debug, Drop)]
#[cycle(datum)]
pub enum Datum {
    Int(i128),
    Bool(bool),
    Pair(Box<Datum>, Box<Datum>),
    Vec(Elements),
    Seq(Vec<Datum>),
}

/// The elements of a vector. Those who hold it share them, and nobody writes to them any more.
///
/// An integer takes 8 bytes where all are of 64 bits, and 16 elsewhere. A truth value takes 1.
/// Which kind it is says nothing about the value: the same elements mean the same in each.
#[derive(Debug, Drop)]
#[cycle(datum)]
pub enum Elements {
    Ints(Arc<Vec<i64>>),
    Wides(Arc<Vec<i128>>),
    Bools(Arc<Vec<bool>>),
    Others(Arc<Vec<Datum>>),
}

impl Elements {
    /// The same elements, shared. It takes no memory: its only error is that too many share them.
    pub fn share(&self) -> Result<Elements, AllocError>
        ensures { IfOk result (λ shared. elements_of shared ≡ elements_of self.now) }
    {
        match self {
            Elements::Ints(all) => Ok(Elements::Ints(Arc::try_clone(all)?)),
            Elements::Wides(all) => Ok(Elements::Wides(Arc::try_clone(all)?)),
            Elements::Bools(all) => Ok(Elements::Bools(Arc::try_clone(all)?)),
            Elements::Others(all) => Ok(Elements::Others(Arc::try_clone(all)?)),
        }
    }
}

/// The same value. Its vectors are shared, and all else is in memory of its own. Its only error is
/// that memory was refused, or that too many share a vector.
#[cycle(copy_datum)]
pub fn copy_datum(alloc: Global, datum: &Datum) -> Result<Datum, AllocError>
    ensures { IfOk result (λ copy. value_of copy ≡ value_of datum.now) }
{
    match datum {
        Datum::Int(number) => Ok(Datum::Int(*number)),
        Datum::Bool(truth) => Ok(Datum::Bool(*truth)),
        Datum::Pair(first, second) => {
            let a = copy_datum(alloc, first)?;
            let b = copy_datum(alloc, second)?;
            Ok(Datum::Pair(Box::new(alloc, a)?, Box::new(alloc, b)?))
        }
        Datum::Vec(elements) => Ok(Datum::Vec(elements.share()?)),
        Datum::Seq(all) => {
            let items = copy_all(alloc, all)?;
            Ok(Datum::Seq(items))
        }
    }
}

// Copies of these, in order.
#[cycle(copy_datum)]
pub(crate) fn copy_all(alloc: Global, all: &[Datum]) -> Result<Vec<Datum>, AllocError>
    ensures { IfOk result (λ copies. map value_of copies.items ≡ map value_of all.now) }
{
    let mut copies = Vec::with_capacity(alloc, all.len())?;
    for datum in all {
        let copy = copy_datum(alloc, datum)?;
        copies.push(copy)?;
    }
    Ok(copies)
}
