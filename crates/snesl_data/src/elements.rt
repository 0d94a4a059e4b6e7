// The elements of a vector: how many, which, and where they come from.

ghost use Rattle.std.specs.Prelude.{◌≡◌, ◌<◌, length, map, option_map, IfOk, OnErr};
ghost use Rattle.std.specs.List.{slice_get};
ghost use Rattle.snesl_data.specs.Values.{value_of, values_of, elements_of, entries};

use crate::datum::{Datum, Elements, copy_all, copy_datum};
use crate::unpacked::{data_of_bools, data_of_ints, data_of_wides};
use std::alloc::{AllocError, Global};
use std::sync::Arc;

impl Elements {
    /// These, as they are. Its only error is that memory was refused.
    pub fn of_data(alloc: Global, all: Vec<Datum>) -> Result<Elements, AllocError>
        ensures { IfOk result (λ elements. elements_of elements ≡
            values_of (map value_of all.items)) }
    {
        let shared = Arc::new(alloc, all)?;
        Ok(Elements::Others(shared))
    }

    /// How many there are.
    pub fn len(&self) -> usize
        ensures { result ≡ length (entries self.now) }
    {
        match self {
            Elements::Ints(all) => all.len(),
            Elements::Wides(all) => all.len(),
            Elements::Bools(all) => all.len(),
            Elements::Others(all) => all.len(),
        }
    }

    /// A copy of the element at this place, counted from 0, if there is one. Its only error is that
    /// memory was refused, or that too many share a vector in it, and it comes only where there is
    /// one.
    pub fn at(&self, alloc: Global, place: usize) -> Result<Option<Datum>, AllocError>
        ensures ok { IfOk result (λ found. option_map value_of found ≡
            slice_get (entries self.now) place) }
        ensures err { OnErr result (place < length (entries self.now)) }
    {
        match self {
            Elements::Ints(all) => match all.get(place) {
                Some(number) => Ok(Some(Datum::Int(*number as i128))),
                None => Ok(None),
            },
            Elements::Wides(all) => match all.get(place) {
                Some(number) => Ok(Some(Datum::Int(*number))),
                None => Ok(None),
            },
            Elements::Bools(all) => match all.get(place) {
                Some(truth) => Ok(Some(Datum::Bool(*truth))),
                None => Ok(None),
            },
            Elements::Others(all) => match all.get(place) {
                Some(datum) => Ok(Some(copy_datum(alloc, datum)?)),
                None => Ok(None),
            },
        }
    }
    /// Copies of all of them, in order. Its only error is that memory was refused, or that too many
    /// share a vector in them.
    pub fn data(&self, alloc: Global) -> Result<Vec<Datum>, AllocError>
        ensures { IfOk result (λ made. map value_of made.items ≡ entries self.now) }
    {
        match self {
            Elements::Ints(all) => data_of_ints(alloc, all),
            Elements::Wides(all) => data_of_wides(alloc, all),
            Elements::Bools(all) => data_of_bools(alloc, all),
            Elements::Others(all) => copy_all(alloc, all),
        }
    }
}
