// Packed scalars as data.

ghost use Rattle.std.specs.Prelude.{◌≡◌, map, IfOk};
ghost use Rattle.snesl_data.specs.Values.{an_int, a_bool, value_of};

use crate::datum::Datum;
use std::alloc::{AllocError, Global};

pub(crate) fn data_of_ints(alloc: Global, all: &[i64]) -> Result<Vec<Datum>, AllocError>
    ensures { IfOk result (λ made. map value_of made.items ≡ map an_int all.now) }
{
    let mut data = Vec::with_capacity(alloc, all.len())?;
    for number in all {
        data.push(Datum::Int(*number as i128))?;
    }
    Ok(data)
}

pub(crate) fn data_of_wides(alloc: Global, all: &[i128]) -> Result<Vec<Datum>, AllocError>
    ensures { IfOk result (λ made. map value_of made.items ≡ map an_int all.now) }
{
    let mut data = Vec::with_capacity(alloc, all.len())?;
    for number in all {
        data.push(Datum::Int(*number))?;
    }
    Ok(data)
}

pub(crate) fn data_of_bools(alloc: Global, all: &[bool]) -> Result<Vec<Datum>, AllocError>
    ensures { IfOk result (λ made. map value_of made.items ≡ map a_bool all.now) }
{
    let mut data = Vec::with_capacity(alloc, all.len())?;
    for truth in all {
        data.push(Datum::Bool(*truth))?;
    }
    Ok(data)
}
