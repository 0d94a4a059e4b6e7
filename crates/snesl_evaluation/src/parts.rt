// Data and their parts. A datum of another kind is `Shape` at the offset that is given.

ghost use Rattle.std.specs.Prelude.{◌≡◌, ◌++◌, ◌∷◌, [], map, IfOk, OnOk};
ghost use Rattle.snesl_data.specs.Values.{a_pair, a_vec, entries, value_of, values_of};
ghost use Rattle.snesl_evaluation.specs.Builtins.{elements_at, int_at, items_at, scalar_at, scalar_value, sequence, truth_at};
ghost use Rattle.snesl_evaluation.specs.Results.{Answers};
ghost use Rattle.snesl_evaluation.specs.Data.{kept_values, values_in};

use crate::halt::{Halt, fault};
use snesl_data::operators::Scalar;
use snesl_data::{Datum, Elements, FaultKind};
use std::alloc::{AllocError, Global};

pub fn integer(at: usize, datum: &Datum) -> Result<i128, Halt>
    ensures { Answers (λ n. n) result (int_at at (value_of datum.now)) }
{
    match datum {
        Datum::Int(n) => Ok(*n),
        _ => Err(fault(FaultKind::Shape, at)),
    }
}

pub fn truth(at: usize, datum: &Datum) -> Result<bool, Halt>
    ensures { Answers (λ b. b) result (truth_at at (value_of datum.now)) }
{
    match datum {
        Datum::Bool(b) => Ok(*b),
        _ => Err(fault(FaultKind::Shape, at)),
    }
}

pub fn scalar(at: usize, datum: &Datum) -> Result<Scalar, Halt>
    ensures { Answers (λ x. x) result (scalar_at at (value_of datum.now)) }
{
    match datum {
        Datum::Int(n) => Ok(Scalar::Int(*n)),
        Datum::Bool(b) => Ok(Scalar::Bool(*b)),
        _ => Err(fault(FaultKind::Shape, at)),
    }
}

pub fn datum_of(scalar: Scalar) -> Datum
    ensures { value_of result ≡ scalar_value scalar }
{
    match scalar {
        Scalar::Int(n) => Datum::Int(n),
        Scalar::Bool(b) => Datum::Bool(b),
    }
}

// The items of a sequence.
pub fn items(at: usize, datum: &Datum) -> Result<&[Datum], Halt>
    ensures { Answers (λ all. map value_of all.now) result (items_at at (value_of datum.now)) }
{
    match datum {
        Datum::Seq(all) => Ok(all),
        _ => Err(fault(FaultKind::Shape, at)),
    }
}

// The elements of a vector.
pub fn elements(at: usize, datum: &Datum) -> Result<&Elements, Halt>
    ensures { Answers (λ all. entries all.now) result (elements_at at (value_of datum.now)) }
{
    match datum {
        Datum::Vec(all) => Ok(all),
        _ => Err(fault(FaultKind::Shape, at)),
    }
}

pub fn into_items(at: usize, datum: Datum) -> Result<Vec<Datum>, Halt>
    ensures { Answers values_in result (items_at at (value_of datum)) }
{
    match datum {
        Datum::Seq(all) => Ok(all),
        _ => Err(fault(FaultKind::Shape, at)),
    }
}

pub fn sequence_of(items: Vec<Datum>) -> Datum
    ensures { value_of result ≡ sequence (values_in items) }
{
    Datum::Seq(items)
}

pub fn vector_of(alloc: Global, items: Vec<Datum>) -> Result<Datum, AllocError>
    ensures { IfOk result (λ datum. value_of datum ≡ a_vec (values_of (values_in items))) }
{
    Ok(Datum::Vec(Elements::of_data(alloc, items)?))
}

pub fn add(values: &mut Vec<Datum>, value: Datum) -> Result<(), AllocError>
    ensures { OnOk result (values_in values.new ≡ values_in values.old ++ value_of value ∷ []) }
{
    values.push(value)?;
    Ok(())
}

#[inline(never)]
pub fn pair(alloc: Global, first: Datum, second: Datum) -> Result<Datum, AllocError>
    ensures { IfOk result (λ datum. value_of datum ≡ a_pair (value_of first) (value_of second)) }
{
    Ok(Datum::Pair(Box::new(alloc, first)?, Box::new(alloc, second)?))
}

pub fn add_found(values: &mut Vec<Datum>, found: Option<Datum>) -> Result<(), AllocError>
    ensures { OnOk result (values_in values.new ≡ values_in values.old ++ kept_values found) }
{
    match found {
        Some(value) => add(values, value),
        None => Ok(()),
    }
}

// The sequence of what is there.
#[inline(never)]
pub fn filtered(alloc: Global, found: Option<Datum>) -> Result<Datum, AllocError>
    ensures { IfOk result (λ datum. value_of datum ≡ sequence (kept_values found)) }
{
    let mut values = Vec::new(alloc);
    add_found(&mut values, found)?;
    Ok(sequence_of(values))
}
