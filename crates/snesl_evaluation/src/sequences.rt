// Sequences made of others.

ghost use Rattle.std.specs.Prelude.{◌≡◌, ◌++◌, [], ◌+◌, ◌+ℤ◌, map, IfOk, OnOk};
ghost use Rattle.snesl_data.specs.Values.{value_of};
ghost use Rattle.snesl_data.specs.operators.Operators.{ranged};
ghost use Rattle.snesl_data.specs.operators.Reductions.{reduction_of};
ghost use Rattle.snesl_evaluation.specs.Answer.{answer_at, go_all, go_join};
ghost use Rattle.snesl_evaluation.specs.Builtins.{int_at, items_at, numbers_below, scalar_at, truth_at};
ghost use Rattle.snesl_evaluation.specs.Results.{Answers};
ghost use Rattle.snesl_evaluation.specs.Data.{parts_at, sums_at, values_in, with_item, with_part};

use crate::halt::{Halt, fault};
use crate::parts::{add, integer, items, scalar, sequence_of, truth};
use snesl_data::operators::{Reduction, Scalar, sum};
use snesl_data::{Datum, Dialect, FaultKind, copy_datum};
use std::alloc::{AllocError, Global};
use std::mem;

pub fn integers(alloc: Global, at: usize, all: &[Datum]) -> Result<Vec<i128>, Halt>
    ensures { Answers (λ read. read.items) result (go_all (int_at at) (map value_of all.now)) }
{
    let mut read = Vec::with_capacity(alloc, all.len())?;
    for datum in all {
        let n = integer(at, datum)?;
        read.push(n)?;
    }
    Ok(read)
}

pub fn truths(alloc: Global, at: usize, all: &[Datum]) -> Result<Vec<bool>, Halt>
    ensures { Answers (λ read. read.items) result (go_all (truth_at at) (map value_of all.now)) }
{
    let mut read = Vec::with_capacity(alloc, all.len())?;
    for datum in all {
        let b = truth(at, datum)?;
        read.push(b)?;
    }
    Ok(read)
}

pub fn scalars(alloc: Global, at: usize, all: &[Datum]) -> Result<Vec<Scalar>, Halt>
    ensures { Answers (λ read. read.items) result (go_all (scalar_at at) (map value_of all.now)) }
{
    let mut read = Vec::with_capacity(alloc, all.len())?;
    for datum in all {
        let x = scalar(at, datum)?;
        read.push(x)?;
    }
    Ok(read)
}

// The memory is asked for first, so that a count too great is refused at once.
pub fn count_up(alloc: Global, n: usize) -> Result<Vec<Datum>, AllocError>
    ensures { IfOk result (λ numbers. values_in numbers ≡ numbers_below n) }
{
    let mut numbers = Vec::with_capacity(alloc, n)?;
    for i in 0..n {
        add(&mut numbers, Datum::Int(i as i128))?;
    }
    Ok(numbers)
}

// Copies of these after the others.
pub fn add_copies(alloc: Global, values: &mut Vec<Datum>, all: &[Datum]) -> Result<(), AllocError>
    ensures { OnOk result (values_in values.new ≡ values_in values.old ++ map value_of all.now) }
{
    for datum in all {
        let copy = copy_datum(alloc, datum)?;
        add(values, copy)?;
    }
    Ok(())
}

// The items of sequences, joined in order.
pub fn joined(alloc: Global, at: usize, all: &[Datum]) -> Result<Vec<Datum>, Halt>
    ensures { Answers values_in result (go_join (items_at at) (map value_of all.now)) }
{
    let mut values = Vec::new(alloc);
    for datum in all {
        let inner = items(at, datum)?;
        add_copies(alloc, &mut values, inner)?;
    }
    Ok(values)
}

pub fn reduce(dialect: Dialect, reduction: Reduction, all: &[Scalar]) -> Result<Scalar, FaultKind>
    ensures { result ≡ reduction_of dialect reduction all.now }
{
    let mut so_far = reduction.nothing();
    for x in all {
        so_far = reduction.more(dialect, so_far, *x)?;
    }
    Reduction::value(so_far)
}

// At each number the sum of those before it. The last number is in no sum.
pub fn scan_add(
    dialect: Dialect,
    alloc: Global,
    at: usize,
    numbers: &[i128],
) -> Result<Vec<Datum>, Halt>
    ensures { Answers values_in result (sums_at dialect at numbers.now) }
{
    let mut sums = Vec::with_capacity(alloc, numbers.len())?;
    if numbers.is_empty() {
        return Ok(sums);
    }
    let mut so_far: i128 = 0;
    for i in 0..numbers.len() - 1 {
        add(&mut sums, Datum::Int(so_far))?;
        so_far = total(dialect, at, so_far, numbers[i])?;
    }
    add(&mut sums, Datum::Int(so_far))?;
    Ok(sums)
}

fn total(dialect: Dialect, at: usize, m: i128, n: i128) -> Result<i128, Halt>
    ensures { Answers (λ n. n) result (answer_at at (ranged dialect (m +ℤ n))) }
{
    match sum(dialect, m, n) {
        Ok(total) => Ok(total),
        Err(kind) => Err(fault(kind, at)),
    }
}

// Items in parts, as flags say: each `false` takes the next item, and each `true` ends a part.
pub fn parts(alloc: Global, at: usize, items: &[Datum], flags: &[bool]) -> Result<Vec<Datum>, Halt>
    ensures { Answers values_in result (parts_at at items.now flags.now) }
{
    let mut parts = Vec::new(alloc);
    let mut part = Vec::new(alloc);
    let mut taken = 0;
    for flag in flags {
        if *flag {
            end_part(alloc, &mut parts, &mut part)?;
        } else {
            taken = take_item(alloc, at, items, taken, &mut part)?;
        }
    }
    if taken < items.len() {
        return Err(fault(FaultKind::Part, at));
    }
    if !part.is_empty() {
        return Err(fault(FaultKind::Part, at));
    }
    Ok(parts)
}

// Adds a part to the others, and begins the next.
fn end_part(alloc: Global, parts: &mut Vec<Datum>, part: &mut Vec<Datum>) -> Result<(), AllocError>
    ensures done { OnOk result (values_in parts.new ≡ with_part parts.old part.old) }
    ensures begun { OnOk result (part.new.items ≡ []) }
{
    let ended = mem::replace(part, Vec::new(alloc));
    add(parts, sequence_of(ended))?;
    Ok(())
}

// Adds a copy of the next item to a part, and returns where the one after it stands.
fn take_item(
    alloc: Global,
    at: usize,
    items: &[Datum],
    taken: usize,
    part: &mut Vec<Datum>,
) -> Result<usize, Halt>
    ensures next { IfOk result (λ next. next ≡ taken + 1) }
    ensures taken { Answers (λ _. values_in part.new) result (with_item at items.now taken part.old) }
{
    match items.get(taken) {
        Some(item) => {
            let copy = copy_datum(alloc, item)?;
            add(part, copy)?;
            Ok(taken + 1)
        }
        None => Err(fault(FaultKind::Part, at)),
    }
}
