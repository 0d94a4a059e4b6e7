// Operators at data.

ghost use Rattle.std.specs.Prelude.{slice_get};
ghost use Rattle.snesl_data.specs.declared.fault.FaultKind.TheVariants.{Index as IndexFault};
ghost use Rattle.snesl_data.specs.Values.{entries, value_of};
ghost use Rattle.snesl_evaluation.specs.Answer.{or_fault};
ghost use Rattle.snesl_evaluation.specs.Builtins.{append_answer, binary_answer, equal_answer, item_answer, prefix_answer, scalar_answer, scalars_answer, unary_answer};
ghost use Rattle.snesl_evaluation.specs.Results.{Answers};
ghost use Rattle.snesl_evaluation.specs.Data.{AnswersOf, index_answer};

use crate::halt::{Halt, fault};
use crate::parts::{datum_of, elements, integer, items, scalar, sequence_of};
use crate::sequences::add_copies;
use snesl_data::operators::{BinaryOperator, Scalar, UnaryOperator};
use snesl_data::{Datum, Dialect, Elements, FaultKind};
use snesl_grammar::tree::{Operator, Prefix};
use std::alloc::Global;

// The scalar, or its fault at this offset.
pub fn scalar_result(at: usize, given: Result<Scalar, FaultKind>) -> Result<Datum, Halt>
    ensures { Answers value_of result (scalar_answer at given) }
{
    match given {
        Ok(scalar) => Ok(datum_of(scalar)),
        Err(kind) => Err(fault(kind, at)),
    }
}

#[inline(never)]
pub fn prefix(dialect: Dialect, at: usize, operator: Prefix, operand: &Datum) -> Result<Datum, Halt>
    ensures { Answers value_of result (prefix_answer dialect at operator (value_of operand.now)) }
{
    match operator {
        Prefix::Negate => unary(dialect, at, UnaryOperator::Negate, operand),
        Prefix::Not => unary(dialect, at, UnaryOperator::Not, operand),
    }
}

fn unary(
    dialect: Dialect,
    at: usize,
    operator: UnaryOperator,
    operand: &Datum,
) -> Result<Datum, Halt>
    ensures { Answers value_of result (unary_answer dialect at operator (value_of operand.now)) }
{
    let x = scalar(at, operand)?;
    scalar_result(at, operator.apply(dialect, x))
}

#[inline(never)]
pub fn binary(
    dialect: Dialect,
    alloc: Global,
    at: usize,
    operator: Operator,
    left: &Datum,
    right: &Datum,
) -> Result<Datum, Halt>
    ensures { AnswersOf (binary_answer dialect at operator) left.now right.now result }
{
    match operator {
        Operator::Or => on_scalars(dialect, at, BinaryOperator::Or, left, right),
        Operator::And => on_scalars(dialect, at, BinaryOperator::And, left, right),
        Operator::Equal => equal(dialect, at, left, right),
        Operator::Less => on_scalars(dialect, at, BinaryOperator::Less, left, right),
        Operator::AtMost => on_scalars(dialect, at, BinaryOperator::AtMost, left, right),
        Operator::Greater => on_scalars(dialect, at, BinaryOperator::Greater, left, right),
        Operator::AtLeast => on_scalars(dialect, at, BinaryOperator::AtLeast, left, right),
        Operator::Append => append(alloc, at, left, right),
        Operator::Add => on_scalars(dialect, at, BinaryOperator::Add, left, right),
        Operator::Subtract => on_scalars(dialect, at, BinaryOperator::Subtract, left, right),
        Operator::Multiply => on_scalars(dialect, at, BinaryOperator::Multiply, left, right),
        Operator::Divide => on_scalars(dialect, at, BinaryOperator::Divide, left, right),
        Operator::Remainder => on_scalars(dialect, at, BinaryOperator::Remainder, left, right),
        Operator::Index => index(alloc, at, left, right),
    }
}

fn on_scalars(
    dialect: Dialect,
    at: usize,
    operator: BinaryOperator,
    left: &Datum,
    right: &Datum,
) -> Result<Datum, Halt>
    ensures { AnswersOf (scalars_answer dialect at operator) left.now right.now result }
{
    let x = scalar(at, left)?;
    let y = scalar(at, right)?;
    scalar_result(at, operator.apply(dialect, x, y))
}

fn equal(dialect: Dialect, at: usize, left: &Datum, right: &Datum) -> Result<Datum, Halt>
    ensures { AnswersOf (equal_answer dialect at) left.now right.now result }
{
    match left {
        Datum::Int(_) => on_scalars(dialect, at, BinaryOperator::EqualIntegers, left, right),
        Datum::Bool(_) => on_scalars(dialect, at, BinaryOperator::EqualTruths, left, right),
        _ => Err(fault(FaultKind::Shape, at)),
    }
}

// One sequence followed by another.
fn append(alloc: Global, at: usize, left: &Datum, right: &Datum) -> Result<Datum, Halt>
    ensures { AnswersOf (append_answer at) left.now right.now result }
{
    let front = items(at, left)?;
    let back = items(at, right)?;
    let mut all = Vec::with_capacity(alloc, front.len())?;
    add_copies(alloc, &mut all, front)?;
    add_copies(alloc, &mut all, back)?;
    Ok(sequence_of(all))
}

// The element at an index.
fn index(alloc: Global, at: usize, vector: &Datum, index: &Datum) -> Result<Datum, Halt>
    ensures { AnswersOf (index_answer at) vector.now index.now result }
{
    let all = elements(at, vector)?;
    let i = integer(at, index)?;
    item(alloc, at, all, i)
}

fn item(alloc: Global, at: usize, all: &Elements, i: i128) -> Result<Datum, Halt>
    ensures { Answers value_of result (item_answer at (entries all.now) i) }
{
    if i < 0 || i >= all.len() as i128 {
        return Err(fault(FaultKind::Index, at));
    }
    item_at(alloc, at, all, i as usize)
}

fn item_at(alloc: Global, at: usize, all: &Elements, place: usize) -> Result<Datum, Halt>
    ensures { Answers value_of result (or_fault IndexFault at
        (slice_get (entries all.now) place)) }
{
    match all.at(alloc, place)? {
        Some(datum) => Ok(datum),
        None => Err(fault(FaultKind::Index, at)),
    }
}
