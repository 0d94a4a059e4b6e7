// The tables of types: what operators, built-in functions and forms take and give.

ghost use Rattle.std.specs.Prelude.{◌≡◌, ◌+◌, ◌<◌, map, Ok, IfSome, IfNone};
ghost use Rattle.snesl_data.specs.Types.{ty_of, int, bool, pair, vec, seq, is_same};
ghost use Rattle.snesl_values.specs.Inputs.{declared};
ghost use Rattle.snesl_grammar.specs.tree.View.{binders_of};
ghost use Rattle.snesl_types.specs.Contexts.{declared_types};
ghost use Rattle.snesl_types.specs.Programs.{small_type};
ghost use Rattle.snesl_types.specs.Sizes.{type_size};
ghost use Rattle.snesl_types.specs.Verdicts.{IsType, of_operator, of_prefix, are_same, all_same as all_are, of_items, of_choice, of_filter, of_each};

use snesl_data::{Refusal, Ty, copy_ty};
use snesl_grammar::tree::{Binder, Operator, Prefix};
use std::alloc::Global;

/// The greatest size of a type.
const GREATEST_TYPE_SIZE: usize = 256;

// The type, where it is not too big.
pub(crate) fn small(ty: Ty) -> Result<Ty, Refusal>
    ensures { IsType (small_type (ty_of ty)) result }
{
    match room_after(&ty, GREATEST_TYPE_SIZE) {
        Some(_) => Ok(ty),
        None => Err(Refusal::TooBig),
    }
}

// What a type's size leaves of this room, where it is not over it.
fn room_after(ty: &Ty, room: usize) -> Option<usize>
    ensures fits { IfSome result (λ rest. rest + type_size (ty_of ty.now) ≡ room) }
    ensures over { IfNone result (room < type_size (ty_of ty.now)) }
{
    let rest = room.checked_sub(1)?;
    match ty {
        Ty::Int | Ty::Bool => Some(rest),
        Ty::Pair(first, second) => {
            let rest = room_after(first, rest)?;
            room_after(second, rest)
        }
        Ty::Vec(item) | Ty::Seq(item) => room_after(item, rest),
    }
}

// The type of an operator's value.
pub(crate) fn operator_type(
    alloc: Global,
    at: usize,
    operator: Operator,
    left: &Ty,
    right: &Ty,
) -> Result<Ty, Refusal>
    ensures { IsType (of_operator at operator (ty_of left.now) (ty_of right.now)) result }
{
    match (left, right) {
        (Ty::Int, Ty::Int) => integers_type(at, operator),
        (Ty::Bool, Ty::Bool) => truths_type(at, operator),
        (Ty::Seq(item), Ty::Seq(other)) => append_type(alloc, at, operator, item, other),
        (Ty::Vec(item), Ty::Int) => index_type(alloc, at, operator, item),
        _ => Err(Refusal::Mismatch(at)),
    }
}

// Of two integers.
fn integers_type(at: usize, operator: Operator) -> Result<Ty, Refusal>
    ensures { IsType (of_operator at operator int int) result }
{
    match operator {
        Operator::Equal
        | Operator::Less
        | Operator::AtMost
        | Operator::Greater
        | Operator::AtLeast => Ok(Ty::Bool),
        Operator::Add
        | Operator::Subtract
        | Operator::Multiply
        | Operator::Divide
        | Operator::Remainder => Ok(Ty::Int),
        Operator::Or | Operator::And | Operator::Append | Operator::Index => {
            Err(Refusal::Mismatch(at))
        }
    }
}

// Of two truth values.
fn truths_type(at: usize, operator: Operator) -> Result<Ty, Refusal>
    ensures { IsType (of_operator at operator bool bool) result }
{
    match operator {
        Operator::Or | Operator::And | Operator::Equal => Ok(Ty::Bool),
        _ => Err(Refusal::Mismatch(at)),
    }
}

// Of two sequences of such items.
fn append_type(
    alloc: Global,
    at: usize,
    operator: Operator,
    item: &Ty,
    other: &Ty,
) -> Result<Ty, Refusal>
    ensures { IsType (of_operator at operator (seq (ty_of item.now)) (seq (ty_of other.now))) result }
{
    match operator {
        Operator::Append if item.is(other) => {
            let item = copy_ty(alloc, item)?;
            sequence_of(alloc, item)
        }
        _ => Err(Refusal::Mismatch(at)),
    }
}

// Of a vector of such items and an integer.
fn index_type(alloc: Global, at: usize, operator: Operator, item: &Ty) -> Result<Ty, Refusal>
    ensures { IsType (of_operator at operator (vec (ty_of item.now)) int) result }
{
    match operator {
        Operator::Index => Ok(copy_ty(alloc, item)?),
        _ => Err(Refusal::Mismatch(at)),
    }
}

// The type of a prefix operator's value.
pub(crate) fn prefix_type(at: usize, operator: Prefix, operand: &Ty) -> Result<Ty, Refusal>
    ensures { IsType (of_prefix at operator (ty_of operand.now)) result }
{
    match (operator, operand) {
        (Prefix::Negate, Ty::Int) => Ok(Ty::Int),
        (Prefix::Not, Ty::Bool) => Ok(Ty::Bool),
        _ => Err(Refusal::Mismatch(at)),
    }
}

// The type of a literal of items of these types.
pub(crate) fn literal_type(alloc: Global, at: usize, types: &[Ty]) -> Result<Ty, Refusal>
    ensures { IsType (of_items at (map ty_of types.now)) result }
{
    match types {
        [first, others @ ..] if all_same(first, others) => sequence_of(
            alloc,
            copy_ty(alloc, first)?,
        ),
        _ => Err(Refusal::Mismatch(at)),
    }
}

// Whether all these types are the same as the first argument.
fn all_same(ty: &Ty, others: &[Ty]) -> bool
    ensures { result ≡ all_are (ty_of ty.now) (map ty_of others.now) }
{
    for other in others {
        if !other.is(ty) {
            return false;
        }
    }
    true
}

// Whether arguments of these types are what the parameters take.
pub(crate) fn arguments_fit(types: &[Ty], parameters: &[(Vec<u8>, Ty)]) -> bool
    ensures { result ≡ are_same (map ty_of types.now) (declared_types (declared parameters.now)) }
{
    if types.len() != parameters.len() {
        return false;
    }
    for i in 0..types.len() {
        if !types[i].is(&parameters[i].1) {
            return false;
        }
    }
    true
}

// The type of an `if`.
pub(crate) fn choice_type(
    at: usize,
    condition: &Ty,
    positive: Ty,
    negative: &Ty,
) -> Result<Ty, Refusal>
    ensures { IsType (of_choice at (ty_of condition.now) (ty_of positive) (ty_of negative.now)) result }
{
    if condition.is(&Ty::Bool) && positive.is(negative) {
        Ok(positive)
    } else {
        Err(Refusal::Mismatch(at))
    }
}

// The type of a sequence of such items, where the condition is a truth value.
pub(crate) fn filter_type(alloc: Global, at: usize, item: Ty, condition: &Ty) -> Result<Ty, Refusal>
    ensures { IsType (of_filter at (ty_of item) (ty_of condition.now)) result }
{
    if condition.is(&Ty::Bool) {
        sequence_of(alloc, item)
    } else {
        Err(Refusal::Mismatch(at))
    }
}

// The type of a comprehension of these binders, with such a body and condition.
pub(crate) fn each_type(
    alloc: Global,
    at: usize,
    binders: &[Binder],
    body: Ty,
    condition: &Ty,
) -> Result<Ty, Refusal>
    ensures { IsType (of_each at (binders_of binders.now) (ty_of body) (ty_of condition.now)) result }
{
    match binders {
        [] => Err(Refusal::Mismatch(at)),
        _ => filter_type(alloc, at, body, condition),
    }
}

pub(crate) fn sequence_of(alloc: Global, item: Ty) -> Result<Ty, Refusal>
    ensures { IsType (Ok (seq (ty_of item))) result }
{
    Ok(Ty::Seq(Box::new(alloc, item)?))
}

pub(crate) fn pair_of(alloc: Global, first: Ty, second: Ty) -> Result<Ty, Refusal>
    ensures { IsType (Ok (pair (ty_of first) (ty_of second))) result }
{
    Ok(Ty::Pair(Box::new(alloc, first)?, Box::new(alloc, second)?))
}
