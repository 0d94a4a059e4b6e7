// The steps of operators and built-in functions.

ghost use Rattle.std.specs.Prelude.{◌≡◌, ◌∷◌, []};
ghost use Rattle.snesl_data.specs.Types.{ty_of};
ghost use Rattle.flow_nodes.specs.plans.Plans.{units_of};
ghost use Rattle.snesl_translation.specs.Wires.{item_type, type_of_wires};
ghost use Rattle.snesl_translation.specs.Moving.{flags_stepped};
ghost use Rattle.snesl_translation.specs.Translation.{concatenated, equality, in_step, same_lengths};
ghost use Rattle.snesl_translator.specs.steps.Views.{bindings_of, wires_of};
ghost use Rattle.snesl_translator.specs.steps.Added.{AddsAppended, AddsConstant, AddsElement, AddsMixed, AddsOperator, AddsPrefix, AddsTests, AddsWires};

use crate::steps::steps::Steps;
use crate::steps::wires::{Binding, Wires, copy_wires, kind_of, pair_wires, sequence_wires};
use flow_nodes::plans::Operation;
use snesl_data::operators::{BinaryOperator, Scalar, UnaryOperator};
use snesl_data::{Refusal, Ty, copy_ty};
use snesl_grammar::tree::{Operator, Prefix};

/// A constant, of this type, for each Unit of a control stream. The errors are those of `Steps::step`.
#[inline(never)]
pub fn constant(
    steps: &mut Steps,
    at: usize,
    scalar: Scalar,
    ty: &Ty,
    control: usize,
) -> Result<Wires, Refusal>
    ensures { AddsConstant steps.old steps.new at scalar ty.now control result }
{
    steps.step_on(at, Operation::Const(scalar), &[control], ty)
}

/// A Unit for each element of the segments of a stream of flags. The errors are those of `Steps::step`.
pub fn unit_for_each(steps: &mut Steps, at: usize, flags: usize) -> Result<Wires, Refusal>
    ensures { AddsWires steps.old steps.new (flags_stepped at units_of (flags ∷ [])) result }
{
    steps.step_on(at, Operation::UnitsOf, &[flags], &Ty::Bool)
}

/// One sequence followed by another. The errors are those of `Steps::step`.
pub fn append(steps: &mut Steps, at: usize, left: &Wires, right: &Wires) -> Result<Wires, Refusal>
    ensures { AddsAppended steps.old steps.new at left.now right.now result }
{
    let (f, g) = (left.stream(), right.stream());
    let flags = steps.flags(at, Operation::AppendFlags, &[f, g])?;
    let items = mixed(steps, at, f, g, left.items(), right.items())?;
    let appended = sequence_wires(steps.alloc, flags, items)?;
    Ok(appended)
}

// Of two values with as many segments, of flags f and g, the elements of both, segment by segment.
fn mixed(
    steps: &mut Steps,
    at: usize,
    f: usize,
    g: usize,
    left: &Wires,
    right: &Wires,
) -> Result<Wires, Refusal>
    ensures { AddsMixed steps.old steps.new at f g left.now right.now result }
{
    match left {
        Wires::Wire(ty, number) => {
            let operation = Operation::Interleave(kind_of(ty));
            steps.step_on(at, operation, &[f, g, *number, right.stream()], ty)
        }
        Wires::Two(first, second) => {
            let first = mixed(steps, at, f, g, first, right.first())?;
            let second = mixed(steps, at, f, g, second, right.second())?;
            let mixed = pair_wires(steps.alloc, first, second)?;
            Ok(mixed)
        }
        Wires::Segments(p, items) => {
            let q = right.stream();
            let flags = steps.flags(at, Operation::InterleaveGroups, &[f, g, *p, q])?;
            let f = steps.flags(at, Operation::ConcatFlags, &[f, *p])?;
            let g = steps.flags(at, Operation::ConcatFlags, &[g, q])?;
            let items = mixed(steps, at, f, g, items, right.items())?;
            let mixed = sequence_wires(steps.alloc, flags, items)?;
            Ok(mixed)
        }
    }
}

/// The inner sequences of a sequence as one. The errors are those of `Steps::step`.
pub fn concatenate(steps: &mut Steps, at: usize, sequence: &Wires) -> Result<Wires, Refusal>
    ensures { AddsWires steps.old steps.new (concatenated at (wires_of sequence.now)) result }
{
    let (outer, inner) = (sequence.stream(), sequence.items().stream());
    let flags = steps.flags(at, Operation::ConcatFlags, &[outer, inner])?;
    let items = copy_wires(steps.alloc, sequence.items().items())?;
    let joined = sequence_wires(steps.alloc, flags, items)?;
    Ok(joined)
}

/// An operator between two operands. The errors are those of `Steps::step`.
#[inline(never)]
pub fn apply_operator(
    steps: &mut Steps,
    at: usize,
    operator: Operator,
    left: &Wires,
    right: &Wires,
) -> Result<Wires, Refusal>
    ensures { AddsOperator steps.old steps.new at operator left.now right.now result }
{
    let (scalar_operator, ty) = match operator {
        Operator::Or => (BinaryOperator::Or, Ty::Bool),
        Operator::And => (BinaryOperator::And, Ty::Bool),
        Operator::Equal => (equality(left), Ty::Bool),
        Operator::Less => (BinaryOperator::Less, Ty::Bool),
        Operator::AtMost => (BinaryOperator::AtMost, Ty::Bool),
        Operator::Greater => (BinaryOperator::Greater, Ty::Bool),
        Operator::AtLeast => (BinaryOperator::AtLeast, Ty::Bool),
        Operator::Append => return append(steps, at, left, right),
        Operator::Add => (BinaryOperator::Add, Ty::Int),
        Operator::Subtract => (BinaryOperator::Subtract, Ty::Int),
        Operator::Multiply => (BinaryOperator::Multiply, Ty::Int),
        Operator::Divide => (BinaryOperator::Divide, Ty::Int),
        Operator::Remainder => (BinaryOperator::Remainder, Ty::Int),
        Operator::Index => return element(steps, at, left, right),
    };
    let reads = [left.stream(), right.stream()];
    steps.step_on(at, Operation::Binary(scalar_operator), &reads, &ty)
}

// `==` of two truth values, or of two integers.
fn equality(operand: &Wires) -> BinaryOperator
    ensures { result ≡ equality (type_of_wires (wires_of operand.now)) }
{
    match operand {
        Wires::Wire(Ty::Bool, _) => BinaryOperator::EqualTruths,
        _ => BinaryOperator::EqualIntegers,
    }
}

// An element of a vector, by its place.
fn element(steps: &mut Steps, at: usize, vector: &Wires, place: &Wires) -> Result<Wires, Refusal>
    ensures { AddsElement steps.old steps.new at vector.now place.now result }
{
    let ty = vector.ty(steps.alloc)?;
    let item = item_of(&ty);
    let operation = Operation::Index(copy_ty(steps.alloc, item)?);
    steps.step_on(at, operation, &[vector.stream(), place.stream()], item)
}

// The type of the elements of a vector or a sequence.
pub(crate) fn item_of(ty: &Ty) -> &Ty
    ensures { ty_of result.now ≡ item_type (ty_of ty.now) }
{
    match ty {
        Ty::Vec(item) | Ty::Seq(item) => item,
        _ => ty,
    }
}

/// An operator before its operand. The errors are those of `Steps::step`.
#[inline(never)]
pub fn apply_prefix(
    steps: &mut Steps,
    at: usize,
    operator: Prefix,
    operand: &Wires,
) -> Result<Wires, Refusal>
    ensures { AddsPrefix steps.old steps.new at operator operand.now result }
{
    let (operator, ty) = match operator {
        Prefix::Negate => (UnaryOperator::Negate, Ty::Int),
        Prefix::Not => (UnaryOperator::Not, Ty::Bool),
    };
    steps.step_on(at, Operation::Unary(operator), &[operand.stream()], &ty)
}

/// That the sequences of a comprehension have segments of the same lengths: the first is compared with each other one. The
/// errors are those of `Steps::step`.
pub fn same_lengths(steps: &mut Steps, at: usize, sources: &[Binding<'_>]) -> Result<(), Refusal>
    ensures { AddsTests steps.old steps.new (in_step at (bindings_of sources.now)) result }
{
    match sources {
        [] => Ok(()),
        [first, others @ ..] => same_as(steps, at, first.wires.stream(), others),
    }
}

// That these sequences have segments of the same lengths as the stream of flags.
fn same_as(
    steps: &mut Steps,
    at: usize,
    flags: usize,
    others: &[Binding<'_>],
) -> Result<(), Refusal>
    ensures { AddsTests steps.old steps.new (same_lengths at flags (bindings_of others.now)) result }
{
    for source in others {
        steps.test_on(at, Operation::SameFlags, &[flags, source.wires.stream()])?;
    }
    Ok(())
}
