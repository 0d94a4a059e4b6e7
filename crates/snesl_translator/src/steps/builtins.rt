// The steps of built-in functions.

ghost use Rattle.std.specs.Prelude.{◌∷◌, [], map};
ghost use Rattle.snesl_grammar.specs.declared.tree.operator.Builtin.TheVariants.{Iota, ScanAdd, Seq, Tab, The};
ghost use Rattle.snesl_translator.specs.steps.Views.{wires_of};
ghost use Rattle.snesl_translator.specs.steps.Added.{AddsCall, AddsParts, AddsReduction};

use crate::steps::forms::{concatenate, item_of};
use crate::steps::steps::Steps;
use crate::steps::wires::{Wires, copy_wires, sequence_wires};
use flow_nodes::plans::Operation;
use snesl_data::operators::Reduction;
use snesl_data::{Refusal, Ty, copy_ty};
use snesl_grammar::tree::Builtin;

/// A built-in function at its arguments. The errors are those of `Steps::step`.
#[inline(never)]
pub fn apply_built_in(
    steps: &mut Steps,
    at: usize,
    function: Builtin,
    arguments: &[Wires],
) -> Result<Wires, Refusal>
    ensures { AddsCall steps.old steps.new at function (map wires_of arguments.now) result }
{
    match (function, arguments) {
        (Builtin::Iota, [count]) => iota(steps, at, count),
        (Builtin::ScanAdd, [numbers]) => scan_add(steps, at, numbers),
        (Builtin::ReduceAdd, [items]) => reduce(steps, at, Reduction::Sum, &Ty::Int, items),
        (Builtin::ReduceMax, [items]) => reduce(steps, at, Reduction::Max, &Ty::Int, items),
        (Builtin::ReduceAnd, [items]) => reduce(steps, at, Reduction::All, &Ty::Bool, items),
        (Builtin::ReduceOr, [items]) => reduce(steps, at, Reduction::Any, &Ty::Bool, items),
        (Builtin::Length, [items]) => {
            steps.step_on(at, Operation::Length, &[items.stream()], &Ty::Int)
        }
        (Builtin::Concat, [sequence]) => concatenate(steps, at, sequence),
        (Builtin::Part, [sequence, ends]) => part(steps, at, sequence, ends),
        (Builtin::The, [sequence]) => the(steps, at, sequence),
        (Builtin::Tab, [sequence]) => tab(steps, at, sequence),
        (Builtin::Seq, [vector]) => seq(steps, at, vector),
        (Builtin::Fst, [pair]) => Ok(copy_wires(steps.alloc, pair.first())?),
        (Builtin::Snd, [pair]) => Ok(copy_wires(steps.alloc, pair.second())?),
        _ => Ok(Wires::Wire(Ty::Int, 0)),
    }
}

// The integers from 0 on, as many as a count says.
fn iota(steps: &mut Steps, at: usize, count: &Wires) -> Result<Wires, Refusal>
    ensures { AddsCall steps.old steps.new at Iota (wires_of count.now ∷ []) result }
{
    let ty = Ty::Seq(Box::new(steps.alloc, Ty::Int)?);
    steps.step_on(at, Operation::Iota, &[count.stream()], &ty)
}

// At each number the sum of those before it: the flags stay.
fn scan_add(steps: &mut Steps, at: usize, numbers: &Wires) -> Result<Wires, Refusal>
    ensures { AddsCall steps.old steps.new at ScanAdd (wires_of numbers.now ∷ []) result }
{
    let flags = numbers.stream();
    let reads = [flags, numbers.items().stream()];
    let sums = steps.step_on(at, Operation::ScanAdd, &reads, &Ty::Int)?;
    let scanned = sequence_wires(steps.alloc, flags, sums)?;
    Ok(scanned)
}

fn reduce(
    steps: &mut Steps,
    at: usize,
    by: Reduction,
    ty: &Ty,
    items: &Wires,
) -> Result<Wires, Refusal>
    ensures { AddsReduction steps.old steps.new at by ty.now items.now result }
{
    let reads = [items.stream(), items.items().stream()];
    steps.step_on(at, Operation::Reduce(by), &reads, ty)
}

// A sequence in parts, as truth values say: flags of the parts, and flags of their elements.
fn part(steps: &mut Steps, at: usize, sequence: &Wires, ends: &Wires) -> Result<Wires, Refusal>
    ensures { AddsParts steps.old steps.new at sequence.now ends.now result }
{
    let ty = Ty::Pair(
        Box::new(steps.alloc, Ty::Bool)?,
        Box::new(steps.alloc, Ty::Bool)?,
    );
    let reads = [ends.stream(), ends.items().stream(), sequence.stream()];
    let flags = steps.step_on(at, Operation::PartFlags, &reads, &ty)?;
    let items = copy_wires(steps.alloc, sequence.items())?;
    let parts = sequence_wires(steps.alloc, flags.second().stream(), items)?;
    let parted = sequence_wires(steps.alloc, flags.first().stream(), parts)?;
    Ok(parted)
}

// The one item.
fn the(steps: &mut Steps, at: usize, sequence: &Wires) -> Result<Wires, Refusal>
    ensures { AddsCall steps.old steps.new at The (wires_of sequence.now ∷ []) result }
{
    steps.test_on(at, Operation::TheCheck, &[sequence.stream()])?;
    let item = copy_wires(steps.alloc, sequence.items())?;
    Ok(item)
}

// A sequence as a vector.
fn tab(steps: &mut Steps, at: usize, sequence: &Wires) -> Result<Wires, Refusal>
    ensures { AddsCall steps.old steps.new at Tab (wires_of sequence.now ∷ []) result }
{
    let reads = sequence.numbers(steps.alloc)?;
    let item = sequence.items().ty(steps.alloc)?;
    let copy = copy_ty(steps.alloc, &item)?;
    let ty = Ty::Vec(Box::new(steps.alloc, copy)?);
    steps.step(at, Operation::Tab(item), reads, &ty)
}

// A vector as a sequence.
fn seq(steps: &mut Steps, at: usize, vector: &Wires) -> Result<Wires, Refusal>
    ensures { AddsCall steps.old steps.new at Seq (wires_of vector.now ∷ []) result }
{
    let whole = vector.ty(steps.alloc)?;
    let item = copy_ty(steps.alloc, item_of(&whole))?;
    let copy = copy_ty(steps.alloc, &item)?;
    let ty = Ty::Seq(Box::new(steps.alloc, copy)?);
    steps.step_on(at, Operation::Seq(item), &[vector.stream()], &ty)
}
