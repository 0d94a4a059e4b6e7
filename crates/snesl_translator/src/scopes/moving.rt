// The streams of names where a part of a program runs more often, or less often.

ghost use Rattle.snesl_translation.specs.Moving.{distributed, kept};
ghost use Rattle.snesl_translator.specs.steps.Views.{wires_of};
ghost use Rattle.snesl_translator.specs.steps.Added.{AddsWires};
ghost use Rattle.snesl_translator.specs.scopes.Moved.{MovesIn, MovesAll, MovesOne, MovesScope, moved_by};

use crate::scopes::part::{Part, names};
use crate::scopes::scope::{Scope, is_bound};
use crate::steps::{Binding, Steps, Wires, copy_wires, kind_of, pair_wires, sequence_wires};
use flow_messages::Kind;
use flow_nodes::plans::Operation;
use snesl_data::Refusal;

// How values go into the part.
#[derive(Clone, Copy)]
enum Movement {
    // Each as often as the segment of this stream of flags has elements.
    Distribute(usize),
    // Those beside which this stream of truth values is true.
    Keep(usize),
}

/// What the names that a part takes from outside stand for in it, where it runs once for each element of the segments of a
/// stream of flags. The errors are those of `Steps::step`.
pub fn distribute_all<'a>(
    steps: &mut Steps,
    at: usize,
    flags: usize,
    part: &Part<'_>,
    scope: &Scope<'a>,
) -> Result<Vec<Binding<'a>>, Refusal>
    ensures { MovesAll steps.old steps.new (distributed at flags) part.now scope.now result }
{
    move_all(steps, at, Movement::Distribute(flags), part, scope)
}

/// The same where it runs only where a stream of truth values is true. The errors are those of `Steps::step`.
pub fn keep_all<'a>(
    steps: &mut Steps,
    at: usize,
    truths: usize,
    part: &Part<'_>,
    scope: &Scope<'a>,
) -> Result<Vec<Binding<'a>>, Refusal>
    ensures { MovesAll steps.old steps.new (kept at truths) part.now scope.now result }
{
    move_all(steps, at, Movement::Keep(truths), part, scope)
}

fn move_all<'a>(
    steps: &mut Steps,
    at: usize,
    movement: Movement,
    part: &Part<'_>,
    scope: &Scope<'a>,
) -> Result<Vec<Binding<'a>>, Refusal>
    ensures { MovesAll steps.old steps.new (moved_by at movement) part.now scope.now result }
{
    let mut moved = Vec::new(steps.alloc());
    move_scope(steps, at, movement, part, scope, &mut moved)?;
    Ok(moved)
}

// MovesIn what is in scope, from the innermost bindings outwards, and adds it after what was moved before.
fn move_scope<'a>(
    steps: &mut Steps,
    at: usize,
    movement: Movement,
    part: &Part<'_>,
    scope: &Scope<'a>,
    moved: &mut Vec<Binding<'a>>,
) -> Result<(), Refusal>
    ensures { MovesScope steps.old steps.new at movement part.now scope.now moved.old moved.new result }
{
    match *scope {
        Scope::Nothing => Ok(()),
        Scope::Frame(bindings, outer) => {
            move_frame(steps, at, movement, part, bindings, moved)?;
            move_scope(steps, at, movement, part, outer, moved)?;
            Ok(())
        }
    }
}

fn move_frame<'a>(
    steps: &mut Steps,
    at: usize,
    movement: Movement,
    part: &Part<'_>,
    bindings: &[Binding<'a>],
    moved: &mut Vec<Binding<'a>>,
) -> Result<(), Refusal>
    ensures { MovesIn steps.old steps.new at movement part.now bindings.now moved.old moved.new result }
{
    for binding in bindings {
        move_binding(steps, at, movement, part, binding, moved)?;
    }
    Ok(())
}

// Only what the part names is moved, and of a name that is bound twice only the innermost.
fn move_binding<'a>(
    steps: &mut Steps,
    at: usize,
    movement: Movement,
    part: &Part<'_>,
    binding: &Binding<'a>,
    moved: &mut Vec<Binding<'a>>,
) -> Result<(), Refusal>
    ensures { MovesOne steps.old steps.new at movement part.now binding.now moved.old moved.new result }
{
    if is_bound(binding.name, moved) {
        return Ok(());
    }
    if !names(part, binding.name) {
        return Ok(());
    }
    let wires = move_wires(steps, at, movement, &binding.wires)?;
    moved.push(Binding {
        name: binding.name,
        wires,
    })?;
    Ok(())
}

fn move_wires(
    steps: &mut Steps,
    at: usize,
    movement: Movement,
    wires: &Wires,
) -> Result<Wires, Refusal>
    ensures { AddsWires steps.old steps.new (moved_by at movement (wires_of wires.now)) result }
{
    match movement {
        Movement::Distribute(flags) => distribute(steps, at, flags, wires),
        Movement::Keep(truths) => keep(steps, at, truths, wires),
    }
}

// No part of this kind takes a sequence from outside: one stays as it is.
fn distribute(steps: &mut Steps, at: usize, flags: usize, wires: &Wires) -> Result<Wires, Refusal>
    ensures { AddsWires steps.old steps.new (distributed at flags (wires_of wires.now)) result }
{
    match wires {
        Wires::Wire(ty, number) => {
            let operation = Operation::Dist(kind_of(ty));
            steps.step_on(at, operation, &[*number, flags], ty)
        }
        Wires::Two(first, second) => {
            let first = distribute(steps, at, flags, first)?;
            let second = distribute(steps, at, flags, second)?;
            let pair = pair_wires(steps.alloc(), first, second)?;
            Ok(pair)
        }
        Wires::Segments(_, _) => {
            let same = copy_wires(steps.alloc(), wires)?;
            Ok(same)
        }
    }
}

// Of a sequence whole segments are kept: its elements by truth values of their own.
fn keep(steps: &mut Steps, at: usize, truths: usize, wires: &Wires) -> Result<Wires, Refusal>
    ensures { AddsWires steps.old steps.new (kept at truths (wires_of wires.now)) result }
{
    match wires {
        Wires::Wire(ty, number) => {
            let operation = Operation::Pack(kind_of(ty));
            steps.step_on(at, operation, &[truths, *number], ty)
        }
        Wires::Two(first, second) => {
            let first = keep(steps, at, truths, first)?;
            let second = keep(steps, at, truths, second)?;
            let pair = pair_wires(steps.alloc(), first, second)?;
            Ok(pair)
        }
        Wires::Segments(groups, items) => {
            let flags = steps.flags(at, Operation::PackGroups, &[truths, *groups])?;
            let inner = steps.flags(at, Operation::Dist(Kind::Bool), &[truths, *groups])?;
            let items = keep(steps, at, inner, items)?;
            let sequence = sequence_wires(steps.alloc(), flags, items)?;
            Ok(sequence)
        }
    }
}
