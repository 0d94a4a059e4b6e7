// What the forms of expressions have beside the expressions in them.

ghost use Rattle.snesl_translation.specs.Wires.{segments, two};
ghost use Rattle.snesl_translation.specs.Translation.{concatenated};
ghost use Rattle.snesl_translator.specs.steps.Views.{next_in, wires_of};
ghost use Rattle.snesl_translator.specs.steps.Added.{Adds, AddsWires, OnlyGives};
ghost use Rattle.snesl_translator.specs.Forms.{AddsOneOf};
ghost use Rattle.snesl_translator.specs.Translated.{always_true, streams_named};

use crate::scopes::{Scope, look_up};
use crate::steps::{
    Steps, Wires, append, apply_built_in, concatenate, constant, pair_wires, sequence_wires,
};
use snesl_data::operators::Scalar;
use snesl_data::{Refusal, Ty};
use snesl_grammar::tree::{Builtin, Span};

// The streams of a name.
#[inline(never)]
pub(crate) fn named(
    steps: &mut Steps,
    text: &[u8],
    name: Span,
    scope: &Scope<'_>,
) -> Result<Wires, Refusal>
    ensures { OnlyGives steps.old steps.new (streams_named text.now scope.now name) result }
{
    let wires = look_up(steps.alloc(), name.spelled(text), scope)?;
    Ok(wires)
}

// The streams of a pair.
#[inline(never)]
pub(crate) fn paired(steps: &mut Steps, first: Wires, second: Wires) -> Result<Wires, Refusal>
    ensures { OnlyGives steps.old steps.new (two (wires_of first) (wires_of second)) result }
{
    let wires = pair_wires(steps.alloc(), first, second)?;
    Ok(wires)
}

// The streams of a sequence.
pub(crate) fn sequence(steps: &mut Steps, flags: usize, items: Wires) -> Result<Wires, Refusal>
    ensures { OnlyGives steps.old steps.new (segments flags (wires_of items)) result }
{
    let wires = sequence_wires(steps.alloc(), flags, items)?;
    Ok(wires)
}

// The stream of `true` for each instance. The errors are those of `Steps::step`.
#[inline(never)]
pub(crate) fn always_true(steps: &mut Steps, at: usize, control: usize) -> Result<usize, Refusal>
    ensures { Adds (λ n. n) steps.old steps.new
        (always_true at control (next_in steps.old)) result }
{
    let d = constant(steps, at, Scalar::Bool(true), &Ty::Bool, control)?;
    Ok(d.stream())
}

// The inner sequences of a sequence as one. The errors are those of `Steps::step`.
pub(crate) fn flat(
    steps: &mut Steps,
    at: usize,
    flags: usize,
    items: Wires,
) -> Result<Wires, Refusal>
    ensures { AddsWires steps.old steps.new (concatenated at (segments flags (wires_of items))) result }
{
    let sequences = sequence_wires(steps.alloc(), flags, items)?;
    concatenate(steps, at, &sequences)
}

// Of two sequences, of which one is empty, the element of the other. The errors are those of `Steps::step`.
#[inline(never)]
pub(crate) fn one_of(
    steps: &mut Steps,
    at: usize,
    left: &Wires,
    right: &Wires,
) -> Result<Wires, Refusal>
    ensures { AddsOneOf steps.old steps.new at left.now right.now result }
{
    let both = append(steps, at, left, right)?;
    let mut arguments = Vec::new(steps.alloc());
    arguments.push(both)?;
    apply_built_in(steps, at, Builtin::The, &arguments)
}
