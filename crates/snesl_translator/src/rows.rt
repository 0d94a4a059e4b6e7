// Parts of a program that run more often, or less often, than what is around them.

ghost use Rattle.std.specs.Prelude.{◌≡◌, ◌∷◌, []};
ghost use Rattle.flow_nodes.specs.plans.Plans.{flag_of_bool};
ghost use Rattle.snesl_translation.specs.Moving.{flags_stepped};
ghost use Rattle.snesl_translator.specs.steps.Added.{AddsWires};
ghost use Rattle.snesl_translator.specs.scopes.Scopes.{names_in};
ghost use Rattle.snesl_translator.specs.Rows.{OpensEach, OpensWhere, names_taken, names_taken_where};

use crate::frames::{bind_items, flags_of_first};
use crate::scopes::{Part, Scope, distribute_all, keep_all};
use crate::steps::{Binding, Steps, Wires, same_lengths, unit_for_each};
use flow_nodes::plans::Operation;
use snesl_data::{Refusal, Ty};
use snesl_grammar::tree::{Binder, Expr};

// What such a part sees: the flags that its values stand under, its own names, those from outside, and its control stream.
#[derive(Drop)]
pub(crate) struct Rows<'a> {
    pub(crate) flags: usize,
    pub(crate) items: Vec<Binding<'a>>,
    pub(crate) outside: Vec<Binding<'a>>,
    pub(crate) control: usize,
}

// A body within its binders.
pub(crate) fn part_of<'a>(text: &'a [u8], binders: &'a [Binder], body: &'a Expr) -> Part<'a>
    ensures { names_in result ≡ names_taken text.now binders.now body.now }
{
    Part {
        text,
        binders,
        condition: None,
        body,
    }
}

// A condition and a body within their binders.
pub(crate) fn part_where<'a>(
    text: &'a [u8],
    binders: &'a [Binder],
    condition: &'a Expr,
    body: &'a Expr,
) -> Part<'a>
    ensures { names_in result ≡
        names_taken_where text.now binders.now condition.now body.now }
{
    Part {
        text,
        binders,
        condition: Some(condition),
        body,
    }
}

// Of a comprehension's body, beside these sequences. The errors are those of `Steps::step`.
#[inline(never)]
pub(crate) fn open_each<'a>(
    steps: &mut Steps,
    at: usize,
    part: &Part<'_>,
    sources: &[Binding<'a>],
    scope: &Scope<'a>,
) -> Result<Rows<'a>, Refusal>
    ensures { OpensEach steps.old steps.new at part.now sources.now scope.now result }
{
    let flags = flags_of_first(sources);
    let items = bind_items(steps.alloc(), sources)?;
    same_lengths(steps, at, sources)?;
    let outside = distribute_all(steps, at, flags, part, scope)?;
    let units = unit_for_each(steps, at, flags)?;
    let control = units.stream();
    Ok(Rows {
        flags,
        items,
        outside,
        control,
    })
}

// Of an item, where these truth values are true. The errors are those of `Steps::step`.
#[inline(never)]
pub(crate) fn open_where<'a>(
    steps: &mut Steps,
    at: usize,
    part: &Part<'_>,
    truths: usize,
    scope: &Scope<'a>,
) -> Result<Rows<'a>, Refusal>
    ensures { OpensWhere steps.old steps.new at part.now truths scope.now result }
{
    let segments = flags_of(steps, at, truths)?;
    let outside = keep_all(steps, at, truths, part, scope)?;
    let flags = segments.stream();
    let units = unit_for_each(steps, at, flags)?;
    let control = units.stream();
    Ok(Rows {
        flags,
        items: Vec::new(steps.alloc()),
        outside,
        control,
    })
}

// The flags of one sequence for each truth value, which has an element where it is true.
fn flags_of(steps: &mut Steps, at: usize, truths: usize) -> Result<Wires, Refusal>
    ensures { AddsWires steps.old steps.new (flags_stepped at flag_of_bool (truths ∷ [])) result }
{
    let mut reads = Vec::new(steps.alloc());
    reads.push(truths)?;
    steps.step(at, Operation::FlagOfBool, reads, &Ty::Bool)
}
