// The values of the parts of a form at fault.

ghost use Rattle.std.specs.Prelude.{◌≡◌};
ghost use Rattle.snesl_grammar.specs.tree.Tree.{both, none, offset};
ghost use Rattle.snesl_grammar.specs.tree.View.{binders_of, tree_of};
ghost use Rattle.snesl_evaluation.specs.Answer.{faults};
ghost use Rattle.snesl_evaluation.specs.Scopes.{eval_in};
ghost use Rattle.snesl_faults.specs.Faults.{GivesValuesOf, IsRightStop, parts_of, sources, two_parts};

use crate::finding::{Finding, Stop};
use snesl_data::{Datum, Fault};
use snesl_evaluation::{Halt, ProgramContext, Scope, all_values, value};
use snesl_grammar::tree::{Binder, Expr};

// What is found at a form that ends in a fault at its own offset. It is given up where memory is refused.
pub(crate) fn found_at(context: &ProgramContext, expr: &Expr, scope: &Scope, fault: Fault) -> Stop
    requires faulted { eval_in context.now scope.now (tree_of expr.now)
        ≡ faults fault.kind fault.at }
    requires own { fault.at ≡ offset (tree_of expr.now) }
    ensures { IsRightStop context.now.dialect context.now.text.now result }
{
    match part_values(context, expr, scope) {
        Ok(values) => Stop::Found(Finding { fault, values }),
        Err(_) => Stop::GivenUp,
    }
}

// The values of operands, arguments, or the sequences of a comprehension.
fn part_values(context: &ProgramContext, expr: &Expr, scope: &Scope) -> Result<Vec<Datum>, Halt>
    ensures { GivesValuesOf context.now scope.now (parts_of (tree_of expr.now)) result }
{
    match expr {
        Expr::Binary { left, right, .. } => two_values(context, left, right, scope),
        Expr::Prefix { operand, .. } => one_value(context, operand, scope),
        Expr::Call { arguments, .. } => all_values(context, arguments, scope),
        Expr::Each { binders, .. } => sequence_values(context, binders, scope),
        _ => Err(Halt::NoMemory),
    }
}

fn one_value(context: &ProgramContext, expr: &Expr, scope: &Scope) -> Result<Vec<Datum>, Halt>
    ensures { GivesValuesOf context.now scope.now (both (tree_of expr.now) none) result }
{
    let mut values = Vec::new(context.alloc);
    let value = value(context, expr, scope)?;
    values.push(value)?;
    Ok(values)
}

fn two_values(
    context: &ProgramContext,
    first: &Expr,
    second: &Expr,
    scope: &Scope,
) -> Result<Vec<Datum>, Halt>
    ensures { GivesValuesOf context.now scope.now (two_parts first.now second.now) result }
{
    let mut values = Vec::new(context.alloc);
    let one = value(context, first, scope)?;
    values.push(one)?;
    let other = value(context, second, scope)?;
    values.push(other)?;
    Ok(values)
}

// The sequences of binders.
fn sequence_values(
    context: &ProgramContext,
    binders: &[Binder],
    scope: &Scope,
) -> Result<Vec<Datum>, Halt>
    ensures { GivesValuesOf context.now scope.now (sources (binders_of binders.now)) result }
{
    let mut values = Vec::new(context.alloc);
    for binder in binders {
        let value = value(context, &binder.source, scope)?;
        values.push(value)?;
    }
    Ok(values)
}
