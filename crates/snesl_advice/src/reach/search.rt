// The search for the name at an offset.

ghost use Rattle.std.specs.Prelude.{IfOk};
ghost use Rattle.snesl_grammar.specs.View.{program_of};
ghost use Rattle.snesl_grammar.specs.tree.View.{binders_of, tree_of, trees_of};
ghost use Rattle.snesl_advice.specs.reach.Candidates.{candidates_among, candidates_at, candidates_in, candidates_in_sources};
ghost use Rattle.snesl_advice.specs.reach.View.{FindsNames, body_candidates, candidates_in_condition, candidates_in_row, candidates_in_two, declaration_candidates};

use crate::reach::names::{
    Candidates, function_here, variable_here, with_binders, with_inputs, with_name, with_parameters,
};
use snesl_grammar::Program;
use snesl_grammar::tree::{Binder, Declaration, Expr};
use std::alloc::{AllocError, Global};

/// The names that may stand where a variable or a called function stands in a program: of values those that are bound around it,
/// of functions those that are declared before it. `None` where neither stands at the offset. The error is that memory was
/// refused.
pub fn candidates_at(
    alloc: Global,
    program: &Program,
    at: usize,
) -> Result<Option<Candidates>, AllocError>
    ensures { IfOk result (FindsNames (candidates_at (program_of program.now) at)) }
{
    let declarations = program.declarations.as_slice();
    let declared = candidates_in_bodies(alloc, declarations, at)?;
    let last = with_inputs(candidates_in(alloc, &program.expr, at)?, declarations)?;
    Ok(declared.or(last))
}

// In the functions of a program, each of which sees those before it.
fn candidates_in_bodies(
    alloc: Global,
    declarations: &[Declaration],
    at: usize,
) -> Result<Option<Candidates>, AllocError>
    ensures { IfOk result (FindsNames (body_candidates at declarations.now)) }
{
    for number in 0..declarations.len() {
        let earlier = &declarations[..number];
        let found = candidates_in_declaration(alloc, earlier, &declarations[number], at)?;
        if found.is_some() {
            return Ok(found);
        }
    }
    Ok(None)
}

// In a declaration, with those before it.
fn candidates_in_declaration(
    alloc: Global,
    earlier: &[Declaration],
    declaration: &Declaration,
    at: usize,
) -> Result<Option<Candidates>, AllocError>
    ensures { IfOk result (FindsNames (declaration_candidates at earlier.now declaration.now)) }
{
    match declaration {
        Declaration::Input(_) => Ok(None),
        Declaration::Function(function) => {
            let found = candidates_in(alloc, &function.body, at)?;
            with_parameters(found, &function.parameters, earlier)
        }
    }
}

// In an expression.
#[cycle(walking)]
fn candidates_in(alloc: Global, expr: &Expr, at: usize) -> Result<Option<Candidates>, AllocError>
    ensures { IfOk result (FindsNames (candidates_in at (tree_of expr.now))) }
{
    match expr {
        Expr::Integer { .. } | Expr::Truth { .. } => Ok(None),
        Expr::Name(name) => Ok(variable_here(alloc, *name, at)),
        Expr::Prefix { operand, .. } => candidates_in(alloc, operand, at),
        Expr::Group { inner, .. } => candidates_in(alloc, inner, at),
        Expr::Binary { left, right, .. } => candidates_in_two(alloc, left, right, at),
        Expr::Pair { first, second, .. } => candidates_in_two(alloc, first, second, at),
        Expr::Filter {
            item,
            condition,
            ..
        } => candidates_in_two(alloc, item, condition, at),
        Expr::If {
            condition,
            positive,
            negative,
            ..
        } => {
            let found = candidates_in(alloc, condition, at)?;
            Ok(found.or(candidates_in_two(alloc, positive, negative, at)?))
        }
        Expr::Call { arguments, .. } => candidates_among(alloc, arguments, at),
        Expr::Apply {
            function,
            arguments,
        } => {
            let found = candidates_among(alloc, arguments, at)?;
            Ok(function_here(alloc, *function, at).or(found))
        }
        Expr::Literal { items, .. } => candidates_among(alloc, items, at),
        Expr::Let {
            name,
            value,
            body,
            ..
        } => {
            let found = candidates_in(alloc, value, at)?;
            let within = with_name(candidates_in(alloc, body, at)?, *name)?;
            Ok(found.or(within))
        }
        Expr::Each {
            body,
            binders,
            condition,
            ..
        } => {
            let found = candidates_in(alloc, body, at)?;
            let within = found.or(candidates_in_condition(alloc, condition, at)?);
            candidates_in_row(alloc, within, binders, at)
        }
    }
}

// In one of two.
#[cycle(walking)]
fn candidates_in_two(
    alloc: Global,
    first: &Expr,
    second: &Expr,
    at: usize,
) -> Result<Option<Candidates>, AllocError>
    ensures { IfOk result (FindsNames (candidates_in_two at first.now second.now)) }
{
    let found = candidates_in(alloc, first, at)?;
    Ok(found.or(candidates_in(alloc, second, at)?))
}

// In one of these.
#[cycle(walking)]
fn candidates_among(
    alloc: Global,
    all: &[Expr],
    at: usize,
) -> Result<Option<Candidates>, AllocError>
    ensures { IfOk result (FindsNames (candidates_among at (trees_of all.now))) }
{
    for one in all {
        let found = candidates_in(alloc, one, at)?;
        if found.is_some() {
            return Ok(found);
        }
    }
    Ok(None)
}

// In a condition, where there is one.
#[cycle(walking)]
fn candidates_in_condition(
    alloc: Global,
    condition: &Option<Box<Expr>>,
    at: usize,
) -> Result<Option<Candidates>, AllocError>
    ensures { IfOk result (FindsNames (candidates_in_condition at condition.now)) }
{
    match condition {
        Some(condition) => candidates_in(alloc, condition, at),
        None => Ok(None),
    }
}

// In what these binders go over, where it is not found within their comprehension.
#[cycle(walking)]
fn candidates_in_row(
    alloc: Global,
    within: Option<Candidates>,
    binders: &[Binder],
    at: usize,
) -> Result<Option<Candidates>, AllocError>
    ensures { IfOk result (FindsNames (candidates_in_row at binders.now within)) }
{
    let found = with_binders(within, binders)?;
    if found.is_some() {
        return Ok(found);
    }
    candidates_in_sources(alloc, binders, at)
}

// In what binders go over.
#[cycle(walking)]
fn candidates_in_sources(
    alloc: Global,
    binders: &[Binder],
    at: usize,
) -> Result<Option<Candidates>, AllocError>
    ensures { IfOk result (FindsNames (candidates_in_sources at (binders_of binders.now))) }
{
    for binder in binders {
        let found = candidates_in(alloc, &binder.source, at)?;
        if found.is_some() {
            return Ok(found);
        }
    }
    Ok(None)
}
