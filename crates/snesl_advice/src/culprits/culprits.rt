// Which part of a program is at fault.

ghost use Rattle.snesl_grammar.specs.View.{program_of};
ghost use Rattle.snesl_grammar.specs.tree.View.{tree_of, trees_of, binders_of};
ghost use Rattle.snesl_types.specs.Clashes.{clash_of};
ghost use Rattle.snesl_types.specs.Names.{condition_in};
ghost use Rattle.snesl_types.specs.Views.{two_trees};
ghost use Rattle.snesl_advice.specs.culprits.Culprits.{BeginsOne, IsBound, IsCulprit, IsCulpritOf, IsInside, IsOwnCulprit, condition_parts};
ghost use Rattle.snesl_advice.specs.culprits.Views.{IsInDeclaration, IsInDeclarations, IsInFunction, IsInParts};

use crate::culprits::choice::fault_offset;
use crate::culprits::offsets::first_offset;
use snesl_grammar::Program;
use snesl_grammar::tree::{Binder, Declaration, Expr, Function};
use snesl_types::Clash;

/// Where the part of a program begins that is at fault where these types clash at the offset: an operand, an argument, a branch,
/// an item, a condition, what a binder goes over, or a function's body.
///
/// `None` where no form at the offset has a part that is at fault: a function that takes another number of arguments, say.
pub fn culprit_of(program: &Program, at: usize, clash: &Clash) -> Option<usize>
    ensures { BeginsOne (IsCulpritOf (program_of program.now) at (clash_of clash.now)) result }
{
    culprit_declared(&program.declarations, at, clash).or(culprit_in(&program.expr, at, clash))
}

// In declarations.
fn culprit_declared(declarations: &[Declaration], at: usize, clash: &Clash) -> Option<usize>
    ensures { BeginsOne (IsInDeclarations at clash.now declarations.now) result }
{
    for declaration in declarations {
        let found = culprit_of_declaration(declaration, at, clash);
        if found.is_some() {
            return found;
        }
    }
    None
}

// In a declaration.
fn culprit_of_declaration(declaration: &Declaration, at: usize, clash: &Clash) -> Option<usize>
    ensures { BeginsOne (IsInDeclaration at clash.now declaration.now) result }
{
    match declaration {
        Declaration::Input(_) => None,
        Declaration::Function(function) => culprit_of_function(function, at, clash),
    }
}

// In a function.
fn culprit_of_function(function: &Function, at: usize, clash: &Clash) -> Option<usize>
    ensures { BeginsOne (IsInFunction at clash.now function.now) result }
{
    if function.name.at == at {
        return Some(first_offset(&function.body));
    }
    culprit_in(&function.body, at, clash)
}

// Of a form that stands at the offset.
fn own_culprit(expr: &Expr, at: usize, clash: &Clash) -> Option<usize>
    ensures { BeginsOne (IsOwnCulprit at (clash_of clash.now) (tree_of expr.now)) result }
{
    if expr.at() == at {
        return fault_offset(expr, clash);
    }
    None
}

// In an expression.
#[cycle(walking)]
fn culprit_in(expr: &Expr, at: usize, clash: &Clash) -> Option<usize>
    ensures { BeginsOne (λ part. IsCulprit at (clash_of clash.now) part (tree_of expr.now)) result }
{
    own_culprit(expr, at, clash).or(culprit_inside(expr, at, clash))
}

// In what a form is made of.
#[cycle(walking)]
fn culprit_inside(expr: &Expr, at: usize, clash: &Clash) -> Option<usize>
    ensures { BeginsOne (IsInside at (clash_of clash.now) (tree_of expr.now)) result }
{
    match expr {
        Expr::Integer { .. } | Expr::Truth { .. } | Expr::Name(_) => None,
        Expr::Prefix { operand, .. } => culprit_in(operand, at, clash),
        Expr::Group { inner, .. } => culprit_in(inner, at, clash),
        Expr::Binary { left, right, .. } => culprit_in_two(left, right, at, clash),
        Expr::Pair { first, second, .. } => culprit_in_two(first, second, at, clash),
        Expr::Let { value, body, .. } => culprit_in_two(value, body, at, clash),
        Expr::Filter {
            item,
            condition,
            ..
        } => culprit_in_two(item, condition, at, clash),
        Expr::If {
            condition,
            positive,
            negative,
            ..
        } => culprit_in(condition, at, clash).or(culprit_in_two(positive, negative, at, clash)),
        Expr::Call { arguments, .. } => culprit_among(arguments, at, clash),
        Expr::Apply { arguments, .. } => culprit_among(arguments, at, clash),
        Expr::Literal { items, .. } => culprit_among(items, at, clash),
        Expr::Each {
            body,
            binders,
            condition,
            ..
        } => {
            let within = culprit_in(body, at, clash).or(culprit_tested(condition, at, clash));
            within.or(culprit_bound(binders, at, clash))
        }
    }
}

// In one of two.
#[cycle(walking)]
fn culprit_in_two(first: &Expr, second: &Expr, at: usize, clash: &Clash) -> Option<usize>
    ensures { BeginsOne (IsInParts at clash.now (two_trees first.now second.now)) result }
{
    culprit_in(first, at, clash).or(culprit_in(second, at, clash))
}

// In one of these.
#[cycle(walking)]
fn culprit_among(all: &[Expr], at: usize, clash: &Clash) -> Option<usize>
    ensures { BeginsOne (IsInParts at clash.now (trees_of all.now)) result }
{
    for one in all {
        let found = culprit_in(one, at, clash);
        if found.is_some() {
            return found;
        }
    }
    None
}

// In a condition, where there is one.
#[cycle(walking)]
fn culprit_tested(condition: &Option<Box<Expr>>, at: usize, clash: &Clash) -> Option<usize>
    ensures { BeginsOne (IsInParts at clash.now (condition_parts (condition_in condition.now))) result }
{
    match condition {
        Some(condition) => culprit_in(condition, at, clash),
        None => None,
    }
}

// In what binders go over.
#[cycle(walking)]
fn culprit_bound(binders: &[Binder], at: usize, clash: &Clash) -> Option<usize>
    ensures { BeginsOne (λ part. IsBound at (clash_of clash.now) part (binders_of binders.now))
        result }
{
    for binder in binders {
        if binder.name.at == at {
            return Some(first_offset(&binder.source));
        }
        let found = culprit_in(&binder.source, at, clash);
        if found.is_some() {
            return found;
        }
    }
    None
}
