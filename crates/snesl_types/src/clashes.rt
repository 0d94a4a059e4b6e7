// The types that stand where types do not fit.

ghost use Rattle.std.specs.Prelude.{◌≡◌, ◌<◌, length, Ok, None, IfOk, IsSome, IsTrue};
ghost use Rattle.snesl_grammar.specs.tree.View.{tree_of, trees_of, binders_of};
ghost use Rattle.snesl_types.specs.Views.{two_trees, three_trees};
ghost use Rattle.snesl_types.specs.Clashes.{IsFound, seen_parts, sources};
ghost use Rattle.snesl_types.specs.Misfitting.{ClashesIn, AnyClashesIn, ConditionClashesIn, BoundClashesIn, FinalClashes, FunctionClashesIn, DeclarationClashesIn, WrittenClashes, ProgramClashesIn, BodyMisfitsIn};
ghost use Rattle.snesl_types.specs.Names.{condition_in};

use crate::declarations::{Declarations, declarations_of, parameters_of, type_written};
use crate::expressions::{binder_types, type_of};
use crate::misfits::{misfit, source_misfit};
use crate::names::{Function, Names, Scope};
use snesl_data::{Dialect, Refusal, Ty};
use snesl_grammar::Program;
use snesl_grammar::tree::{Binder, Declaration, Expr, Function as WrittenFunction, Span};
use std::alloc::{AllocError, Global};

/// The types that stand where types do not fit.
#[derive(Debug, Drop)]
pub enum Clash {
    /// Of an operator's operands, the left one first.
    Operands(Ty, Ty),
    /// Of a prefix operator's operand.
    Operand(Ty),
    /// Of a built-in function's arguments, in order.
    Arguments(Vec<Ty>),
    /// Of a declared function's arguments, and of its parameters.
    Parameters {
        found: Vec<Ty>,
        wanted: Vec<Ty>,
    },
    /// Of the three parts of an `if`.
    Branches {
        condition: Ty,
        positive: Ty,
        negative: Ty,
    },
    /// Of a literal's items, in order.
    Items(Vec<Ty>),
    /// Of a condition.
    Condition(Ty),
    /// Of what a binder goes over.
    Source(Ty),
    /// Of a function's body, and of its declared result.
    Body {
        found: Ty,
        wanted: Ty,
    },
}

/// The types of the parts of the form at the offset to which its own rule gives no type: where
/// `check` refuses a program as `Mismatch` at this offset, the types that it found there.
///
/// `None` where no such form was found. The offset counts bytes of the text from 0.
///
/// # Errors
///
/// `AllocError` where memory is refused.
pub fn clash_at(alloc: Global, program: &Program, at: usize) -> Result<Option<Clash>, AllocError>
    ensures { IsFound (ProgramClashesIn program.now at) result }
{
    let declarations = &program.declarations;
    program_clash(
        program.dialect,
        alloc,
        &program.text,
        declarations,
        &program.expr,
        at,
    )
}

// In declarations, or in the final expression after them.
fn program_clash(
    dialect: Dialect,
    alloc: Global,
    text: &[u8],
    declarations: &[Declaration],
    expr: &Expr,
    at: usize,
) -> Result<Option<Clash>, AllocError>
    ensures { IsFound (WrittenClashes dialect text.now declarations.now expr.now at) result }
{
    for number in 0..declarations.len() {
        let found = declaration_clash(dialect, alloc, text, declarations, number, at);
        if !is_nothing(&found) {
            return found;
        }
    }
    match declarations_of(dialect, alloc, text, declarations) {
        Ok(declared) => final_clash(dialect, alloc, text, &declared, expr, at),
        Err(Refusal::NoMemory) => Err(AllocError),
        Err(_) => Ok(None),
    }
}

// In the final expression, which sees the inputs.
fn final_clash(
    dialect: Dialect,
    alloc: Global,
    text: &[u8],
    declared: &Declarations,
    expr: &Expr,
    at: usize,
) -> Result<Option<Clash>, AllocError>
    ensures { IsFound (FinalClashes dialect text.now declared.now at (tree_of expr.now)) result }
{
    let names = Names::Declared(&declared.inputs);
    let scope = Scope {
        dialect,
        text,
        functions: &declared.functions,
        names: &names,
    };
    clash_in(alloc, &scope, at, expr)
}

// In the declaration after as many others.
fn declaration_clash(
    dialect: Dialect,
    alloc: Global,
    text: &[u8],
    declarations: &[Declaration],
    number: usize,
    at: usize,
) -> Result<Option<Clash>, AllocError>
    requires { number < length declarations.now }
    ensures { IsFound (DeclarationClashesIn dialect text.now declarations.now at) result }
{
    let Declaration::Function(written) = &declarations[number] else {
        return Ok(None);
    };
    let earlier = &declarations[..number];
    match declarations_of(dialect, alloc, text, earlier) {
        Ok(declared) => function_clash(dialect, alloc, text, &declared.functions, written, at),
        Err(Refusal::NoMemory) => Err(AllocError),
        Err(_) => Ok(None),
    }
}

// In a function after these.
fn function_clash(
    dialect: Dialect,
    alloc: Global,
    text: &[u8],
    functions: &[Function],
    written: &WrittenFunction,
    at: usize,
) -> Result<Option<Clash>, AllocError>
    ensures { IsFound (FunctionClashesIn dialect text.now functions.now at written.now) result }
{
    match parameters_of(alloc, text, &written.parameters) {
        Ok(parameters) => {
            let names = Names::Declared(&parameters);
            let scope = Scope {
                dialect,
                text,
                functions,
                names: &names,
            };
            let found = clash_in(alloc, &scope, at, &written.body);
            if is_nothing(&found) && written.name.at == at {
                return found_or_none(body_misfit(alloc, &scope, written));
            }
            found
        }
        Err(Refusal::NoMemory) => Err(AllocError),
        Err(_) => Ok(None),
    }
}

// The types of a function's body and of its declared result, where they differ.
fn body_misfit(
    alloc: Global,
    scope: &Scope<'_>,
    written: &WrittenFunction,
) -> Result<Option<Clash>, Refusal>
    ensures { IsFound (BodyMisfitsIn scope.now written.now) result }
{
    let wanted = type_written(alloc, &written.result)?;
    let found = type_of(alloc, scope, &written.body)?;
    if found.is(&wanted) {
        return Ok(None);
    }
    Ok(Some(Clash::Body { found, wanted }))
}

// The types that clash at the offset in an expression.
#[cycle(clashing)]
fn clash_in(
    alloc: Global,
    scope: &Scope<'_>,
    at: usize,
    expr: &Expr,
) -> Result<Option<Clash>, AllocError>
    ensures { IsFound (ClashesIn scope.now at (tree_of expr.now)) result }
{
    let own = own_clash(alloc, scope, at, expr);
    if !is_nothing(&own) {
        return own;
    }
    let part = part_clash(alloc, scope, at, expr);
    if !is_nothing(&part) {
        return part;
    }
    inner_clash(alloc, scope, at, expr)
}

// Of the expression's own parts, or at one of its binders.
fn own_clash(
    alloc: Global,
    scope: &Scope<'_>,
    at: usize,
    expr: &Expr,
) -> Result<Option<Clash>, AllocError>
    ensures { IsFound (ClashesIn scope.now at (tree_of expr.now)) result }
{
    if expr.at() == at {
        return found_or_none(misfit(alloc, scope, expr));
    }
    match expr {
        Expr::Each { binders, .. } => found_or_none(source_misfit(alloc, scope, at, binders)),
        _ => Ok(None),
    }
}

// Whether nothing was found, and memory was not refused.
fn is_nothing(found: &Result<Option<Clash>, AllocError>) -> bool
    ensures { IsTrue result → found.now ≡ Ok None }
{
    matches!(found, Ok(None))
}

// What was found: nothing, where a part is refused.
fn found_or_none(found: Result<Option<Clash>, Refusal>) -> Result<Option<Clash>, AllocError>
    ensures { IfOk result (λ clash. IsSome clash → found ≡ Ok clash) }
{
    match found {
        Ok(found) => Ok(found),
        Err(Refusal::NoMemory) => Err(AllocError),
        Err(_) => Ok(None),
    }
}

// In a part that sees the variables that the expression sees.
#[cycle(clashing)]
fn part_clash(
    alloc: Global,
    scope: &Scope<'_>,
    at: usize,
    expr: &Expr,
) -> Result<Option<Clash>, AllocError>
    ensures { IsFound (AnyClashesIn scope.now at (seen_parts (tree_of expr.now))) result }
{
    match expr {
        Expr::Integer { .. } | Expr::Truth { .. } | Expr::Name(_) => Ok(None),
        Expr::Prefix { operand, .. } => clash_in(alloc, scope, at, operand),
        Expr::Group { inner, .. } => clash_in(alloc, scope, at, inner),
        Expr::Let { value, .. } => clash_in(alloc, scope, at, value),
        Expr::Binary { left, right, .. } => two_clash(alloc, scope, at, left, right),
        Expr::Pair { first, second, .. } => two_clash(alloc, scope, at, first, second),
        Expr::Filter {
            item,
            condition,
            ..
        } => two_clash(alloc, scope, at, item, condition),
        Expr::If {
            condition,
            positive,
            negative,
            ..
        } => three_clash(alloc, scope, at, condition, positive, negative),
        Expr::Call { arguments, .. } => any_clash(alloc, scope, at, arguments),
        Expr::Apply { arguments, .. } => any_clash(alloc, scope, at, arguments),
        Expr::Literal { items, .. } => any_clash(alloc, scope, at, items),
        Expr::Each { binders, .. } => source_clash(alloc, scope, at, binders),
    }
}

// In one of two parts.
#[cycle(clashing)]
fn two_clash(
    alloc: Global,
    scope: &Scope<'_>,
    at: usize,
    first: &Expr,
    second: &Expr,
) -> Result<Option<Clash>, AllocError>
    ensures { IsFound (AnyClashesIn scope.now at (two_trees first.now second.now)) result }
{
    let found = clash_in(alloc, scope, at, first);
    if is_nothing(&found) {
        return clash_in(alloc, scope, at, second);
    }
    found
}

// In one of three parts.
#[cycle(clashing)]
fn three_clash(
    alloc: Global,
    scope: &Scope<'_>,
    at: usize,
    first: &Expr,
    second: &Expr,
    third: &Expr,
) -> Result<Option<Clash>, AllocError>
    ensures { IsFound (AnyClashesIn scope.now at (three_trees first.now second.now third.now)) result }
{
    let found = clash_in(alloc, scope, at, first);
    if is_nothing(&found) {
        return two_clash(alloc, scope, at, second, third);
    }
    found
}

// In one of arguments or items.
#[cycle(clashing)]
fn any_clash(
    alloc: Global,
    scope: &Scope<'_>,
    at: usize,
    all: &[Expr],
) -> Result<Option<Clash>, AllocError>
    ensures { IsFound (AnyClashesIn scope.now at (trees_of all.now)) result }
{
    for one in all {
        let found = clash_in(alloc, scope, at, one);
        if !is_nothing(&found) {
            return found;
        }
    }
    Ok(None)
}

// In one of the sequences that binders go over.
#[cycle(clashing)]
fn source_clash(
    alloc: Global,
    scope: &Scope<'_>,
    at: usize,
    binders: &[Binder],
) -> Result<Option<Clash>, AllocError>
    ensures { IsFound (AnyClashesIn scope.now at (sources (binders_of binders.now))) result }
{
    for binder in binders {
        let found = clash_in(alloc, scope, at, &binder.source);
        if !is_nothing(&found) {
            return found;
        }
    }
    Ok(None)
}

// In a part that sees more variables than the expression.
#[cycle(clashing)]
fn inner_clash(
    alloc: Global,
    scope: &Scope<'_>,
    at: usize,
    expr: &Expr,
) -> Result<Option<Clash>, AllocError>
    ensures { IsFound (ClashesIn scope.now at (tree_of expr.now)) result }
{
    match expr {
        Expr::Let {
            name,
            value,
            body,
            ..
        } => bound_clash(alloc, scope, at, *name, value, body),
        Expr::Each {
            body,
            binders,
            condition,
            ..
        } => match binder_types(alloc, scope, binders) {
            Ok(items) => {
                let names = Names::Inside {
                    binders: &items,
                    outer: &*scope.names,
                };
                let inner = (&*scope).with_names(&names);
                let found = condition_clash(alloc, &inner, at, condition);
                if is_nothing(&found) {
                    return clash_in(alloc, &inner, at, body);
                }
                found
            }
            Err(Refusal::NoMemory) => Err(AllocError),
            Err(_) => Ok(None),
        },
        _ => Ok(None),
    }
}

// In a condition, where there is one.
#[cycle(clashing)]
fn condition_clash(
    alloc: Global,
    scope: &Scope<'_>,
    at: usize,
    condition: &Option<Box<Expr>>,
) -> Result<Option<Clash>, AllocError>
    ensures { IsFound (ConditionClashesIn scope.now at (condition_in condition.now)) result }
{
    match condition {
        Some(condition) => clash_in(alloc, scope, at, condition),
        None => Ok(None),
    }
}

// In the body of a `let`.
#[cycle(clashing)]
fn bound_clash(
    alloc: Global,
    scope: &Scope<'_>,
    at: usize,
    name: Span,
    value: &Expr,
    body: &Expr,
) -> Result<Option<Clash>, AllocError>
    ensures { IsFound (BoundClashesIn scope.now at name (tree_of value.now) (tree_of body.now))
        result }
{
    match type_of(alloc, scope, value) {
        Ok(ty) => {
            let names = Names::Bound {
                name,
                ty: &ty,
                outer: &*scope.names,
            };
            let inner = (&*scope).with_names(&names);
            clash_in(alloc, &inner, at, body)
        }
        Err(Refusal::NoMemory) => Err(AllocError),
        Err(_) => Ok(None),
    }
}
