// The types of expressions.

ghost use Rattle.std.specs.Prelude.{[], map};
ghost use Rattle.snesl_data.specs.Types.{ty_of};
ghost use Rattle.snesl_grammar.specs.tree.View.{tree_of, trees_of, binders_of};
ghost use Rattle.snesl_types.specs.Verdicts.{IsVerdict, IsType, of_binding, of_function, of_binder};
ghost use Rattle.snesl_types.specs.Names.{typed_in, AreTyped, ruled_in, all_typed_in, binders_typed_in, condition_typed_in, condition_in, binding_in, callee_in};
ghost use Rattle.snesl_types.specs.Views.{held_types, held_names, binding_of, if_of};

use crate::builtins::builtin_type;
use crate::forms::{
    arguments_fit, choice_type, each_type, filter_type, literal_type, operator_type, pair_of,
    prefix_type, small,
};
use crate::names::{Meaning, Names, Scope, function_named, look_up, type_in};
use snesl_data::{Refusal, Ty, copy_ty};
use snesl_grammar::tree::{Binder, Expr, Span};
use std::alloc::Global;

// The type of an expression.
#[cycle(typing)]
pub(crate) fn type_of(alloc: Global, scope: &Scope<'_>, expr: &Expr) -> Result<Ty, Refusal>
    ensures { IsType (typed_in scope.now (tree_of expr.now)) result }
{
    let ty = type_by_rule(alloc, scope, expr)?;
    small(ty)
}

// The type that the rule of its form gives to an expression, whatever the type's size.
#[cycle(typing)]
fn type_by_rule(alloc: Global, scope: &Scope<'_>, expr: &Expr) -> Result<Ty, Refusal>
    ensures { IsType (ruled_in scope.now (tree_of expr.now)) result }
{
    match expr {
        Expr::Integer { value, .. } => {
            // The text of a program spells no other integer, so that this refuses no program.
            if scope.dialect.has(*value) {
                Ok(Ty::Int)
            } else {
                Err(Refusal::NoMemory)
            }
        }
        Expr::Truth { .. } => Ok(Ty::Bool),
        Expr::Name(name) => variable_type(alloc, scope, *name),
        Expr::Binary {
            at,
            operator,
            left,
            right,
        } => {
            let (left, right) = both_types(alloc, scope, left, right)?;
            operator_type(alloc, *at, *operator, &left, &right)
        }
        Expr::Prefix {
            at,
            operator,
            operand,
        } => {
            let operand = type_of(alloc, scope, operand)?;
            prefix_type(*at, *operator, &operand)
        }
        Expr::Call {
            at,
            function,
            arguments,
        } => {
            let types = types_of(alloc, scope, arguments)?;
            builtin_type(alloc, *at, *function, &types)
        }
        Expr::Apply {
            function,
            arguments,
        } => {
            let types = types_of(alloc, scope, arguments)?;
            call_type(alloc, scope, *function, &types)
        }
        Expr::Group { inner, .. } => type_of(alloc, scope, inner),
        Expr::Pair { first, second, .. } => {
            let (first, second) = both_types(alloc, scope, first, second)?;
            pair_of(alloc, first, second)
        }
        Expr::Let {
            name,
            value,
            body,
            ..
        } => let_type(alloc, scope, *name, value, body),
        Expr::If {
            at,
            condition,
            positive,
            negative,
        } => if_type(alloc, scope, *at, condition, positive, negative),
        Expr::Literal { at, items } => {
            let types = types_of(alloc, scope, items)?;
            literal_type(alloc, *at, &types)
        }
        Expr::Filter {
            at,
            item,
            condition,
        } => {
            let (item, condition) = both_types(alloc, scope, item, condition)?;
            filter_type(alloc, *at, item, &condition)
        }
        Expr::Each {
            at,
            body,
            binders,
            condition,
        } => {
            let items = binder_types(alloc, scope, binders)?;
            let names = Names::Inside {
                binders: &items,
                outer: &*scope.names,
            };
            let inner = (&*scope).with_names(&names);
            let condition = condition_type(alloc, &inner, condition)?;
            let body = type_of(alloc, &inner, body)?;
            each_type(alloc, *at, binders, body, &condition)
        }
    }
}

// The types of two expressions, the first before the second.
#[cycle(typing)]
fn both_types(
    alloc: Global,
    scope: &Scope<'_>,
    first: &Expr,
    second: &Expr,
) -> Result<(Ty, Ty), Refusal>
    ensures { AreTyped scope.now (tree_of first.now) (tree_of second.now) result }
{
    let first = type_of(alloc, scope, first)?;
    let second = type_of(alloc, scope, second)?;
    Ok((first, second))
}

// The type of a body where a name has the type of another expression.
#[cycle(typing)]
fn let_type(
    alloc: Global,
    scope: &Scope<'_>,
    name: Span,
    value: &Expr,
    body: &Expr,
) -> Result<Ty, Refusal>
    ensures { IsType (ruled_in scope.now (binding_of name.at name value.now body.now)) result }
{
    let value = type_of(alloc, scope, value)?;
    let names = Names::Bound {
        name,
        ty: &value,
        outer: &*scope.names,
    };
    type_of(alloc, &(&*scope).with_names(&names), body)
}

// The type of one of two expressions, as a condition says.
#[cycle(typing)]
fn if_type(
    alloc: Global,
    scope: &Scope<'_>,
    at: usize,
    condition: &Expr,
    positive: &Expr,
    negative: &Expr,
) -> Result<Ty, Refusal>
    ensures { IsType (ruled_in scope.now (if_of at condition.now positive.now negative.now)) result }
{
    let condition = type_of(alloc, scope, condition)?;
    let (positive, negative) = both_types(alloc, scope, positive, negative)?;
    choice_type(at, &condition, positive, &negative)
}

// The type of a condition, and that of a truth value where there is none.
#[cycle(typing)]
fn condition_type(
    alloc: Global,
    scope: &Scope<'_>,
    condition: &Option<Box<Expr>>,
) -> Result<Ty, Refusal>
    ensures { IsType (condition_typed_in scope.now (condition_in condition.now)) result }
{
    match condition {
        Some(condition) => type_of(alloc, scope, condition),
        None => Ok(Ty::Bool),
    }
}

// The types of arguments or items, from left to right.
#[cycle(typing)]
pub(crate) fn types_of(
    alloc: Global,
    scope: &Scope<'_>,
    arguments: &[Expr],
) -> Result<Vec<Ty>, Refusal>
    ensures { IsVerdict held_types (all_typed_in scope.now [] (trees_of arguments.now)) result }
{
    let mut types = Vec::new(alloc);
    for argument in arguments {
        let ty = type_of(alloc, scope, argument)?;
        types.push(ty)?;
    }
    Ok(types)
}

// The names of binders with the types of their elements, from left to right.
#[cycle(typing)]
pub(crate) fn binder_types(
    alloc: Global,
    scope: &Scope<'_>,
    binders: &[Binder],
) -> Result<Vec<(Vec<u8>, Ty)>, Refusal>
    ensures { IsVerdict held_names (binders_typed_in scope.now [] (binders_of binders.now)) result }
{
    let mut items = Vec::new(alloc);
    for binder in binders {
        let source = type_of(alloc, scope, &binder.source)?;
        let bytes = binder.name.spelled(scope.text);
        let taken = type_in(bytes, &items).is_some();
        let item = item_type(alloc, binder.name, taken, &source)?;
        let name = Vec::from_slice(alloc, bytes)?;
        items.push((name, item))?;
    }
    Ok(items)
}

// The type of the elements that a binder over such a source stands for, where its name is not taken.
fn item_type(alloc: Global, name: Span, taken: bool, source: &Ty) -> Result<Ty, Refusal>
    ensures { IsType (of_binder name taken (ty_of source.now)) result }
{
    match source {
        _ if taken => Err(Refusal::Name(name.at)),
        Ty::Seq(item) => Ok(copy_ty(alloc, item)?),
        _ => Err(Refusal::Mismatch(name.at)),
    }
}

// The type that a variable stands for.
fn variable_type(alloc: Global, scope: &Scope<'_>, name: Span) -> Result<Ty, Refusal>
    ensures { IsType (of_binding name (binding_in scope.now name)) result }
{
    match look_up(scope.text, name, scope.names, false) {
        Meaning::Unbound => Err(Refusal::Name(name.at)),
        Meaning::Shut => Err(Refusal::Streamed(name.at)),
        Meaning::Open(ty) => Ok(copy_ty(alloc, ty)?),
    }
}

// The type of a declared function's result, at arguments of these types.
fn call_type(alloc: Global, scope: &Scope<'_>, name: Span, types: &[Ty]) -> Result<Ty, Refusal>
    ensures { IsType (of_function name (map ty_of types.now) (callee_in scope.now name)) result }
{
    match function_named(scope.text, name, scope.functions) {
        None => Err(Refusal::Name(name.at)),
        Some(function) => {
            if arguments_fit(types, &function.parameters) {
                Ok(copy_ty(alloc, &function.result)?)
            } else {
                Err(Refusal::Mismatch(name.at))
            }
        }
    }
}
