// The types of the parts of one form, where its rule gives none at them.

ghost use Rattle.std.specs.Prelude.{◌≡◌, IfOk, IsTrue};
ghost use Rattle.snesl_data.specs.Types.{ty_of, bool, is_same};
ghost use Rattle.snesl_values.specs.Inputs.{declared};
ghost use Rattle.snesl_grammar.specs.tree.Tree.{prefix, call, apply, literal};
ghost use Rattle.snesl_grammar.specs.tree.View.{tree_of, trees_of, binders_of};
ghost use Rattle.snesl_types.specs.Clashes.{IsFound};
ghost use Rattle.snesl_types.specs.Misfitting.{IsMismatch, MisfitsIn, EachMisfitsIn, SourceMisfitsIn, IsNoSequence, is_sequence};
ghost use Rattle.snesl_types.specs.Contexts.{declared_types};
ghost use Rattle.snesl_types.specs.Names.{condition_in};
ghost use Rattle.snesl_types.specs.Verdicts.{fit_branches};
ghost use Rattle.snesl_types.specs.Views.{held_types, binary_of, if_of, filter_of, only_where_of};

use crate::builtins::builtin_type;
use crate::clashes::Clash;
use crate::expressions::{binder_types, type_of, types_of};
use crate::forms::{arguments_fit, literal_type, operator_type, prefix_type};
use crate::names::{Names, Scope, function_named};
use snesl_data::{Refusal, Ty, copy_ty};
use snesl_grammar::tree::{Binder, Builtin, Expr, Operator, Prefix, Span};
use std::alloc::{AllocError, Global};

// The types of the parts of an expression to which its own rule gives none. A refusal is that of a part,
// or that memory was refused.
pub(crate) fn misfit(
    alloc: Global,
    scope: &Scope<'_>,
    expr: &Expr,
) -> Result<Option<Clash>, Refusal>
    ensures { IsFound (MisfitsIn scope.now (tree_of expr.now)) result }
{
    match expr {
        Expr::Binary {
            at,
            operator,
            left,
            right,
        } => operands_misfit(alloc, scope, *at, *operator, left, right),
        Expr::Prefix {
            at,
            operator,
            operand,
        } => operand_misfit(alloc, scope, *at, *operator, operand),
        Expr::Call {
            at,
            function,
            arguments,
        } => arguments_misfit(alloc, scope, *at, *function, arguments),
        Expr::Apply {
            function,
            arguments,
        } => parameters_misfit(alloc, scope, *function, arguments),
        Expr::If {
            at,
            condition,
            positive,
            negative,
        } => branches_misfit(alloc, scope, *at, condition, positive, negative),
        Expr::Literal { at, items } => items_misfit(alloc, scope, *at, items),
        Expr::Filter {
            at,
            item,
            condition,
        } => filter_misfit(alloc, scope, *at, item, condition),
        Expr::Each {
            binders,
            condition,
            ..
        } => condition_misfit(alloc, scope, binders, condition),
        _ => Ok(None),
    }
}

// Whether a rule gives no type.
fn is_mismatch(answer: &Result<Ty, Refusal>) -> bool
    ensures { IsTrue result → IsMismatch answer.now }
{
    matches!(answer, Err(Refusal::Mismatch(_)))
}

// Of an operator.
fn operands_misfit(
    alloc: Global,
    scope: &Scope<'_>,
    at: usize,
    operator: Operator,
    left: &Expr,
    right: &Expr,
) -> Result<Option<Clash>, Refusal>
    ensures { IsFound (MisfitsIn scope.now (binary_of at operator left.now right.now)) result }
{
    let first = type_of(alloc, scope, left)?;
    let second = type_of(alloc, scope, right)?;
    let answer = operator_type(alloc, at, operator, &first, &second);
    if is_mismatch(&answer) {
        return Ok(Some(Clash::Operands(first, second)));
    }
    answer?;
    Ok(None)
}

// Of a prefix operator.
fn operand_misfit(
    alloc: Global,
    scope: &Scope<'_>,
    at: usize,
    operator: Prefix,
    operand: &Expr,
) -> Result<Option<Clash>, Refusal>
    ensures { IsFound (MisfitsIn scope.now (prefix at operator (tree_of operand.now))) result }
{
    let ty = type_of(alloc, scope, operand)?;
    let answer = prefix_type(at, operator, &ty);
    if is_mismatch(&answer) {
        return Ok(Some(Clash::Operand(ty)));
    }
    answer?;
    Ok(None)
}

// Of a built-in function.
fn arguments_misfit(
    alloc: Global,
    scope: &Scope<'_>,
    at: usize,
    function: Builtin,
    arguments: &[Expr],
) -> Result<Option<Clash>, Refusal>
    ensures { IsFound (MisfitsIn scope.now (call at function (trees_of arguments.now))) result }
{
    let types = types_of(alloc, scope, arguments)?;
    let answer = builtin_type(alloc, at, function, &types);
    if is_mismatch(&answer) {
        return Ok(Some(Clash::Arguments(types)));
    }
    answer?;
    Ok(None)
}

// Of a declared function.
fn parameters_misfit(
    alloc: Global,
    scope: &Scope<'_>,
    name: Span,
    arguments: &[Expr],
) -> Result<Option<Clash>, Refusal>
    ensures { IsFound (MisfitsIn scope.now (apply name (trees_of arguments.now))) result }
{
    let found = types_of(alloc, scope, arguments)?;
    match function_named(scope.text, name, scope.functions) {
        Some(function) if !arguments_fit(&found, &function.parameters) => {
            let wanted = copied_types(alloc, &function.parameters)?;
            Ok(Some(Clash::Parameters { found, wanted }))
        }
        _ => Ok(None),
    }
}

// The types of parameters, in memory of their own.
fn copied_types(alloc: Global, parameters: &[(Vec<u8>, Ty)]) -> Result<Vec<Ty>, AllocError>
    ensures { IfOk result (λ types. held_types types ≡ declared_types (declared parameters.now)) }
{
    let mut types = Vec::new(alloc);
    for parameter in parameters {
        let ty = copy_ty(alloc, &parameter.1)?;
        types.push(ty)?;
    }
    Ok(types)
}

// Whether a condition and branches of these types fit together.
fn branches_fit(condition: &Ty, positive: &Ty, negative: &Ty) -> bool
    ensures { result ≡ fit_branches (ty_of condition.now) (ty_of positive.now) (ty_of negative.now) }
{
    is_truth(condition) && positive.is(negative)
}

// Whether this is the type of truth values.
fn is_truth(ty: &Ty) -> bool
    ensures { result ≡ is_same (ty_of ty.now) bool }
{
    ty.is(&Ty::Bool)
}

// Of an `if`.
fn branches_misfit(
    alloc: Global,
    scope: &Scope<'_>,
    at: usize,
    condition: &Expr,
    positive: &Expr,
    negative: &Expr,
) -> Result<Option<Clash>, Refusal>
    ensures { IsFound (MisfitsIn scope.now (if_of at condition.now positive.now negative.now)) result }
{
    let condition = type_of(alloc, scope, condition)?;
    let positive = type_of(alloc, scope, positive)?;
    let negative = type_of(alloc, scope, negative)?;
    if branches_fit(&condition, &positive, &negative) {
        return Ok(None);
    }
    Ok(Some(Clash::Branches {
        condition,
        positive,
        negative,
    }))
}

// Of a literal.
fn items_misfit(
    alloc: Global,
    scope: &Scope<'_>,
    at: usize,
    items: &[Expr],
) -> Result<Option<Clash>, Refusal>
    ensures { IsFound (MisfitsIn scope.now (literal at (trees_of items.now))) result }
{
    let types = types_of(alloc, scope, items)?;
    let answer = literal_type(alloc, at, &types);
    if is_mismatch(&answer) {
        return Ok(Some(Clash::Items(types)));
    }
    answer?;
    Ok(None)
}

// Of an item with a condition.
fn filter_misfit(
    alloc: Global,
    scope: &Scope<'_>,
    at: usize,
    item: &Expr,
    condition: &Expr,
) -> Result<Option<Clash>, Refusal>
    ensures { IsFound (MisfitsIn scope.now (filter_of at item.now condition.now)) result }
{
    let _filtered = type_of(alloc, scope, item)?;
    let ty = type_of(alloc, scope, condition)?;
    if is_truth(&ty) {
        return Ok(None);
    }
    Ok(Some(Clash::Condition(ty)))
}

// Of a comprehension.
fn condition_misfit(
    alloc: Global,
    scope: &Scope<'_>,
    binders: &[Binder],
    condition: &Option<Box<Expr>>,
) -> Result<Option<Clash>, Refusal>
    ensures { IsFound (EachMisfitsIn scope.now binders.now (condition_in condition.now)) result }
{
    match condition {
        Some(condition) => only_where_misfit(alloc, scope, binders, condition),
        None => Ok(None),
    }
}

// Of a comprehension with a condition, which sees the binders' names.
fn only_where_misfit(
    alloc: Global,
    scope: &Scope<'_>,
    binders: &[Binder],
    condition: &Expr,
) -> Result<Option<Clash>, Refusal>
    ensures { IsFound (EachMisfitsIn scope.now binders.now (only_where_of condition.now)) result }
{
    let items = binder_types(alloc, scope, binders)?;
    let names = Names::Inside {
        binders: &items,
        outer: &*scope.names,
    };
    let inner = (&*scope).with_names(&names);
    let ty = type_of(alloc, &inner, condition)?;
    if is_truth(&ty) {
        return Ok(None);
    }
    Ok(Some(Clash::Condition(ty)))
}

// The type of what a binder goes over whose name stands at the offset, where it is no sequence.
pub(crate) fn source_misfit(
    alloc: Global,
    scope: &Scope<'_>,
    at: usize,
    binders: &[Binder],
) -> Result<Option<Clash>, Refusal>
    ensures { IsFound (SourceMisfitsIn scope.now at (binders_of binders.now)) result }
{
    for binder in binders {
        if binder.name.at == at {
            return type_of_no_sequence(alloc, scope, &binder.source);
        }
    }
    Ok(None)
}

// The type of what a binder goes over, where it is no sequence.
fn type_of_no_sequence(
    alloc: Global,
    scope: &Scope<'_>,
    source: &Expr,
) -> Result<Option<Clash>, Refusal>
    ensures { IsFound (IsNoSequence scope.now (tree_of source.now)) result }
{
    let ty = type_of(alloc, scope, source)?;
    if is_sequence(&ty) {
        return Ok(None);
    }
    Ok(Some(Clash::Source(ty)))
}

// Whether this is a sequence's type.
fn is_sequence(ty: &Ty) -> bool
    ensures { result ≡ is_sequence (ty_of ty.now) }
{
    match ty {
        Ty::Seq(_) => true,
        Ty::Int | Ty::Bool | Ty::Pair(_, _) | Ty::Vec(_) => false,
    }
}
