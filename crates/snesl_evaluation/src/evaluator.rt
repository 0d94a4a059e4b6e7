// Evaluation.

ghost use Rattle.std.specs.Prelude.{◌≡◌, true, IfOk};
ghost use Rattle.snesl_data.specs.Values.{value_of};
ghost use Rattle.snesl_grammar.specs.tree.View.{tree_of, trees_of};
ghost use Rattle.snesl_evaluation.specs.Builtins.{seq_answer};
ghost use Rattle.snesl_evaluation.specs.Results.{Answers, IsAnswer};
ghost use Rattle.snesl_evaluation.specs.Scopes.{all_in, are_level, kept_in};
ghost use Rattle.snesl_evaluation.specs.Forms.{EvaluatesTo, apply_form, binary_form, bound_in, call_form, called_in, entered_in, filter_in, if_form, let_form, pair_in, prefix_form, program_answer};
ghost use Rattle.snesl_evaluation.specs.Data.{kept_values, values_in};
ghost use Rattle.snesl_evaluation.specs.Comprehensions.{ColumnsAre, GathersTo, RowsGive, RowsKeep, SelectsTo};

use crate::builtins::apply;
use crate::calls::find_function;
use crate::entries::entries_of;
use crate::halt::{Halt, fault};
use crate::operators::{binary, prefix};
use crate::parts::{add, add_found, filtered, into_items, pair, sequence_of, truth};
use crate::scope::{Column, ProgramContext, Scope, add_column, height, look_up};
use snesl_data::{Datum, Fault, FaultKind};
use snesl_grammar::Program;
use snesl_grammar::tree::{Binder, Builtin, Declaration, Expr, Function, Operator, Prefix, Span};
use snesl_values::Inputs;
use std::alloc::{AllocError, Global};

/// Evaluates a program by its definition, with all of each sequence in memory. It is slow, and
/// there to say what a program means: operands, arguments and items are evaluated in order from
/// left to right, each whole before the next, and each even if nothing uses its value.
/// `inputs` has the values that the program starts with.
///
/// Returns the program's value, or its first fault with the offset that the form at fault keeps, in
/// bytes of the text from 0. A program that is not typed may end in the fault `Shape`.
///
/// The language is Streaming NESL (Madsen and Filinski, FHPC 2013); a comprehension is the
/// apply-to-each form of NESL 3.1 (Blelloch 1995).
///
/// # Errors
///
/// `AllocError` where memory is refused, as for an `iota` of a number too great.
pub fn evaluate(
    alloc: Global,
    program: &Program,
    inputs: &Inputs,
) -> Result<Result<Datum, Fault>, AllocError>
    ensures exact { IfOk result (λ answer. IsAnswer answer (program_answer program.now inputs.now)) }
{
    let context = ProgramContext {
        alloc,
        dialect: program.dialect,
        text: &program.text,
        functions: &program.declarations,
    };
    let entries = entries_of(alloc, inputs)?;
    match value(&context, &program.expr, &Scope::Inputs(&entries)) {
        Ok(datum) => Ok(Ok(datum)),
        Err(Halt::Faulted(fault)) => Ok(Err(fault)),
        Err(Halt::NoMemory) => Err(AllocError),
    }
}

/// The value of an expression where names and calls have these meanings, or why there is none.
// It only hands each form on to a function of its own, and none is inlined into another: its frame, and theirs, are what
// evaluation takes of the stack.
#[cycle(value)]
#[inline(never)]
pub fn value(context: &ProgramContext, expr: &Expr, scope: &Scope) -> Result<Datum, Halt>
    ensures { EvaluatesTo context.now scope.now (tree_of expr.now) result }
{
    match expr {
        Expr::Integer { value, .. } => Ok(Datum::Int(*value)),
        Expr::Truth { value, .. } => Ok(Datum::Bool(*value)),
        Expr::Name(name) => look_up(context.alloc, *name, context.text, scope),
        Expr::Binary {
            at,
            operator,
            left,
            right,
        } => binary_value(context, *at, *operator, left, right, scope),
        Expr::Prefix {
            at,
            operator,
            operand,
        } => prefix_value(context, *at, *operator, operand, scope),
        Expr::Call {
            at,
            function,
            arguments,
        } => built_in(context, *at, *function, arguments, scope),
        Expr::Apply {
            function,
            arguments,
        } => call(context, *function, arguments, scope),
        Expr::Group { inner, .. } => value(context, inner, scope),
        Expr::Pair { first, second, .. } => pair_value(context, first, second, scope),
        Expr::Let {
            name,
            value: bound,
            body,
            ..
        } => let_value(context, *name, bound, body, scope),
        Expr::If {
            at,
            condition,
            positive,
            negative,
        } => if_value(context, *at, condition, positive, negative, scope),
        Expr::Literal { items, .. } => literal(context, items, scope),
        Expr::Filter {
            at,
            item,
            condition,
        } => filter(context, *at, item, condition, scope),
        Expr::Each {
            at,
            body,
            binders,
            condition,
        } => match condition {
            None => each(context, *at, body, binders, scope),
            Some(condition) => each_where(context, *at, body, binders, condition, scope),
        },
    }
}

// An operator between two operands.
#[cycle(value)]
#[inline(never)]
fn binary_value(
    context: &ProgramContext,
    at: usize,
    operator: Operator,
    left: &Expr,
    right: &Expr,
    scope: &Scope,
) -> Result<Datum, Halt>
    ensures { EvaluatesTo context.now scope.now (binary_form at operator left.now right.now) result }
{
    let x = value(context, left, scope)?;
    let y = value(context, right, scope)?;
    binary(context.dialect, context.alloc, at, operator, &x, &y)
}

// An operator before its operand.
#[cycle(value)]
#[inline(never)]
fn prefix_value(
    context: &ProgramContext,
    at: usize,
    operator: Prefix,
    operand: &Expr,
    scope: &Scope,
) -> Result<Datum, Halt>
    ensures { EvaluatesTo context.now scope.now (prefix_form at operator operand.now) result }
{
    let x = value(context, operand, scope)?;
    prefix(context.dialect, at, operator, &x)
}

#[cycle(value)]
#[inline(never)]
fn pair_value(
    context: &ProgramContext,
    first: &Expr,
    second: &Expr,
    scope: &Scope,
) -> Result<Datum, Halt>
    ensures { Answers value_of result (pair_in context.now scope.now first.now second.now) }
{
    let x = value(context, first, scope)?;
    let y = value(context, second, scope)?;
    Ok(pair(context.alloc, x, y)?)
}

// A body where a name has the value of another expression.
#[cycle(value)]
#[inline(never)]
fn let_value(
    context: &ProgramContext,
    name: Span,
    bound: &Expr,
    body: &Expr,
    scope: &Scope,
) -> Result<Datum, Halt>
    ensures { EvaluatesTo context.now scope.now (let_form name bound.now body.now) result }
{
    let x = value(context, bound, scope)?;
    bind(context, name, &x, body, &*scope)
}

// One of two expressions, as a condition says.
#[cycle(value)]
#[inline(never)]
fn if_value(
    context: &ProgramContext,
    at: usize,
    condition: &Expr,
    positive: &Expr,
    negative: &Expr,
    scope: &Scope,
) -> Result<Datum, Halt>
    ensures { EvaluatesTo context.now scope.now (if_form at condition.now positive.now negative.now) result }
{
    let x = value(context, condition, scope)?;
    if truth(at, &x)? {
        value(context, positive, scope)
    } else {
        value(context, negative, scope)
    }
}

// A built-in function at arguments.
#[cycle(value)]
#[inline(never)]
fn built_in(
    context: &ProgramContext,
    at: usize,
    function: Builtin,
    arguments: &[Expr],
    scope: &Scope,
) -> Result<Datum, Halt>
    ensures { EvaluatesTo context.now scope.now (call_form at function arguments.now) result }
{
    let values = all_values(context, arguments, scope)?;
    apply(context.dialect, context.alloc, at, function, &values)
}

// A declared function at arguments.
#[cycle(value)]
#[inline(never)]
fn call(
    context: &ProgramContext,
    name: Span,
    arguments: &[Expr],
    scope: &Scope,
) -> Result<Datum, Halt>
    ensures { EvaluatesTo context.now scope.now (apply_form name arguments.now) result }
{
    let values = all_values(context, arguments, scope)?;
    let result = called(context, name, &values)?;
    Ok(result)
}

#[cycle(value)]
#[inline(never)]
fn literal(context: &ProgramContext, items: &[Expr], scope: &Scope) -> Result<Datum, Halt>
    ensures { Answers value_of result (seq_answer
        (all_in context.now scope.now (trees_of items.now))) }
{
    let values = all_values(context, items, scope)?;
    Ok(sequence_of(values))
}

// The sequence of an item where the condition is true, and else of nothing.
#[cycle(value)]
#[inline(never)]
fn filter(
    context: &ProgramContext,
    at: usize,
    item: &Expr,
    condition: &Expr,
    scope: &Scope,
) -> Result<Datum, Halt>
    ensures { Answers value_of result (filter_in context.now scope.now at item.now condition.now) }
{
    let found = kept(context, at, item, condition, scope)?;
    Ok(filtered(context.alloc, found)?)
}

// A comprehension with no condition.
#[cycle(value)]
#[inline(never)]
fn each(
    context: &ProgramContext,
    at: usize,
    body: &Expr,
    binders: &[Binder],
    scope: &Scope,
) -> Result<Datum, Halt>
    ensures { GathersTo context.now scope.now at binders.now body.now result }
{
    let columns = all_columns(context, binders, scope)?;
    let number = height(at, &columns)?;
    let values = rows(context, body, &columns, number, &*scope)?;
    Ok(sequence_of(values))
}

// A comprehension with a condition.
#[cycle(value)]
#[inline(never)]
fn each_where(
    context: &ProgramContext,
    at: usize,
    body: &Expr,
    binders: &[Binder],
    condition: &Expr,
    scope: &Scope,
) -> Result<Datum, Halt>
    ensures { SelectsTo context.now scope.now at binders.now body.now condition.now result }
{
    let columns = all_columns(context, binders, scope)?;
    let number = height(at, &columns)?;
    let values = rows_where(context, at, body, condition, &columns, number, &*scope)?;
    Ok(sequence_of(values))
}

/// The values of arguments, or of the items of a literal, from left to right.
#[cycle(value)]
#[inline(never)]
pub fn all_values(
    context: &ProgramContext,
    exprs: &[Expr],
    scope: &Scope,
) -> Result<Vec<Datum>, Halt>
    ensures { Answers values_in result (all_in context.now scope.now (trees_of exprs.now)) }
{
    let mut values = Vec::new(context.alloc);
    for expr in exprs {
        let value = value(context, expr, scope)?;
        add(&mut values, value)?;
    }
    Ok(values)
}

/// The names of a comprehension with the items of their sequences, which may differ in length.
#[cycle(value)]
#[inline(never)]
pub fn all_columns(
    context: &ProgramContext,
    binders: &[Binder],
    scope: &Scope,
) -> Result<Vec<Column>, Halt>
    ensures { ColumnsAre context.now scope.now binders.now result }
{
    let mut columns = Vec::new(context.alloc);
    for binder in binders {
        let sequence = value(context, &binder.source, scope)?;
        let items = into_items(binder.name.at, sequence)?;
        add_column(&mut columns, binder.name, items)?;
    }
    Ok(columns)
}

// The value of a body, where the name has this value.
#[cycle(value)]
#[inline(never)]
fn bind<'a>(
    context: &ProgramContext,
    name: Span,
    bound: &'a Datum,
    body: &Expr,
    scope: &'a Scope<'a>,
) -> Result<Datum, Halt>
    ensures { Answers value_of result (bound_in context.now scope.now name bound.now body.now) }
{
    let inner = Scope::Bound {
        name,
        value: bound,
        outer: scope,
    };
    let result = value(context, body, &inner)?;
    Ok(result)
}

// The item where the condition is true, and else nothing.
#[cycle(value)]
#[inline(never)]
fn kept(
    context: &ProgramContext,
    at: usize,
    item: &Expr,
    condition: &Expr,
    scope: &Scope,
) -> Result<Option<Datum>, Halt>
    ensures { Answers kept_values result (kept_in context.now scope.now at item.now condition.now) }
{
    let x = value(context, condition, scope)?;
    if truth(at, &x)? {
        let y = value(context, item, scope)?;
        Ok(Some(y))
    } else {
        Ok(None)
    }
}

// The values of a body at each row of these columns.
#[cycle(value)]
#[inline(never)]
fn rows<'a>(
    context: &ProgramContext,
    body: &Expr,
    columns: &'a [Column],
    number: usize,
    scope: &'a Scope<'a>,
) -> Result<Vec<Datum>, Halt>
    requires { are_level number columns.now ≡ true }
    ensures { RowsGive context.now scope.now body.now number columns.now result }
{
    let mut values = Vec::new(context.alloc);
    for index in 0..number {
        let row = Scope::Row {
            columns,
            index,
            outer: scope,
        };
        let value = value(context, body, &row)?;
        add(&mut values, value)?;
    }
    Ok(values)
}

// The same at the rows where the condition is true.
#[cycle(value)]
#[inline(never)]
fn rows_where<'a>(
    context: &ProgramContext,
    at: usize,
    body: &Expr,
    condition: &Expr,
    columns: &'a [Column],
    number: usize,
    scope: &'a Scope<'a>,
) -> Result<Vec<Datum>, Halt>
    requires { are_level number columns.now ≡ true }
    ensures { RowsKeep context.now scope.now at body.now condition.now number columns.now result }
{
    let mut values = Vec::new(context.alloc);
    for index in 0..number {
        let row = Scope::Row {
            columns,
            index,
            outer: scope,
        };
        let found = kept(context, at, body, condition, &row)?;
        add_found(&mut values, found)?;
    }
    Ok(values)
}

// A declared function at the values of its arguments.
#[cycle(value)]
#[inline(never)]
fn called(context: &ProgramContext, name: Span, values: &[Datum]) -> Result<Datum, Halt>
    ensures { Answers value_of result (called_in context.now name values.now) }
{
    let bytes = name.spelled(context.text);
    match find_function(bytes, context.text, context.functions) {
        Some((function, earlier)) => enter(context, name.at, function, earlier, values),
        None => Err(fault(FaultKind::Shape, name.at)),
    }
}

// The value of a function's body, which sees its parameters and the functions before it.
#[cycle(value)]
#[inline(never)]
fn enter(
    context: &ProgramContext,
    at: usize,
    function: &Function,
    earlier: &[Declaration],
    values: &[Datum],
) -> Result<Datum, Halt>
    ensures { Answers value_of result (entered_in context.now at function.now earlier.now values.now) }
{
    if function.parameters.len() != values.len() {
        return Err(fault(FaultKind::Shape, at));
    }
    let inner = ProgramContext {
        alloc: context.alloc,
        dialect: context.dialect,
        text: &*context.text,
        functions: &*earlier,
    };
    let scope = Scope::Parameters(&function.parameters, &*values);
    let result = value(&inner, &function.body, &scope)?;
    Ok(result)
}
