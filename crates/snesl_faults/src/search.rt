// The search for the form at fault: each part of a form is searched before the form is evaluated.

ghost use Rattle.snesl_faults.specs.Faults.{MayStop};

use crate::finding::{Stop, spend};
use crate::parts::found_at;
use snesl_data::Datum;
use snesl_evaluation::{
    Column, Halt, ProgramContext, Scope, all_columns, all_values, find_function, value,
};
use snesl_grammar::tree::{Binder, Builtin, Declaration, Expr, Function, Span};

// The value of an expression, or the form at fault with the values of its parts. It is given up where memory is refused, where
// the values on the way have more elements than may be spent, and where the form at fault has no values to tell.
#[cycle(search)]
#[inline(never)]
pub(crate) fn search(
    context: &ProgramContext,
    expr: &Expr,
    scope: &Scope,
    budget: &mut usize,
) -> Result<Datum, Stop>
    ensures { MayStop context.now result }
{
    parts(context, expr, scope, budget)?;
    if is_dear(context, expr, scope, *budget) {
        return Err(Stop::GivenUp);
    }
    match value(context, expr, scope) {
        Ok(datum) => {
            if spend(budget, &datum) {
                Ok(datum)
            } else {
                Err(Stop::GivenUp)
            }
        }
        Err(Halt::NoMemory) => Err(Stop::GivenUp),
        Err(Halt::Faulted(fault)) => {
            if fault.at == expr.at() {
                Err(found_at(context, expr, scope, fault))
            } else {
                Err(Stop::GivenUp)
            }
        }
    }
}

// Whether the form counts further than may be spent.
fn is_dear(context: &ProgramContext, expr: &Expr, scope: &Scope, budget: usize) -> bool {
    match expr {
        Expr::Call {
            function: Builtin::Iota,
            arguments,
            ..
        } => match all_values(context, arguments, scope) {
            Ok(values) =>
                matches!(values.as_slice(), [Datum::Int(count)] if *count > budget as i128),
            Err(_) => false,
        },
        _ => false,
    }
}

// Searches all that a form evaluates.
#[cycle(search)]
#[inline(never)]
fn parts(
    context: &ProgramContext,
    expr: &Expr,
    scope: &Scope,
    budget: &mut usize,
) -> Result<(), Stop>
    ensures { MayStop context.now result }
{
    match expr {
        Expr::Integer { .. } | Expr::Truth { .. } | Expr::Name(_) => {}
        Expr::Binary { left, right, .. } => {
            search(context, left, scope, budget)?;
            search(context, right, scope, budget)?;
        }
        Expr::Prefix { operand, .. } => {
            search(context, operand, scope, budget)?;
        }
        Expr::Call { arguments, .. } => all(context, arguments, scope, budget)?,
        Expr::Apply {
            function,
            arguments,
        } => call(context, *function, arguments, scope, budget)?,
        Expr::Group { inner, .. } => {
            search(context, inner, scope, budget)?;
        }
        Expr::Pair { first, second, .. } => {
            search(context, first, scope, budget)?;
            search(context, second, scope, budget)?;
        }
        Expr::Let {
            name,
            value: bound,
            body,
            ..
        } => {
            let value = search(context, bound, scope, budget)?;
            bind(context, *name, &value, body, &*scope, budget)?;
        }
        Expr::If {
            condition,
            positive,
            negative,
            ..
        } => {
            if let Datum::Bool(true) = search(context, condition, scope, budget)? {
                search(context, positive, scope, budget)?;
            } else {
                search(context, negative, scope, budget)?;
            }
        }
        Expr::Literal { items, .. } => all(context, items, scope, budget)?,
        Expr::Filter {
            item,
            condition,
            ..
        } => filtered(context, item, condition, scope, budget)?,
        Expr::Each {
            body,
            binders,
            condition,
            ..
        } => {
            let columns = columns(context, binders, scope, budget)?;
            match condition {
                None => rows(context, body, &columns, &*scope, budget)?,
                Some(condition) => {
                    rows_where(context, body, condition, &columns, &*scope, budget)?;
                }
            }
        }
    }
    Ok(())
}

// Searches some.
#[cycle(search)]
#[inline(never)]
fn all(
    context: &ProgramContext,
    exprs: &[Expr],
    scope: &Scope,
    budget: &mut usize,
) -> Result<(), Stop>
    ensures { MayStop context.now result }
{
    for expr in exprs {
        search(context, expr, scope, budget)?;
    }
    Ok(())
}

// Searches a body where a name has this value.
#[cycle(search)]
#[inline(never)]
fn bind<'a>(
    context: &ProgramContext,
    name: Span,
    bound: &'a Datum,
    body: &Expr,
    scope: &'a Scope<'a>,
    budget: &mut usize,
) -> Result<(), Stop>
    ensures { MayStop context.now result }
{
    let inner = Scope::Bound {
        name,
        value: bound,
        outer: scope,
    };
    search(context, body, &inner, budget)?;
    Ok(())
}

// Searches a condition, and the item where it is true.
#[cycle(search)]
#[inline(never)]
fn filtered(
    context: &ProgramContext,
    item: &Expr,
    condition: &Expr,
    scope: &Scope,
    budget: &mut usize,
) -> Result<(), Stop>
    ensures { MayStop context.now result }
{
    if let Datum::Bool(true) = search(context, condition, scope, budget)? {
        search(context, item, scope, budget)?;
    }
    Ok(())
}

// The names of a comprehension with the items of their sequences, which are searched.
#[cycle(search)]
#[inline(never)]
fn columns(
    context: &ProgramContext,
    binders: &[Binder],
    scope: &Scope,
    budget: &mut usize,
) -> Result<Vec<Column>, Stop>
    ensures { MayStop context.now result }
{
    for binder in binders {
        search(context, &binder.source, scope, budget)?;
    }
    Ok(all_columns(context, binders, scope)?)
}

// Searches a body in each row.
#[cycle(search)]
#[inline(never)]
fn rows<'a>(
    context: &ProgramContext,
    body: &Expr,
    columns: &'a [Column],
    scope: &'a Scope<'a>,
    budget: &mut usize,
) -> Result<(), Stop>
    ensures { MayStop context.now result }
{
    for index in 0..height(columns) {
        let row = Scope::Row {
            columns,
            index,
            outer: scope,
        };
        search(context, body, &row, budget)?;
    }
    Ok(())
}

// Searches a condition in each row, and the body where it is true.
#[cycle(search)]
#[inline(never)]
fn rows_where<'a>(
    context: &ProgramContext,
    body: &Expr,
    condition: &Expr,
    columns: &'a [Column],
    scope: &'a Scope<'a>,
    budget: &mut usize,
) -> Result<(), Stop>
    ensures { MayStop context.now result }
{
    for index in 0..height(columns) {
        let row = Scope::Row {
            columns,
            index,
            outer: scope,
        };
        filtered(context, body, condition, &row, budget)?;
    }
    Ok(())
}

// The length of all columns, or 0 where they differ.
fn height(columns: &[Column]) -> usize {
    let height = match columns {
        [first, ..] => first.items.len(),
        [] => 0,
    };
    for column in columns {
        if column.items.len() != height {
            return 0;
        }
    }
    height
}

// Searches arguments, and the body of the function that is called.
#[cycle(search)]
#[inline(never)]
fn call(
    context: &ProgramContext,
    name: Span,
    arguments: &[Expr],
    scope: &Scope,
    budget: &mut usize,
) -> Result<(), Stop>
    ensures { MayStop context.now result }
{
    all(context, arguments, scope, budget)?;
    let values = all_values(context, arguments, scope)?;
    let bytes = name.spelled(context.text);
    match find_function(bytes, context.text, context.functions) {
        Some((function, earlier)) => enter(context, function, earlier, &values, budget),
        None => Ok(()),
    }
}

// Searches the body of a function, which sees its parameters and the functions before it.
#[cycle(search)]
#[inline(never)]
fn enter(
    context: &ProgramContext,
    function: &Function,
    earlier: &[Declaration],
    values: &[Datum],
    budget: &mut usize,
) -> Result<(), Stop>
    ensures { MayStop context.now result }
{
    let inner = ProgramContext {
        alloc: context.alloc,
        dialect: context.dialect,
        text: &*context.text,
        functions: &*earlier,
    };
    let scope = Scope::Parameters(&function.parameters, &*values);
    search(&inner, &function.body, &scope, budget)?;
    Ok(())
}
