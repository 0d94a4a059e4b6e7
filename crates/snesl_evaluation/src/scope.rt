// What names and calls stand for.

ghost use Rattle.std.specs.Prelude.{◌≡◌, ℕ, List, true, IfOk, OnOk};
ghost use Rattle.snesl_values.specs.Inputs.{value_in};
ghost use Rattle.snesl_data.specs.Values.{value_of};
ghost use Rattle.snesl_evaluation.specs.Results.{Answers};
ghost use Rattle.snesl_evaluation.specs.Scopes.{are_level, bound_items_of, environment_in, first_height, item_named, named_in, named_values, row_names};
ghost use Rattle.snesl_evaluation.specs.Data.{found_value};
ghost use Rattle.snesl_evaluation.specs.Comprehensions.{AddsColumn, RowsInStep};

use crate::entries::{Entry, find_entry};
use crate::halt::{Halt, fault};
use snesl_data::{Datum, Dialect, FaultKind, copy_datum};
use snesl_grammar::tree::{Declaration, Span, Typing};
use std::alloc::{AllocError, Global};

/// What stays the same in one body: the dialect of the program, the text, in which names are
/// spelled, and the declarations whose functions may be called.
#[derive(Clone, Copy)]
pub struct ProgramContext<'a> {
    pub alloc: Global,
    pub dialect: Dialect,
    pub text: &'a [u8],
    pub functions: &'a [Declaration],
}

/// A name of a comprehension, and the items that it stands for in turn.
#[derive(Drop)]
pub struct Column {
    pub name: Span,
    pub items: Vec<Datum>,
}

/// What names stand for, the innermost first.
#[derive(Drop)]
pub enum Scope<'a> {
    Inputs(&'a [Entry]),
    /// As many values as parameters.
    Parameters(&'a [Typing], &'a [Datum]),
    Bound {
        name: Span,
        value: &'a Datum,
        outer: &'a Scope<'a>,
    },
    /// Each column's item at this index.
    Row {
        columns: &'a [Column],
        index: usize,
        outer: &'a Scope<'a>,
    },
}

// A copy of the value of a name.
#[inline(never)]
pub fn look_up(alloc: Global, name: Span, text: &[u8], scope: &Scope) -> Result<Datum, Halt>
    ensures { Answers value_of result (named_in text.now scope.now name) }
{
    match find(name.spelled(text), text, scope) {
        Some(datum) => Ok(copy_datum(alloc, datum)?),
        None => Err(fault(FaultKind::Shape, name.at)),
    }
}

// The value of a name.
fn find<'a>(name: &[u8], text: &[u8], scope: &'a Scope<'a>) -> Option<&'a Datum>
    ensures { found_value result ≡ value_in name.now (environment_in text.now scope.now) }
{
    match scope {
        Scope::Inputs(entries) => find_entry(name, entries),
        Scope::Parameters(parameters, values) => find_parameter(name, text, parameters, values),
        Scope::Bound {
            name: bound,
            value,
            outer,
        } => {
            if name == bound.spelled(text) {
                Some(value)
            } else {
                find(name, text, outer)
            }
        }
        Scope::Row {
            columns,
            index,
            outer,
        } => match find_in_row(name, text, columns, *index) {
            Some(datum) => Some(datum),
            None => find(name, text, outer),
        },
    }
}

fn find_parameter<'a>(
    name: &[u8],
    text: &[u8],
    parameters: &[Typing],
    values: &'a [Datum],
) -> Option<&'a Datum>
    ensures { found_value result ≡ value_in name.now (named_values text.now parameters.now values.now) }
{
    let (parameter, parameters) = parameters.split_first()?;
    let (value, values) = values.split_first()?;
    if name == parameter.name.spelled(text) {
        Some(value)
    } else {
        find_parameter(name, text, parameters, values)
    }
}

fn find_in_row<'a>(
    name: &[u8],
    text: &[u8],
    columns: &'a [Column],
    index: usize,
) -> Option<&'a Datum>
    ensures { found_value result ≡ value_in name.now (row_names text.now columns.now index) }
{
    let (column, columns) = columns.split_first()?;
    match find_in_column(name, text, column, index) {
        Some(item) => Some(item),
        None => find_in_row(name, text, columns, index),
    }
}

fn find_in_column<'a>(
    name: &[u8],
    text: &[u8],
    column: &'a Column,
    index: usize,
) -> Option<&'a Datum>
    ensures { found_value result ≡ item_named name.now index (bound_items_of text.now column.now) }
{
    if name == column.name.spelled(text) {
        column.items.get(index)
    } else {
        None
    }
}

pub fn add_column(
    columns: &mut Vec<Column>,
    name: Span,
    items: Vec<Datum>,
) -> Result<(), AllocError>
    ensures { (text : List ℕ) → OnOk result (AddsColumn text columns.old name items columns.new) }
{
    columns.push(Column { name, items })?;
    Ok(())
}

// The length of all columns.
pub fn height(at: usize, columns: &[Column]) -> Result<usize, Halt>
    ensures level { IfOk result (λ n. are_level n columns.now ≡ true) }
    ensures in_step { (text : List ℕ) → RowsInStep text at columns.now result }
{
    let height = first_height(columns);
    if are_level(columns, height) {
        Ok(height)
    } else {
        Err(fault(FaultKind::Length, at))
    }
}

fn first_height(columns: &[Column]) -> usize
    ensures { result ≡ first_height columns.now }
{
    match columns {
        [first, ..] => first.items.len(),
        [] => 0,
    }
}

fn are_level(columns: &[Column], height: usize) -> bool
    ensures { result ≡ are_level height columns.now }
{
    for column in columns {
        if column.items.len() != height {
            return false;
        }
    }
    true
}
