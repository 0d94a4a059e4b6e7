// Values, built from the tokens of a text that spell them.

ghost use Rattle.std.specs.Prelude.{◌≡◌, option_map, IfOk, OnOk};
ghost use Rattle.snesl_data.specs.Values.{a_vec, value_of, values_of};
ghost use Rattle.snesl_data.specs.Builders.{built_in};
ghost use Rattle.snesl_values.specs.declared.builder.Pending.TheVariants.{Vector, Sequence, First, Second};
ghost use Rattle.snesl_values.specs.Places.{value_at, on_none, on_some, close_none, read_value, unlawful};
ghost use Rattle.snesl_values.specs.Pendings.{frames_of, frames_in, reading_of, reading_in, HasRead, OpensBracket};

use crate::marks::{Bracket, Mark, mark_at};
use snesl_data::{Builder, Datum};
use std::alloc::{AllocError, Global};

// What is open after the tokens read so far.
#[derive(Drop)]
pub(crate) enum Pending {
    // A vector with its elements so far.
    Vector(Builder),
    // A sequence with its items so far.
    Sequence(Vec<Datum>),
    // A pair whose first part comes next, or was just read.
    First,
    // A pair with this first part, whose second part comes next, or was just read.
    Second(Datum),
}

/// The value that the text spells from `place` on, an offset in bytes from its start, as a tree in
/// memory of its own. Where the text spells none there, the result is some value.
///
/// # Errors
///
/// `AllocError` where memory is refused.
pub fn datum_at(alloc: Global, text: &[u8], place: usize) -> Result<Datum, AllocError>
    ensures { IfOk result (λ datum. value_of datum ≡ value_at text.now place) }
{
    if place > text.len() {
        return Ok(Datum::Bool(false));
    }
    let mut pending = Vec::new(alloc);
    let mut last = None;
    let mut at = place;
    'tokens: loop {
        if pending.is_empty() && last.is_some() {
            return Ok(whole(&pending, last));
        }
        match mark_at(text, at) {
            Some(found) => {
                last = match last {
                    Some(datum) => behind_value(alloc, &mut pending, datum, found.mark)?,
                    None => before_value(alloc, &mut pending, found.mark)?,
                };
                at = found.end;
            }
            None => return Ok(whole(&pending, last)),
        }
    }
}

// The value at the end of the tokens: the last one that was read, where nothing is open.
fn whole(pending: &[Pending], last: Option<Datum>) -> Datum
    ensures { value_of result ≡ read_value (frames_of pending.now) (option_map value_of last) }
{
    if !pending.is_empty() {
        return Datum::Bool(false);
    }
    match last {
        Some(datum) => datum,
        None => Datum::Bool(false),
    }
}

// Reads a token where a value comes next. The result is the value that is whole then, if one is.
fn before_value(
    alloc: Global,
    pending: &mut Vec<Pending>,
    mark: Mark,
) -> Result<Option<Datum>, AllocError>
    ensures { HasRead result pending.new (on_none (frames_in pending.old) mark) }
{
    match mark {
        Mark::Number(number) => Ok(Some(Datum::Int(number))),
        Mark::Truth(truth) => Ok(Some(Datum::Bool(truth))),
        Mark::Open(bracket) => {
            open_bracket(alloc, pending, bracket)?;
            Ok(None)
        }
        Mark::Close(_) => close_empty(alloc, pending),
        _ => Ok(unlawful(pending)),
    }
}

// Opens a bracket where a value comes next.
fn open_bracket(
    alloc: Global,
    pending: &mut Vec<Pending>,
    bracket: Bracket,
) -> Result<(), AllocError>
    ensures { OnOk result (OpensBracket pending.old pending.new bracket) }
{
    match bracket {
        Bracket::Round => pending.push(Pending::First)?,
        Bracket::Square => pending.push(Pending::Vector(Builder::Empty))?,
        Bracket::Curly => pending.push(Pending::Sequence(Vec::new(alloc)))?,
    }
    Ok(())
}

// Closes a bracket where a value could come next. The result is the value that is whole then.
fn close_empty(alloc: Global, pending: &mut Vec<Pending>) -> Result<Option<Datum>, AllocError>
    ensures { HasRead result pending.new (close_none (frames_in pending.old)) }
{
    match pending.pop() {
        Some(Pending::Vector(elements)) => {
            let vector = vector_of(alloc, elements)?;
            Ok(Some(vector))
        }
        Some(Pending::Sequence(items)) => Ok(Some(Datum::Seq(items))),
        Some(Pending::First) => Ok(unlawful(pending)),
        Some(Pending::Second(_)) => Ok(unlawful(pending)),
        None => Ok(unlawful(pending)),
    }
}

// Reads a token after a value. The result is the value that is whole then, if one is.
fn behind_value(
    alloc: Global,
    pending: &mut Vec<Pending>,
    datum: Datum,
    mark: Mark,
) -> Result<Option<Datum>, AllocError>
    ensures { HasRead result pending.new (on_some (value_of datum) (frames_in pending.old) mark) }
{
    match pending.pop() {
        Some(Pending::Vector(elements)) => after_element(alloc, pending, elements, datum, mark),
        Some(Pending::Sequence(items)) => after_item(pending, items, datum, mark),
        Some(Pending::First) => after_first(pending, datum, mark),
        Some(Pending::Second(first)) => after_second(alloc, pending, first, datum, mark),
        None => Ok(Some(datum)),
    }
}

// The same after an element of a vector.
fn after_element(
    alloc: Global,
    pending: &mut Vec<Pending>,
    elements: Builder,
    datum: Datum,
    mark: Mark,
) -> Result<Option<Datum>, AllocError>
    ensures { HasRead result pending.new (reading_in pending.old (Vector elements) datum mark) }
{
    let mut all = elements;
    match mark {
        Mark::Comma => {
            all.push(alloc, datum)?;
            pending.push(Pending::Vector(all))?;
            Ok(None)
        }
        Mark::Close(_) => {
            all.push(alloc, datum)?;
            let vector = vector_of(alloc, all)?;
            Ok(Some(vector))
        }
        _ => Ok(unlawful(pending)),
    }
}

// The same after an item of a sequence.
fn after_item(
    pending: &mut Vec<Pending>,
    items: Vec<Datum>,
    datum: Datum,
    mark: Mark,
) -> Result<Option<Datum>, AllocError>
    ensures { HasRead result pending.new (reading_in pending.old (Sequence items) datum mark) }
{
    let mut all = items;
    match mark {
        Mark::Comma => {
            all.push(datum)?;
            pending.push(Pending::Sequence(all))?;
            Ok(None)
        }
        Mark::Close(_) => {
            all.push(datum)?;
            Ok(Some(Datum::Seq(all)))
        }
        _ => Ok(unlawful(pending)),
    }
}

// The same after the first part of a pair.
fn after_first(
    pending: &mut Vec<Pending>,
    datum: Datum,
    mark: Mark,
) -> Result<Option<Datum>, AllocError>
    ensures { HasRead result pending.new (reading_in pending.old First datum mark) }
{
    match mark {
        Mark::Comma => {
            pending.push(Pending::Second(datum))?;
            Ok(None)
        }
        _ => Ok(unlawful(pending)),
    }
}

// The same after the second part of a pair.
fn after_second(
    alloc: Global,
    pending: &mut Vec<Pending>,
    first: Datum,
    second: Datum,
    mark: Mark,
) -> Result<Option<Datum>, AllocError>
    ensures { HasRead result pending.new (reading_in pending.old (Second first) second mark) }
{
    match mark {
        Mark::Close(_) => {
            let a = Box::new(alloc, first)?;
            let b = Box::new(alloc, second)?;
            Ok(Some(Datum::Pair(a, b)))
        }
        _ => Ok(unlawful(pending)),
    }
}

// Gives up, since no value is spelled here: the result is some value, and nothing stays open.
fn unlawful(pending: &mut Vec<Pending>) -> Option<Datum>
    ensures { reading_of pending.new.items result ≡ unlawful }
{
    pending.clear();
    Some(Datum::Bool(false))
}

// The vector of these elements.
fn vector_of(alloc: Global, elements: Builder) -> Result<Datum, AllocError>
    ensures { IfOk result (λ datum. value_of datum ≡ a_vec (values_of (built_in elements))) }
{
    match elements.finish(alloc) {
        Ok(all) => Ok(Datum::Vec(all)),
        Err(_) => Err(AllocError),
    }
}
