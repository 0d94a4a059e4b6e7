// The name that may be meant by one that is not bound: those that may stand there first, then the others.

ghost use Rattle.std.specs.Prelude.{◌<◌, ◌≤◌, length};

use crate::reach::{Candidates, candidates_at};
use crate::tokens::{BUILT_INS, begins_word, is_among, stands_in};
use snesl_data::word_len;
use snesl_grammar::Program;
use snesl_grammar::tree::Span;
use snesl_look::{near_name as near_anywhere, nearest_of};
use std::alloc::{AllocError, Global};

// The candidate that is meant by a name at a place, or else another one of the program, if one is.
pub(crate) fn near_name(
    alloc: Global,
    program: &Program,
    at: usize,
    name: &[u8],
) -> Result<Option<Vec<u8>>, AllocError> {
    let names = spelled_candidates(alloc, program, at)?;
    if let Some(near) = near_among(alloc, &names, name)? {
        return Ok(Some(near));
    }
    let text = program.text.as_slice();
    if let Some(other) = exchanged_anywhere(alloc, text, name)? {
        return Ok(Some(other));
    }
    if is_of_one_letter(name) {
        return Ok(None);
    }
    near_anywhere(alloc, text, at)
}

// A name of one letter is near to every other.
fn is_of_one_letter(name: &[u8]) -> bool {
    name.len() < 2
}

// The candidates, as the program spells them. Where a function is called the built-in ones may stand too.
fn spelled_candidates(
    alloc: Global,
    program: &Program,
    at: usize,
) -> Result<Vec<Vec<u8>>, AllocError> {
    let text = program.text.as_slice();
    let mut names = Vec::new(alloc);
    match candidates_at(alloc, program, at)? {
        Some(Candidates::Values(places)) => append_spelled(alloc, &mut names, text, &places)?,
        Some(Candidates::Functions(places)) => {
            append_spelled(alloc, &mut names, text, &places)?;
            append_built_ins(alloc, &mut names)?;
        }
        None => {}
    }
    Ok(names)
}

fn append_spelled(
    alloc: Global,
    names: &mut Vec<Vec<u8>>,
    text: &[u8],
    places: &[Span],
) -> Result<(), AllocError> {
    for place in places {
        let name = Vec::from_slice(alloc, place.spelled(text))?;
        names.push(name)?;
    }
    Ok(())
}

fn append_built_ins(alloc: Global, names: &mut Vec<Vec<u8>>) -> Result<(), AllocError> {
    for place in 0..BUILT_INS.len() {
        if begins_word(BUILT_INS, place) {
            let rest = &BUILT_INS[place..];
            let name = Vec::from_slice(alloc, &rest[..word_len(rest)])?;
            names.push(name)?;
        }
    }
    Ok(())
}

// The first of some names that is meant by a name: with two neighbouring letters of it exchanged, or else the nearest.
fn near_among(
    alloc: Global,
    names: &[Vec<u8>],
    name: &[u8],
) -> Result<Option<Vec<u8>>, AllocError> {
    if let Some(other) = exchanged_among(alloc, names, name)? {
        return Ok(Some(other));
    }
    if is_of_one_letter(name) {
        return Ok(None);
    }
    if let Some(number) = nearest_of(alloc, names, name)?
        && let Some(near) = names.get(number)
    {
        return Ok(Some(Vec::from_slice(alloc, near)?));
    }
    Ok(None)
}

// The name among some that a name is with two neighbouring letters exchanged, if there is one.
fn exchanged_among(
    alloc: Global,
    names: &[Vec<u8>],
    name: &[u8],
) -> Result<Option<Vec<u8>>, AllocError> {
    for place in 1..name.len() {
        let other = exchanged(alloc, name, place)?;
        for one in names {
            if other.as_slice() != name && one.as_slice() == other.as_slice() {
                return Ok(Some(other));
            }
        }
    }
    Ok(None)
}

// The same among the words of the program and the built-in functions.
fn exchanged_anywhere(
    alloc: Global,
    program: &[u8],
    name: &[u8],
) -> Result<Option<Vec<u8>>, AllocError> {
    for place in 1..name.len() {
        let other = exchanged(alloc, name, place)?;
        if other.as_slice() != name && (is_among(&other, BUILT_INS) || stands_in(program, &other)) {
            return Ok(Some(other));
        }
    }
    Ok(None)
}

// A name with the letter at a place and the one before it exchanged.
fn exchanged(alloc: Global, name: &[u8], place: usize) -> Result<Vec<u8>, AllocError>
    requires before { 1 ≤ place }
    requires within { place < length name.now }
{
    let mut other = Vec::from_slice(alloc, name)?;
    other.swap(place - 1, place);
    Ok(other)
}
