// Vectors that are shared and packed.

use snesl_data::{Builder, Datum, Elements, copy_datum, text_of};
use std::alloc::{AllocError, Global};
use std::test::Fail;

// The elements that a builder gathers of these.
fn gathered(alloc: Global, all: Vec<Datum>) -> Result<Elements, AllocError> {
    let mut builder = Builder::Empty;
    for datum in all {
        builder.push(alloc, datum)?;
    }
    builder.finish(alloc).map_err(|_| AllocError)
}

// The text of the element at a place, where there is one.
fn text_at(alloc: Global, elements: &Elements, place: usize) -> Result<Vec<u8>, AllocError> {
    match elements.at(alloc, place)? {
        Some(datum) => text_of(alloc, &datum),
        None => Ok(Vec::new(alloc)),
    }
}

// Of a vector of these: the text of a copy that outlives it, the text of the element at place 1, and whether there are as
// many elements and as many copies of them as texts.
fn told(alloc: Global, all: Vec<Datum>) -> Result<(Vec<u8>, Vec<u8>, bool), AllocError> {
    let count = all.len();
    let elements = gathered(alloc, all)?;
    let vector = Datum::Vec(elements.share()?);
    let copy = copy_datum(alloc, &vector)?;
    drop(vector);
    let second = text_at(alloc, &elements, 1)?;
    let data = elements.data(alloc)?;
    let counts = elements.len() == count && data.len() == count;
    drop(elements);
    Ok((text_of(alloc, &copy)?, second, counts))
}

const WIDE: i128 = 9_223_372_036_854_775_808;

// Whether a vector of these is told so.
fn is_told(alloc: Global, all: Vec<Datum>, text: &[u8], second: &[u8]) -> Result<bool, AllocError> {
    let (said, at, counts) = told(alloc, all)?;
    Ok(counts && said.as_slice() == text && at.as_slice() == second)
}

#[test]
fn scalars_are_packed(rt: HostRuntime) -> Result<(), Fail> {
    let alloc = rt.alloc();
    let ints = vec![in alloc; Datum::Int(4), Datum::Int(-5), Datum::Int(6)]?;
    assert!(rt; is_told(alloc, ints, b"[4,-5,6]", b"-5")?);
    let wides = vec![in alloc; Datum::Int(4), Datum::Int(WIDE), Datum::Int(-6)]?;
    assert!(rt;
        is_told(
            alloc,
            wides,
            b"[4,9223372036854775808,-6]",
            b"9223372036854775808"
        )?
    );
    let truths = vec![in alloc; Datum::Bool(true), Datum::Bool(false)]?;
    assert!(rt; is_told(alloc, truths, b"[true,false]", b"false")?);
    assert!(rt; is_told(alloc, Vec::new(alloc), b"[]", b"")?);
    Ok(())
}

#[test]
fn elements_of_several_kinds_are_not(rt: HostRuntime) -> Result<(), Fail> {
    let alloc = rt.alloc();
    let mixed = vec![in alloc; Datum::Int(4), Datum::Bool(true), Datum::Int(6)]?;
    assert!(rt; is_told(alloc, mixed, b"[4,true,6]", b"true")?);
    let wide = vec![in alloc; Datum::Int(WIDE), Datum::Bool(true)]?;
    assert!(rt; is_told(alloc, wide, b"[9223372036854775808,true]", b"true")?);
    let other = vec![in alloc; Datum::Bool(true), Datum::Int(1)]?;
    assert!(rt; is_told(alloc, other, b"[true,1]", b"1")?);
    let inner = gathered(alloc, vec![in alloc; Datum::Int(1), Datum::Int(2)]?)?;
    let vectors = vec![in alloc; Datum::Vec(inner.share()?), Datum::Vec(inner)]?;
    assert!(rt; is_told(alloc, vectors, b"[[1,2],[1,2]]", b"[1,2]")?);
    Ok(())
}

// A vector of one vector of one vector .., so deep.
fn nested(alloc: Global, depth: usize) -> Result<Datum, AllocError> {
    let mut datum = Datum::Int(7);
    for _ in 0..depth {
        datum = Datum::Vec(Elements::of_data(alloc, vec![in alloc; datum]?)?);
    }
    Ok(datum)
}

// Whether a copy of a deep value outlives it.
fn outlives(alloc: Global, depth: usize) -> Result<bool, AllocError> {
    let datum = nested(alloc, depth)?;
    let copy = copy_datum(alloc, &datum)?;
    drop(datum);
    Ok(matches!(copy, Datum::Vec(_)))
}

#[test]
fn deep_vectors_are_dropped(rt: HostRuntime) -> Result<(), Fail> {
    for depth in [1usize, 64, 1_000] {
        assert!(rt; outlives(rt.alloc(), depth)?);
    }
    Ok(())
}
