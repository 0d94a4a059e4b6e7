// Items and their kinds, and the fault that is named.

use flow_messages::{Item, Kind};
use flow_values::{item_of_type, kept_type};
use kahn::faults::{named, named_fault};
use snesl_data::{Datum, Elements, Fault, FaultKind, Ty};
use std::alloc::{AllocError, Global};
use std::test::Fail;

// Which kinds a copy of an item fits.
fn fitting(item: Item) -> Result<[bool; 4], AllocError> {
    let copy = item.copy()?;
    Ok([
        Kind::Unit.fits(&copy),
        Kind::Bool.fits(&copy),
        Kind::Int.fits(&copy),
        Kind::Vec.fits(&copy),
    ])
}

// Which kinds items of four kinds fit: a vector, a unit, a truth value and an integer.
fn fits(alloc: Global) -> Result<[[bool; 4]; 4], AllocError> {
    let vector = Item::of_elements(Elements::of_data(alloc, Vec::new(alloc))?);
    Ok([
        fitting(vector)?,
        fitting(Item::Unit)?,
        fitting(Item::Bool(true))?,
        fitting(Item::Int(-7))?,
    ])
}

const SHAPE: Fault = Fault {
    kind: FaultKind::Shape,
    at: 0,
};

const LATE: Fault = Fault {
    kind: FaultKind::Divide,
    at: 9,
};

const EARLY: Fault = Fault {
    kind: FaultKind::The,
    at: 4,
};

const BESIDE: Fault = Fault {
    kind: FaultKind::Overflow,
    at: 4,
};

// The faults that are named of two.
fn of_two() -> [Fault; 3] {
    [named(SHAPE, LATE), named(LATE, EARLY), named(EARLY, BESIDE)]
}

// The faults that are named of four, of one and of none.
fn of_many() -> [Option<Fault>; 3] {
    [
        named_fault(&[SHAPE, LATE, EARLY, BESIDE]),
        named_fault(&[SHAPE]),
        named_fault(&[]),
    ]
}

// The type of pairs of integers.
fn pairs(alloc: Global) -> Result<Ty, AllocError> {
    let first = Box::new(alloc, Ty::Int)?;
    Ok(Ty::Pair(first, Box::new(alloc, Ty::Int)?))
}

// Whether the type is known of an item of the vector of this element, and of a copy of it, where it is asked for this type.
fn known(alloc: Global, datum: Datum, ty: &Ty) -> Result<[bool; 2], AllocError> {
    let all = Elements::of_data(alloc, vec![in alloc; datum]?)?;
    let of = kept_type(alloc, ty)?;
    let item = item_of_type(&of, all)?;
    let copy = item.copy()?;
    Ok([is_known(&item), is_known(&copy)])
}

fn is_known(item: &Item) -> bool {
    match item {
        Item::Typed(_) => true,
        _ => false,
    }
}

#[test]
fn types_are_known_of_vectors(rt: HostRuntime) -> Result<(), Fail> {
    let alloc = rt.alloc();
    let pair = Datum::Pair(
        Box::new(alloc, Datum::Int(1))?,
        Box::new(alloc, Datum::Int(2))?,
    );
    assert_eq!(rt; known(alloc, pair, &pairs(alloc)?)?, [true, true]);
    assert_eq!(rt;
        known(alloc, Datum::Int(1), &pairs(alloc)?)?,
        [false, false]
    );
    assert_eq!(rt; known(alloc, Datum::Int(1), &Ty::Int)?, [false, false]);
    Ok(())
}

#[test]
fn kinds_and_named_faults(rt: HostRuntime) -> Result<(), Fail> {
    let each_its_own = [
        [false, false, false, true],
        [true, false, false, false],
        [false, true, false, false],
        [false, false, true, false],
    ];
    let faults = ([LATE, EARLY, BESIDE], [Some(BESIDE), Some(SHAPE), None]);
    assert_eq!(rt;
        (fits(rt.alloc())?, (of_two(), of_many())),
        (each_its_own, faults)
    );
    Ok(())
}
