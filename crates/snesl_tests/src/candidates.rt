// Which names may stand at a place, and which of some names is nearest, by hand.

use snesl_advice::reach::{Candidates, candidates_at};
use snesl_look::nearest_of;
use snesl_syntax::{Program, parse};
use std::alloc::{AllocError, Global};
use std::test::Fail;

const PROGRAM: &[u8] =
    b"input n : int; function f(x : int) : int = a; function g(y : int) : int = b(y); \
let m = c in {d + e(r) : r in h; s in {1} | i} ++ {m}";

// Offsets, and what may stand there: of values, of functions, and nothing where no name stands.
const CANDIDATES: [(usize, &[u8]); 10] = [
    (43, b"values x "),
    (74, b"functions f "),
    (88, b"values n "),
    (94, b"values r s m n "),
    (98, b"functions f g "),
    (100, b"values r s m n "),
    (110, b"values m n "),
    (124, b"values r s m n "),
    (131, b"values m n "),
    (80, b""),
];

// What may stand there, in words.
fn told_of(alloc: Global, program: &Program, at: usize) -> Result<Vec<u8>, AllocError> {
    let mut told = Vec::new(alloc);
    let names = match candidates_at(alloc, program, at)? {
        Some(Candidates::Values(names)) => {
            told.extend_from_slice(b"values ")?;
            names
        }
        Some(Candidates::Functions(names)) => {
            told.extend_from_slice(b"functions ")?;
            names
        }
        None => Vec::new(alloc),
    };
    for name in &names {
        told.extend_from_slice(name.spelled(&program.text))?;
        told.extend_from_slice(b" ")?;
    }
    Ok(told)
}

#[test]
fn names_are_candidates(rt: HostRuntime) -> Result<(), Fail> {
    let program = parse(rt.alloc(), PROGRAM)?;
    for (at, want) in CANDIDATES {
        let told = told_of(rt.alloc(), &program, at)?;
        assert_eq!(rt; told.as_slice(), want, "at {at}");
    }
    Ok(())
}

#[test]
fn the_nearest_of_some_names_is_meant(rt: HostRuntime) -> Result<(), Fail> {
    let names = [
        Vec::from_slice(rt.alloc(), b"rows")?,
        Vec::from_slice(rt.alloc(), b"cost")?,
        Vec::from_slice(rt.alloc(), b"coast")?,
    ];
    assert_eq!(rt; nearest_of(rt.alloc(), &names, b"coat")?, Some(1));
    assert_eq!(rt; nearest_of(rt.alloc(), &names, b"total")?, None);
    Ok(())
}
