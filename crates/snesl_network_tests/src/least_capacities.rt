// The least capacities of programs, by hand.

use snesl_data::{Fault, FaultKind, Refusal};
use snesl_size::{Size, least_capacity, size_table};
use std::test::Fail;
use std::thread::Threads;

// While the first 300 elements go by, the second 300 wait.
const WAITING: &str = "let s = iota(300) in length(s ++ s)";

// What is found of a program: its least capacity, where it ends at one, and else the fault that it ends in, if there is one.
type Found = (Option<usize>, Option<Fault>);

// Programs, the steps of a visit, and what is found of each, or its refusal.
const FOUND: [(&str, usize, Result<Found, Refusal>); 7] = [
    ("1 + 2", 16, Ok((Some(1), None))),
    (WAITING, 16, Ok((Some(300), None))),
    ("let s = iota(4) in length(s ++ s)", 16, Ok((Some(4), None))),
    // It stalls at the greatest capacity too.
    (
        "let s = iota(65537) in length(s ++ s)",
        16,
        Ok((None, None)),
    ),
    // The fault is found after stalls.
    (
        "let s = iota(300) in length(s ++ s) / 0",
        16,
        Ok((
            None,
            Some(Fault {
                kind: FaultKind::Divide,
                at: 36,
            }),
        )),
    ),
    ("1 +", 16, Err(Refusal::Syntax(3))),
    ("1", 0, Err(Refusal::BadConfig)),
];

fn found_of<R: AllocGlobal + Threads>(
    rt: &R,
    program: &str,
    chunk: usize,
) -> Result<Found, Refusal> {
    match least_capacity(rt, rt.alloc(), program.as_bytes(), b"", chunk)? {
        Size::Ends { least, .. } => Ok((Some(least), None)),
        Size::Faults(fault) => Ok((None, Some(fault))),
        Size::NeverEnds => Ok((None, None)),
    }
}

#[test]
fn a_program_ends_from_its_least_capacity_on(rt: HostRuntime) {
    for (program, chunk, found) in FOUND {
        assert_eq!(rt; found_of(&rt, program, chunk), found, "{program}");
    }
}

#[test]
fn a_size_is_a_table(rt: HostRuntime) -> Result<(), Fail> {
    let Ok(
        Size::Ends {
            least,
            full,
            rested,
        },
    ) = least_capacity(&rt, rt.alloc(), WAITING.as_bytes(), b"", 16)
    else {
        return Err("it does not end")?;
    };
    let table = size_table(rt.alloc(), least, full, &rested)?;
    let want = b"least capacity: 300\nnodes: ";
    assert!(rt; table.starts_with(want));
    assert!(rt; full.is_some());
    Ok(())
}
