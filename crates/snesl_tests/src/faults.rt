// What faults tell, by hand.

use snesl_data::{Fault, FaultKind, Refusal};
use snesl_faults::{note_of, values_at_fault};
use snesl_syntax::parse;
use snesl_types::check;
use snesl_values::read_inputs;
use std::alloc::Global;
use std::test::Fail;

// Programs that end in a fault, its kind and offset, and what is said of the values there.
const TOLD: [(&str, FaultKind, usize, &str); 17] = [
    ("1 / 0", FaultKind::Divide, 2, "the operands are 1 and 0"),
    (
        "{7 % x : x in {5,0,2}}",
        FaultKind::Divide,
        3,
        "the operands are 7 and 0",
    ),
    (
        "9223372036854775807 + 1",
        FaultKind::Overflow,
        20,
        "the operands are 9223372036854775807 and 1",
    ),
    (
        "-(0 - 9223372036854775807 - 1)",
        FaultKind::Overflow,
        0,
        "the operand is -9223372036854775808",
    ),
    (
        "reduce_add({9223372036854775807,0,1})",
        FaultKind::Overflow,
        0,
        "the sequence has 3 elements",
    ),
    (
        "scan_add({9223372036854775807,1,0})",
        FaultKind::Overflow,
        0,
        "the sequence has 3 elements",
    ),
    (
        "iota(0 - 1)",
        FaultKind::NegativeCount,
        0,
        "the argument is -1",
    ),
    (
        "{a + b : a in {1,2}; b in {1}}",
        FaultKind::Length,
        0,
        "the sequences have 2 elements and 1 element",
    ),
    (
        "part({1}, {false})",
        FaultKind::Part,
        0,
        "the sequence has 1 element and the flags have 1 element",
    ),
    (
        "the({1,2})",
        FaultKind::The,
        0,
        "the sequence has 2 elements",
    ),
    (
        "tab({7,8}) ! 2",
        FaultKind::Index,
        11,
        "the vector has 2 elements and the index is 2",
    ),
    (
        "let v = tab({7,8}) in (1, v ! (0 - 1))",
        FaultKind::Index,
        28,
        "the vector has 2 elements and the index is -1",
    ),
    (
        "if 1 < 2 then the({1 | false}) else 0",
        FaultKind::The,
        14,
        "the sequence has 0 elements",
    ),
    (
        "{8 / (x - 2) : x in iota(4) | x > 0}",
        FaultKind::Divide,
        3,
        "the operands are 8 and 0",
    ),
    (
        "{x : x in {1,2} | 3 / (x - 2) < 9}",
        FaultKind::Divide,
        20,
        "the operands are 3 and 0",
    ),
    (
        "{1 / (2 - 2) | true}",
        FaultKind::Divide,
        3,
        "the operands are 1 and 0",
    ),
    (
        "function half(x : int, y : int) : int = x / y; {half(10, y) : y in {5,0}}",
        FaultKind::Divide,
        42,
        "the operands are 10 and 0",
    ),
];

// What is said of the values at a fault of a program without inputs.
fn note_at(alloc: Global, program: &str, fault: Fault) -> Result<Option<Vec<u8>>, Refusal> {
    let parsed = parse(alloc, program.as_bytes())?;
    let typed = check(alloc, &parsed)?;
    let inputs = read_inputs(typed.dialect(), alloc, typed.decls(), b"")?;
    match values_at_fault(alloc, &parsed, &inputs, fault) {
        Some(values) => Ok(note_of(alloc, fault.kind, &values)?),
        None => Ok(None),
    }
}

#[test]
fn a_fault_tells_values(rt: HostRuntime) -> Result<(), Fail> {
    for (program, kind, at, want) in TOLD {
        match note_at(rt.alloc(), program, Fault { kind, at })? {
            Some(note) => assert_eq!(rt; note.as_slice(), want.as_bytes(), "{program}"),
            None => assert!(rt; false, "{program}"),
        }
    }
    Ok(())
}

// Programs in which evaluation does not come to a division by zero at this offset, or not soon.
const NOT_TOLD: [(&str, usize); 3] = [
    ("1 + 0", 2),
    ("(1 / 0, 1 / 0)", 10),
    ("let s = iota(100000000) in 1 / 0", 29),
];

#[test]
fn of_other_faults_nothing_is_told(rt: HostRuntime) -> Result<(), Fail> {
    let kind = FaultKind::Divide;
    for (program, at) in NOT_TOLD {
        let note = note_at(rt.alloc(), program, Fault { kind, at })?;
        assert!(rt; note.is_none(), "{program}");
    }
    Ok(())
}
