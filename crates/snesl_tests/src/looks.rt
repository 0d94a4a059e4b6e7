// What a person is shown of a job that went wrong, by tables: places, names that may be meant, functions, types and messages.

use snesl_data::{Fault, FaultKind, Refusal, Ty};
use snesl_look::{
    Enough, Position, caret_line, clash_note, clash_sentence, fault_message, function_at, line_at,
    near_name, noted_message, position_of, refusal_message, shown_line, stalled_message,
};
use snesl_types::Clash;
use std::alloc::{AllocError, Global};
use std::test::Fail;

const TEXT: &[u8] = b"let x = 1 in\n\tx +\n\n  true\n";

// Texts and offsets, each with its line and its column, which are counted from one, and the text of the line. An offset after the end is
// the end.
const PLACES: [(&[u8], usize, usize, usize, &[u8]); 10] = [
    (TEXT, 0, 1, 1, b"let x = 1 in"),
    (TEXT, 12, 1, 13, b"let x = 1 in"),
    (TEXT, 13, 2, 1, b"\tx +"),
    (TEXT, 16, 2, 4, b"\tx +"),
    (TEXT, 18, 3, 1, b""),
    (TEXT, 21, 4, 3, b"  true"),
    (TEXT, 26, 5, 1, b""),
    (TEXT, 27, 5, 1, b""),
    (b"1 +", 9, 1, 4, b"1 +"),
    (b"", usize::MAX, 1, 1, b""),
];

#[test]
fn a_place_is_a_line_and_a_column(rt: HostRuntime) {
    for (text, offset, line, column, shown) in PLACES {
        assert_eq!(rt;
            position_of(text, offset),
            Position { line, column },
            "at {offset}"
        );
        assert_eq!(rt; line_at(text, offset), shown, "at {offset}");
    }
}

// Lines and columns, each with the line below that has a caret under the column. A letter of two bytes is one character.
const CARETS: [(&[u8], usize, &[u8]); 3] = [
    (b"\tx +", 4, b"\t  ^"),
    (b"\xc3\xa9 x", 4, b"  ^"),
    (b"1 +", 9, b"   ^"),
];

#[test]
fn a_caret_stands_under_its_column(rt: HostRuntime) -> Result<(), Fail> {
    for (line, column, caret) in CARETS {
        assert_eq!(rt; caret_line(rt.alloc(), line, column)?.as_slice(), caret);
    }
    // Control characters are not shown.
    let shown = shown_line(rt.alloc(), b"\t1\x1b[\x7f\r")?;
    assert_eq!(rt; shown.as_slice(), b"\t1 [  ".as_slice());
    Ok(())
}

// Programs with an unbound name at an offset, and the name that may be meant, nothing where there is none.
const NEAR: [(&[u8], usize, &[u8]); 7] = [
    // The first of the nearest.
    (
        b"let totem = 1 in let total = 2 in let totals = 3 in totl",
        52,
        b"total",
    ),
    (b"input hat : int; input cat : int; bat", 34, b"hat"),
    // A built-in function may be meant, but no keyword.
    (b"reduce_sdd({1})", 0, b"reduce_add"),
    (b"let a = 1 in lett", 13, b""),
    // Three bytes are too many.
    (b"let abcdef = 1 in abcxyz", 18, b""),
    // The name is bound, but not here.
    (
        b"input totals : int; input total : int; function f(x : int) : int = total; 1",
        67,
        b"",
    ),
    // 65 bytes are too many.
    (&[b'a'; 65], 0, b""),
];

#[test]
fn a_near_name_is_meant(rt: HostRuntime) -> Result<(), Fail> {
    for (program, at, name) in NEAR {
        let near = near_name(rt.alloc(), program, at)?.unwrap_or(Vec::new(rt.alloc()));
        assert_eq!(rt; near.as_slice(), name, "at {at}");
    }
    Ok(())
}

const PROGRAM: &[u8] =
    b"dialect 2; input n : int;\nfunction half(x : int) : int = {x : y in {1}; z in {2}} ! 0;\nhalf(n) + {a : b in {1}; c in {2}} ! 0";

// Offsets, and the function in which each stands. A semicolon in a bracket ends no declaration, and an input is no function.
const FUNCTIONS: [(&[u8], usize, Option<&[u8]>); 6] = [
    (PROGRAM, 12, None),
    (PROGRAM, 58, Some(b"half")),
    (PROGRAM, 83, Some(b"half")),
    (PROGRAM, 95, None),
    (PROGRAM, 111, None),
    (b"", 0, None),
];

#[test]
fn a_place_is_in_a_function(rt: HostRuntime) {
    for (program, at, function) in FUNCTIONS {
        assert_eq!(rt; function_at(program, at), function, "at {at}");
    }
}

// What is said of operands that do not fit.
fn operands_message(alloc: Global) -> Result<Vec<u8>, AllocError> {
    let clash = Clash::Operands(Ty::Int, Ty::Bool);
    let sentence = clash_sentence(&clash).as_bytes();
    let notes = [
        clash_note(alloc, &clash)?,
        Vec::from_slice(alloc, b"a further note")?,
    ];
    noted_message(
        alloc,
        sentence,
        b"x + true",
        2,
        " of a text",
        &notes,
        b"a hint",
    )
}

#[test]
fn a_mismatch_tells_the_types_of_its_operands(rt: HostRuntime) -> Result<(), Fail> {
    let message = operands_message(rt.alloc())?;
    let want = b"error: the operator does not take values of these types
 --> line 1, column 3 of a text
  |
1 | x + true
  |   ^
  = note: the operands are of the types `int`, `bool`
  = note: a further note
  = hint: a hint
";
    assert_eq!(rt; message.as_slice(), want.as_slice());
    Ok(())
}

// Refusals of jobs, by program and input text, and their messages: in the line of the program; with the name that may be meant, and with
// none; in the input text; with no place.
const REFUSALS: [(Refusal, &[u8], &[u8], &[u8]); 5] = [
    (
        Refusal::Mismatch(15),
        b"let x = 1 in\nx + true",
        b"",
        b"error: a value of another type, or another number of values, is needed here
 --> line 2, column 3
  |
2 | x + true
  |   ^
  = hint: operators take single values; for each element of a sequence `s` write `{x + 1 : x in s}`
",
    ),
    (
        Refusal::Name(17),
        b"let total = 1 in totl + 1",
        b"",
        b"error: this name is not bound here, or it is bound twice
 --> line 1, column 18
  |
1 | let total = 1 in totl + 1
  |                  ^
  = hint: did you mean `total`?
",
    ),
    (
        Refusal::Name(0),
        b"total + 1",
        b"",
        b"error: this name is not bound here, or it is bound twice
 --> line 1, column 1
  |
1 | total + 1
  | ^
  = hint: a function sees its parameters and the functions before it, and no inputs
",
    ),
    (
        Refusal::BadInput(20),
        b"a + b",
        b"a = 1;\n\n\n\n\n\n\n\n\n\tb = }",
        b"error: the input text is not as the program declares its inputs
  --> line 10, column 6 of the input text
   |
10 | \tb = }
   | \t    ^
   = hint: each input in order, as `n = 1; v = [1,2]; s = {(1,true)}`
",
    ),
    (
        Refusal::Read,
        b"1",
        b"",
        b"error: the job could not be read\n",
    ),
];

#[test]
fn a_refusal_is_shown_where_it_stands(rt: HostRuntime) -> Result<(), Fail> {
    for (refusal, program, input, want) in REFUSALS {
        let message = refusal_message(rt.alloc(), refusal, program, input)?;
        assert_eq!(rt; message.as_slice(), want);
    }
    // Of a long line a part is shown.
    let message = refusal_message(rt.alloc(), Refusal::Name(100), &[b'X'; 200], b"")?;
    assert_eq!(rt; message.iter().filter(|byte| **byte == b'X').count(), 120);
    Ok(())
}

#[test]
fn a_fault_names_its_function(rt: HostRuntime) -> Result<(), Fail> {
    let fault = Fault {
        kind: FaultKind::NegativeCount,
        at: 31,
    };
    let program = b"function f(x : int) : {int} =\n iota(x);\nf(-1)";
    let message = fault_message(rt.alloc(), fault, program)?;
    let want = b"error: `iota` was given a negative number
 --> line 2, column 2
  |
2 |  iota(x);
  |  ^
  = note: this is in the function `f`; which call of it led here is not known
";
    assert_eq!(rt; message.as_slice(), want.as_slice());
    Ok(())
}

// What is known of stalls: the program, the place of the form whose stream is full, how many messages are enough; and their messages.
const STALLS: [(&[u8], Option<usize>, Enough, &[u8]); 3] = [
    (
        b"",
        None,
        Enough::Unknown,
        b"error: the program has stalled: its edges hold too few messages
  = hint: let them hold more, as by `--capacity 4096`, at most 65536
",
    ),
    (
        b"",
        None,
        Enough::Messages(301),
        b"error: the program has stalled: its edges hold too few messages
  = note: 301 messages are enough, as by `--capacity 301`
",
    ),
    (
        b"let s =\n iota(300) in\nlength(s ++ s)",
        Some(9),
        Enough::Messages(300),
        b"error: the program has stalled: its edges hold too few messages
 --> line 2, column 2
  |
2 |  iota(300) in
  |  ^
  = note: a stream that this form writes is full
  = note: 300 messages are enough, as by `--capacity 300`
",
    ),
];

#[test]
fn a_stall_tells_what_is_known_of_it(rt: HostRuntime) -> Result<(), Fail> {
    for (program, at, enough, want) in STALLS {
        let message = stalled_message(rt.alloc(), program, at, enough)?;
        assert_eq!(rt; message.as_slice(), want);
    }
    Ok(())
}
