// What is said of types that do not fit.

ghost use Rattle.std.specs.Prelude.{IfOk};
ghost use Rattle.snesl_advice.specs.Told.{IsAdviceAt};

use crate::telling::tell;
use crate::tokens::{quoted, token_at};
use snesl_data::Ty;
use snesl_look::{clash_note, clash_sentence};
use snesl_types::Clash;
use std::alloc::{AllocError, Global};

const INT: &str = " takes values of the type `int`";

const TRUTH: &str = " takes values of the type `bool`";

const INTS: &str = " takes one sequence of integers, `{int}`";

const TRUTHS: &str = " takes one sequence of truth values, `{bool}`";

const ANY: &str = " takes one sequence";

// What the operators and built-in functions take.
const TAKES: [(&str, &str); 31] = [
    ("+", INT),
    ("-", INT),
    ("*", INT),
    ("/", INT),
    ("%", INT),
    ("<", INT),
    ("<=", INT),
    (">", INT),
    (">=", INT),
    (
        "==",
        " takes two values of the type `int`, or two of the type `bool`",
    ),
    ("and", TRUTH),
    ("or", TRUTH),
    ("not", TRUTH),
    ("++", " takes two sequences of one type"),
    (
        "!",
        " takes a vector before it, and an index of the type `int` after it",
    ),
    ("iota", " takes one value of the type `int`"),
    ("scan_add", INTS),
    ("reduce_add", INTS),
    ("reduce_max", INTS),
    ("reduce_and", TRUTHS),
    ("reduce_or", TRUTHS),
    ("length", ANY),
    ("the", ANY),
    ("concat", " takes one sequence of sequences, as `{{int}}`"),
    (
        "part",
        " takes a sequence, and a sequence of truth values, `{bool}`",
    ),
    ("tab", ANY),
    ("seq", " takes one vector, as `[int]`"),
    ("fst", " takes one pair"),
    ("snd", " takes one pair"),
    ("true", ""),
    ("false", ""),
];

/// What is said of types that do not fit: what is wrong, the types that stand there, what the operator or built-in function at
/// the offset takes, and what may help. It is told at the place. Both count bytes of the program from 0. The error is that memory
/// was refused.
pub fn mismatch_message(
    alloc: Global,
    program: &[u8],
    at: usize,
    clash: &Clash,
    place: usize,
) -> Result<Vec<u8>, AllocError>
    ensures { IfOk result (IsAdviceAt program.now place) }
{
    let found = token_at(program, at.min(program.len()));
    let mut notes = Vec::new(alloc);
    notes.push(clash_note(alloc, clash)?)?;
    if let Some(takes) = taken_by(clash, found) {
        notes.push(quoted(alloc, b"", found, takes.as_bytes())?)?;
    }
    let sentence = clash_sentence(clash).as_bytes();
    let hint = remedy(clash, found).as_bytes();
    tell(alloc, program, place, sentence, &notes, hint)
}

// What the operator or built-in function takes.
fn taken_by(clash: &Clash, found: &[u8]) -> Option<&'static str> {
    match clash {
        Clash::Operands(_, _) | Clash::Operand(_) | Clash::Arguments(_) => {
            for (word, takes) in TAKES {
                if found == word.as_bytes() {
                    return Some(takes);
                }
            }
            None
        }
        _ => None,
    }
}

// What may help.
fn remedy(clash: &Clash, found: &[u8]) -> &'static str {
    match clash {
        Clash::Operands(left, right) => remedy_of_operands(left, right, found),
        Clash::Operand(Ty::Seq(_)) if found == b"not".as_slice() =>
            "for each element of a sequence `b` write `{not x : x in b}`",
        Clash::Operand(Ty::Int) if found == b"not".as_slice() =>
            "that an integer is 0 is written `x == 0`",
        Clash::Operand(Ty::Seq(_)) => "for each element of a sequence `s` write `{-x : x in s}`",
        Clash::Arguments(types) => remedy_of_arguments(types, found),
        Clash::Condition(Ty::Seq(_)) => "`reduce_or(b)` tells whether one of a sequence is true",
        Clash::Branches {
            condition: Ty::Seq(_),
            ..
        } => "`reduce_or(b)` tells whether one of a sequence is true",
        Clash::Condition(Ty::Int) => "that an integer is not 0 is written `not (x == 0)`",
        Clash::Branches {
            condition: Ty::Int,
            ..
        } => "that an integer is not 0 is written `not (x == 0)`",
        Clash::Source(Ty::Vec(_)) => "the sequence of a vector `v` is `seq(v)`",
        Clash::Source(Ty::Int) => "the integers below `n` are `iota(n)`",
        _ => "",
    }
}

// And of an operator's two operands.
fn remedy_of_operands(left: &Ty, right: &Ty, found: &[u8]) -> &'static str {
    match (left, right) {
        (Ty::Seq(_), Ty::Int) if found == b"!".as_slice() =>
            "the vector of a sequence `s` is `tab(s)`",
        (Ty::Vec(_), Ty::Vec(_)) if found == b"++".as_slice() =>
            "two vectors are joined by `tab(seq(v) ++ seq(w))`",
        (_, _) if found == b"++".as_slice() || found == b"!".as_slice() => "",
        (Ty::Seq(_), Ty::Seq(_)) => "two sequences go side by side in `{(x, y) : x in s; y in t}`",
        (Ty::Seq(_), _) | (_, Ty::Seq(_)) =>
            "for each element of a sequence `s` write `{x + 1 : x in s}`",
        (Ty::Vec(_), _) | (_, Ty::Vec(_)) =>
            "for each element of a vector `v` write `{x + 1 : x in seq(v)}`",
        (Ty::Bool, Ty::Int) | (Ty::Int, Ty::Bool) =>
            "an integer for a truth value is `if b then 1 else 0`",
        _ => "",
    }
}

// And of a built-in function's arguments.
fn remedy_of_arguments(types: &[Ty], found: &[u8]) -> &'static str {
    match types {
        [Ty::Vec(_)] => "the sequence of a vector `v` is `seq(v)`",
        [Ty::Seq(_)] if found == b"seq".as_slice() => "the vector of a sequence `s` is `tab(s)`",
        [Ty::Seq(_)] if found == b"iota".as_slice() =>
            "for each element of a sequence `s` write `{iota(x) : x in s}`",
        _ => "",
    }
}
