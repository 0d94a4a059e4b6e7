// Each public call once, with ample memory.

use snesl_data::{
    Counted, Datum, Dialect, Elements, FaultKind, Refusal, Ty, copy_datum, is_blank, text_of,
};
use snesl_grammar::lexer::{Token, TokenKind, tokens_of};
use snesl_run::console::complain;
use snesl_syntax::{Expr, Program, Span, parse};
use snesl_trials::Expected;
use snesl_types::check;
use snesl_values::{InputError, read_inputs};
use std::alloc::{AllocError, Global};
use std::io;
use std::io::{Read, Write};
use std::test::Fail;

// The pair of a truth value and a vector of sequences, `(true,[{1,-2},{}])`.
fn nested_datum(alloc: Global) -> Result<Datum, AllocError> {
    let numbers = vec![in alloc; Datum::Int(1), Datum::Int(-2)]?;
    let sequences = vec![in alloc; Datum::Seq(numbers), Datum::Seq(Vec::new(alloc))]?;
    let vector = Datum::Vec(Elements::of_data(alloc, sequences)?);
    let first = Box::new(alloc, Datum::Bool(true))?;
    Ok(Datum::Pair(first, Box::new(alloc, vector)?))
}

// The texts of a value and of its copy.
fn texts_of(alloc: Global, datum: &Datum) -> Result<(Vec<u8>, Vec<u8>), AllocError> {
    let copy = copy_datum(alloc, datum)?;
    Ok((text_of(alloc, datum)?, text_of(alloc, &copy)?))
}

#[test]
fn texts(rt: HostRuntime) -> Result<(), Fail> {
    let (text, copied) = texts_of(rt.alloc(), &nested_datum(rt.alloc())?)?;
    let wanted = b"(true,[{1,-2},{}])".as_slice();
    assert_eq!(rt; (text.as_slice(), copied.as_slice()), (wanted, wanted));
    Ok(())
}

// In the order of their numbers, from 1 on.
const FAULTS: [FaultKind; 9] = [
    FaultKind::Divide,
    FaultKind::Overflow,
    FaultKind::NegativeCount,
    FaultKind::Length,
    FaultKind::Part,
    FaultKind::The,
    FaultKind::EmptyMax,
    FaultKind::Index,
    FaultKind::Shape,
];

// In the order of their numbers, from 1 on, each with its offset.
const REFUSALS: [(Refusal, Option<usize>); 15] = [
    (Refusal::TooLong, None),
    (Refusal::Lex(7), Some(7)),
    (Refusal::Syntax(8), Some(8)),
    (Refusal::Deep, None),
    (Refusal::Name(9), Some(9)),
    (Refusal::Mismatch(10), Some(10)),
    (Refusal::Streamed(11), Some(11)),
    (Refusal::BadInput(12), Some(12)),
    (Refusal::TooBig, None),
    (Refusal::BadConfig, None),
    (Refusal::NoMemory, None),
    (Refusal::Output, None),
    (Refusal::NoThread, None),
    (Refusal::Read, None),
    (Refusal::Short, None),
];

// The first place of the faults that is not the number of what stands there, if there is one.
fn wrong_fault() -> Option<u8> {
    let mut number = 0u8;
    for fault in FAULTS {
        number = number.saturating_add(1);
        if fault.number() != number {
            return Some(number);
        }
    }
    None
}

// The same of the refusals, and of their offsets.
fn wrong_refusal() -> Option<u8> {
    let mut number = 0u8;
    for (refusal, at) in REFUSALS {
        number = number.saturating_add(1);
        if refusal.number() != number || refusal.at() != at {
            return Some(number);
        }
    }
    None
}

// What the ends of ranges and a blank are, and a byte that is none.
fn ranges_and_blanks() -> [bool; 5] {
    [
        Dialect::One.greatest() == 9_223_372_036_854_775_807,
        Dialect::One.has(-9_223_372_036_854_775_809),
        Dialect::Two.has(i128::MIN),
        is_blank(b'\t'),
        is_blank(b'x'),
    ]
}

// Where an input text that says nothing is bad, and how that is refused.
fn bad_input(alloc: Global) -> Option<(usize, Refusal)> {
    match read_inputs(Dialect::One, alloc, &[], b" \n=") {
        Err(InputError::Bad(at)) => Some((at, Refusal::from(InputError::Bad(at)))),
        _ => None,
    }
}

#[test]
fn numbers(rt: HostRuntime) {
    let wrong = (wrong_fault(), wrong_refusal());
    let told = (wrong, ranges_and_blanks(), bad_input(rt.alloc()));
    let wanted = (
        (None, None),
        [true, false, true, true, false],
        Some((2, Refusal::BadInput(2))),
    );
    assert_eq!(rt; told, wanted);
}

// How many bytes a counted reader of two gives, and how many of its calls fail.
fn counted_reader() -> io::Result<(usize, u64)> {
    let mut reader = Counted::new(b"ab".as_slice());
    Ok((reader.read(&mut [0u8; 4])?, reader.failures()))
}

// How many of three bytes and of none a counted writer takes, how many of its calls fail, and whether it has taken the three.
fn counted_writer(alloc: Global) -> io::Result<([usize; 2], u64, bool)> {
    let mut writer = Counted::new(Vec::new(alloc));
    let written = [writer.write(b"xyz")?, writer.write(b"")?];
    writer.flush()?;
    let failures = writer.failures();
    Ok((
        written,
        failures,
        writer.into_inner().as_slice() == b"xyz".as_slice(),
    ))
}

// The status of a complaint, and whether it says this.
fn complained(alloc: Global, line: &[u8]) -> (u8, bool) {
    let mut err = Counted::new(Vec::new(alloc));
    let status = complain(Refusal::NoMemory, &mut err);
    (status, err.into_inner().as_slice() == line)
}

#[test]
fn counted_calls(rt: HostRuntime) -> Result<(), Fail> {
    let told = (
        counted_reader()?,
        counted_writer(rt.alloc())?,
        complained(rt.alloc(), b"refused 11\n"),
    );
    assert_eq!(rt; told, ((2, 0), ([3, 0], 0, true), (4, true)));
    Ok(())
}

const TOKENS: [Token; 5] = [
    Token {
        kind: TokenKind::Name(1),
        at: 0,
    },
    Token {
        kind: TokenKind::AtMost,
        at: 1,
    },
    Token {
        kind: TokenKind::Integer(12),
        at: 3,
    },
    Token {
        kind: TokenKind::Append,
        at: 6,
    },
    Token {
        kind: TokenKind::Name(5),
        at: 8,
    },
];

// Texts of reserved words and signs, and how many tokens each has. None is a name.
const RESERVED: [(&[u8], usize); 6] = [
    (b"input function let in if then else true false", 9),
    (b"not and or int bool dialect iota", 7),
    (b"scan_add reduce_add reduce_max reduce_and reduce_or", 5),
    (b"length concat part the tab seq fst snd", 8),
    (b"( ) { } [ ] : ; , | =", 11),
    (b"== < <= > >= + ++ - * / % !", 12),
];

// Whether a text has these tokens.
fn are_tokens(alloc: Global, text: &[u8], tokens: &[Token]) -> Result<bool, Refusal> {
    Ok(tokens_of(alloc, text)?.as_slice() == tokens)
}

// How many tokens a text has, and how many of them are names.
fn counts_of(alloc: Global, text: &[u8]) -> Result<(usize, usize), Refusal> {
    let tokens = tokens_of(alloc, text)?;
    let mut names = 0usize;
    for token in &tokens {
        if matches!(token.kind, TokenKind::Name(_)) {
            names = names.saturating_add(1);
        }
    }
    Ok((tokens.len(), names))
}

#[test]
fn tokens_of_texts(rt: HostRuntime) -> Result<(), Fail> {
    assert!(rt; are_tokens(rt.alloc(), b"a<=12 ++iota_", &TOKENS)?);
    for (text, count) in RESERVED {
        assert_eq!(rt; counts_of(rt.alloc(), text)?, (count, 0));
    }
    Ok(())
}

// How many arguments a call has.
fn arguments_of(expr: &Expr) -> Option<usize> {
    match expr {
        Expr::Call { arguments, .. } => Some(arguments.len()),
        _ => None,
    }
}

// What a program is read as: its dialect, where its expression stands, how many arguments that has, and whether this name is
// spelled in it.
fn read_as(program: &Program, name: Span, spelled: &[u8]) -> (Dialect, usize, Option<usize>, bool) {
    (
        program.dialect(),
        program.expr.at(),
        arguments_of(&program.expr),
        name.spelled(&program.text) == spelled,
    )
}

// What a program is checked as: its dialect, where its expression stands, how many declarations it has, how many types of inputs,
// and whether its value is an integer.
fn checked_as(
    alloc: Global,
    program: &Program,
) -> Result<(Dialect, usize, usize, usize, bool), Refusal> {
    let typed = check(alloc, program)?;
    Ok((
        typed.dialect(),
        typed.program().expr.at(),
        typed.program().declarations.len(),
        typed.decls().len(),
        matches!(typed.ty(), Ty::Int),
    ))
}

#[test]
fn parsed(rt: HostRuntime) -> Result<(), Fail> {
    let program = parse(rt.alloc(), b" reduce_add({x * x : x in iota(4)})")?;
    let read = read_as(&program, Span { at: 13, len: 1 }, b"x");
    assert_eq!(rt; read, (Dialect::One, 1, Some(1), true));
    Ok(())
}

#[test]
fn checked(rt: HostRuntime) -> Result<(), Fail> {
    let program = parse(rt.alloc(), b" input n : int; input v : [bool]; n")?;
    let told = checked_as(rt.alloc(), &program)?;
    assert_eq!(rt; told, (Dialect::One, 34, 2, 2, true));
    Ok(())
}

// A program with an input text, and the line of its value.
const VALUES: [(&[u8], &[u8], &[u8]); 3] = [
    (b" reduce_add({x * x : x in iota(4)})", b"", b"14\n"),
    (
        b"dialect 2; 9223372036854775807 + 1",
        b"",
        b"9223372036854775808\n",
    ),
    (
        b"input n : int; input v : [bool]; (n, v)",
        b"n = 3; v = [true]",
        b"(3,[true])\n",
    ),
];

#[test]
fn lines_of_values(rt: HostRuntime) -> Result<(), Fail> {
    for (program, input, line) in VALUES {
        let expected = Expected::of(rt.alloc(), program, input)?;
        assert_eq!(rt; expected.line(), Some(line));
    }
    Ok(())
}
