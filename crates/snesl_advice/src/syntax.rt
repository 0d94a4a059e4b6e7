// What is said of a program that is no program.

ghost use Rattle.std.specs.Prelude.{◌≡◌, ◌≤◌, IfOk, length};
ghost use Rattle.snesl_advice.specs.Told.{IsAdviceAt, shown_place};

use crate::brackets::open_bracket;
use crate::following::{Follower, followers};
use crate::habits::habit_at;
use crate::telling::tell;
use crate::tokens::{
    BUILT_INS, KEYWORDS, after_blanks, is_among, last_word, length_without_blanks, quoted, token_at,
};
use snesl_data::word_len;
use snesl_look::position_of;
use std::alloc::{AllocError, Global};

/// What is said of a program that a token ends, or that ends too early: what stands there; what could stand there; which bracket
/// is open, and since where; and what may help. The error is that memory was refused.
pub fn syntax_message(alloc: Global, program: &[u8], at: usize) -> Result<Vec<u8>, AllocError>
    ensures { IfOk result (IsAdviceAt program.now (shown_place program.now at)) }
{
    let place = shown_place(program, at);
    let at = at.min(program.len());
    let following = followers(alloc, program, at)?;
    let open = open_bracket(alloc, program, at)?;
    let found = token_at(program, at);
    let mut notes = Vec::new(alloc);
    if !following.is_empty() {
        notes.push(expected_note(alloc, &following)?)?;
    }
    if let Some(bracket) = open {
        notes.push(open_note(alloc, program, bracket)?)?;
    }
    let sentence = sentence_of(alloc, program, found, open)?;
    let hint = hint_of(alloc, program, at, found, &following, open)?;
    tell(alloc, program, place, &sentence, &notes, &hint)
}

// Where it is shown: at the end of a program, before the blanks there.
pub(crate) fn shown_place(program: &[u8], at: usize) -> usize
    ensures { result ≡ shown_place program.now at }
{
    if program.len() <= at {
        length_without_blanks(program)
    } else {
        at
    }
}

// What went wrong.
fn sentence_of(
    alloc: Global,
    program: &[u8],
    found: &[u8],
    open: Option<usize>,
) -> Result<Vec<u8>, AllocError> {
    if !found.is_empty() {
        return quoted(alloc, b"", found, b" cannot stand here");
    }
    match open {
        Some(bracket) if bracket < program.len() => quoted(
            alloc,
            b"the program ends inside ",
            &program[bracket..bracket + 1],
            b"",
        ),
        _ => Vec::from_slice(alloc, b"the program ends too early"),
    }
}

// What could stand there: `expected A, B or C`.
fn expected_note(alloc: Global, following: &[Follower]) -> Result<Vec<u8>, AllocError> {
    let mut note = Vec::from_slice(alloc, b"expected ")?;
    let told = told_of(alloc, following)?;
    for (number, follower) in told.iter().enumerate() {
        if number > 0 {
            let joint: &[u8] = if number + 1 == told.len() {
                b" or "
            } else {
                b", "
            };
            note.extend_from_slice(joint)?;
        }
        note.extend_from_slice(follower.phrase().as_bytes())?;
    }
    Ok(note)
}

// Those of which a person is told: where any value may stand, a name and a bracket are values too.
fn told_of(alloc: Global, following: &[Follower]) -> Result<Vec<Follower>, AllocError> {
    let has_value = following.contains(&Follower::Value);
    let has_operator = following.contains(&Follower::Operator);
    let has_type = following.contains(&Follower::Type);
    let mut told = Vec::new(alloc);
    for follower in following {
        let is_told = match follower {
            Follower::Name => !has_value,
            Follower::OpeningParenthesis => !has_value && !has_operator && !has_type,
            _ => true,
        };
        if is_told {
            told.push(*follower)?;
        }
    }
    Ok(told)
}

// Which bracket is open.
fn open_note(alloc: Global, program: &[u8], bracket: usize) -> Result<Vec<u8>, AllocError> {
    let position = position_of(program, bracket);
    let place = format!(in alloc;
        " is open since line {}, column {}",
        position.line, position.column
    )?;
    let bytes = &program[bracket.min(program.len())..];
    quoted(alloc, b"", &bytes[..bytes.len().min(1)], place.as_bytes())
}

// What may help.
fn hint_of(
    alloc: Global,
    program: &[u8],
    at: usize,
    found: &[u8],
    following: &[Follower],
    open: Option<usize>,
) -> Result<Vec<u8>, AllocError>
    requires { at ≤ length program.now }
{
    if following.contains(&Follower::Name) && !following.contains(&Follower::Value) {
        if is_among(found, BUILT_INS) {
            return reserved_hint(
                alloc,
                found,
                b" is a built-in function, so it cannot be a name: for example `",
            );
        }
        if is_among(found, KEYWORDS) {
            return reserved_hint(
                alloc,
                found,
                b" is a word of the language, so it cannot be a name: for example `",
            );
        }
    }
    if let Some(advice) = habit_at(program, at) {
        return Vec::from_slice(alloc, advice.as_bytes());
    }
    let advice = if following.contains(&Follower::Operator) {
        hint_after_value(program, at, found, following, open)
    } else {
        hint_elsewhere(&program[..at], found, following)
    };
    Vec::from_slice(alloc, advice.as_bytes())
}

// That a word cannot be a name.
fn reserved_hint(alloc: Global, word: &[u8], why: &[u8]) -> Result<Vec<u8>, AllocError> {
    let mut hint = quoted(alloc, b"", word, why)?;
    hint.extend_from_slice(word)?;
    hint.extend_from_slice(b"1`")?;
    Ok(hint)
}

// What may help where a value stands before the place.
fn hint_after_value(
    program: &[u8],
    at: usize,
    found: &[u8],
    following: &[Follower],
    open: Option<usize>,
) -> &'static str
    requires { at ≤ length program.now }
{
    match found {
        b"=" => "two values are compared by `==`",
        b"==" | b"<" | b"<=" | b">" | b">=" =>
            "comparisons do not stand beside one another: write `a < b and b < c`",
        b"for" => "a comprehension is written `{x * x : x in s}`",
        b"in" if open.is_some() => "a comprehension is written `{x * x : x in s}`",
        b";" if open.is_none() => "no `;` stands after the last expression",
        b")" | b"]" | b"}" if open.is_none() => "no bracket is open here",
        b";" if following.contains(&Follower::Bar) => "a comprehension has eight binders at most",
        _ if begins_input(&program[at..]) && open.is_none() =>
            "the input text stands after a line `---`",
        _ if following.contains(&Follower::In) => "a name is bound by `let x = 1 in x + 1`",
        _ if following.contains(&Follower::Then) || following.contains(&Follower::Else) =>
            "a choice is written `if b then x else y`",
        _ if word_len(found) > 0 && following.contains(&Follower::Comma) =>
            "values are parted by `,`, as in `{1,2,3}`",
        _ if word_len(found) > 0 =>
            "two values do not stand side by side: arguments stand in parentheses, as in `f(x)`",
        _ => "",
    }
}

// What may help where none does.
fn hint_elsewhere(before: &[u8], found: &[u8], following: &[Follower]) -> &'static str {
    let last = last_word(&before[..length_without_blanks(before)]);
    match found {
        _ if is_among(last, BUILT_INS) =>
            "a built-in function is called, as in `iota(3)`, and its word is no name",
        b"=" | b")" | b"," if following.contains(&Follower::Colon) =>
            "a function is declared by `function f(x : int) : int = x * x;`",
        b")" if following.contains(&Follower::Name) && !following.contains(&Follower::Value) =>
            "a function has one parameter at least",
        b"(" if following.contains(&Follower::Equals) =>
            "a function is declared by `function f(x : int) : int = x * x;`",
        _ if following.contains(&Follower::Type) =>
            "types are `int`, `bool`, pairs `(int,bool)`, vectors `[int]` and sequences `{int}`",
        _ => "",
    }
}

// Whether a name and `=` stand at the front of a text.
fn begins_input(text: &[u8]) -> bool {
    let name = word_len(text);
    let rest = after_blanks(&text[name..]);
    name > 0 && rest.starts_with(b"=") && !rest.starts_with(b"==")
}
