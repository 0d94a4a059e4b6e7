// What is said of refusals and of faults.

ghost use Rattle.std.specs.Prelude.{◌≡◌, option_map};
ghost use Rattle.snesl_look.specs.Words.{HaveSentencesOfTheirOwn, fault_hint, fault_sentence, refusal_hint, refusal_sentence};

use snesl_data::{FaultKind, Refusal};

/// What went wrong where a job was refused, in a sentence.
pub fn refusal_sentence(refusal: Refusal) -> &'static str
    ensures { result.now ≡ refusal_sentence refusal }
{
    match refusal {
        Refusal::TooLong => "the program is longer than 65,536 bytes",
        Refusal::Lex(_) => "no token of the language begins here",
        Refusal::Syntax(_) => "a program cannot go on like this, nor end here",
        Refusal::Deep => "the program is nested deeper than 64",
        Refusal::Name(_) => "this name is not bound here, or it is bound twice",
        Refusal::Mismatch(_) =>
            "a value of another type, or another number of values, is needed here",
        Refusal::Streamed(_) => "a sequence stands here where only a value in memory may stand",
        Refusal::BadInput(_) => "the input text is not as the program declares its inputs",
        Refusal::TooBig => "the program is too big",
        Refusal::BadConfig => "the settings are not lawful",
        Refusal::NoMemory => "memory was refused",
        Refusal::Output => "the output could not be written",
        Refusal::NoThread => "a thread could not be started",
        Refusal::Read => "the job could not be read",
        Refusal::Short => "an edge holds less than its capacity",
    }
}

/// What may help there, where something is known.
pub fn refusal_hint(refusal: Refusal) -> Option<&'static str>
    ensures { option_map (λ hint. hint.now) result ≡ refusal_hint refusal }
{
    match refusal {
        Refusal::TooLong => Some(
            "data belong into the input text, behind a line `---`: it may have 16,777,216 bytes",
        ),
        Refusal::Lex(_) => Some(
            "this character is none of the language, or this integer is greater than its dialect has",
        ),
        Refusal::Syntax(_) => Some(
            "`let`, `if` and a second comparison stand as operands in parentheses only",
        ),
        Refusal::Deep => Some(
            "the body of a function may be 64 deep by itself, and a long sum is `reduce_add({a, b})`",
        ),
        Refusal::Name(_) => Some(
            "a function sees its parameters and the functions before it, and no inputs",
        ),
        Refusal::Mismatch(_) => Some(
            "operators take single values; for each element of a sequence `s` write `{x + 1 : x in s}`",
        ),
        Refusal::Streamed(_) => Some(
            "make a vector of it outside of the comprehension, by `tab(s)`, and inside take `seq(v)`",
        ),
        Refusal::BadInput(_) => Some("each input in order, as `n = 1; v = [1,2]; s = {(1,true)}`"),
        Refusal::TooBig => Some(
            "each call counts the body of its function anew; docs/LANGUAGE.md has the limits under `TooBig`",
        ),
        Refusal::BadConfig => Some("`levuttar run --help` says what each may be"),
        Refusal::NoMemory => Some(
            "a vector, the input text and the text of the value are held whole; streamed sequences are not",
        ),
        Refusal::NoThread => Some("`--drive serial` starts none"),
        Refusal::Output | Refusal::Read | Refusal::Short => None,
    }
}

/// What went wrong in a program that ended in a fault, in a sentence.
pub fn fault_sentence(kind: FaultKind) -> &'static str
    ensures { result.now ≡ fault_sentence kind }
{
    match kind {
        FaultKind::Divide => "this divides by zero",
        FaultKind::Overflow => "this integer is out of range",
        FaultKind::NegativeCount => "`iota` was given a negative number",
        FaultKind::Length => "the sequences of this comprehension differ in length",
        FaultKind::Part => "the flags of `part` do not fit its sequence",
        FaultKind::The => "`the` was given a sequence that has not exactly one element",
        FaultKind::EmptyMax => "`reduce_max` was given an empty sequence",
        FaultKind::Index => "the index is negative, or not below the length of the vector",
        FaultKind::Shape => "a stream ended early, or an item of another kind came",
    }
}

/// What may help there, where something is known.
pub fn fault_hint(kind: FaultKind) -> Option<&'static str>
    ensures { option_map (λ hint. hint.now) result ≡ fault_hint kind }
{
    match kind {
        FaultKind::Divide => Some(
            "a condition leaves elements out, as in `{100 / x : x in s | not (x == 0)}`",
        ),
        FaultKind::Overflow => Some(
            "a program that begins with `dialect 2;` has integers of 128 bits",
        ),
        FaultKind::Length => Some(
            "its binders go side by side; for all pairs write one comprehension in another",
        ),
        FaultKind::Part => Some(
            "they have a `false` for each element, and a `true` behind each part, the last too",
        ),
        FaultKind::EmptyMax => Some("`reduce_max({0} ++ s)` is 0 there"),
        FaultKind::Index => Some("the first element has the index 0"),
        FaultKind::Shape => Some("the program has a fault, which may lie at another place"),
        FaultKind::NegativeCount | FaultKind::The => None,
    }
}

/// A law and no code to run: no two kinds of refusal have one sentence, and no two kinds of fault.
pub fn sentences_differ()
    ensures { HaveSentencesOfTheirOwn }
{}
