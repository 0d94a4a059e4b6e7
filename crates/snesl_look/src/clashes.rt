// Messages of types that do not fit.

ghost use Rattle.std.specs.Prelude.{◌≡◌, ◌∷◌, [], IfOk, map};
ghost use Rattle.snesl_data.specs.Types.{ty_of};
ghost use Rattle.snesl_types.specs.Clashes.{clash_of, source};
ghost use Rattle.snesl_look.specs.Clashes.{clash_sentence, note_of, listed, phrase_of_type, of_types, others, quoted_type, type_text};
ghost use Rattle.snesl_look.specs.Views.{Appends, body_note, branches_note, parameters_note, several_note};

use snesl_data::Ty;
use snesl_types::Clash;
use std::alloc::{AllocError, Global};

/// What is wrong where types do not fit, in a sentence.
pub fn clash_sentence(clash: &Clash) -> &'static str
    ensures { result.now ≡ clash_sentence (clash_of clash.now) }
{
    match clash {
        Clash::Operands(_, _) => "the operator does not take values of these types",
        Clash::Operand(_) => "the operator does not take a value of this type",
        Clash::Arguments(_) => "the built-in function does not take these arguments",
        Clash::Parameters { found, wanted } => {
            if found.len() == wanted.len() {
                "an argument is of another type than its parameter"
            } else {
                "the function takes another number of arguments"
            }
        }
        Clash::Branches { condition, .. } => match condition {
            Ty::Bool => "the two branches of an `if` are of one type",
            _ => "the condition of an `if` is a truth value",
        },
        Clash::Items(_) => "the items of a sequence are of one type",
        Clash::Condition(_) => "a condition is a truth value",
        Clash::Source(_) => "a binder goes over a sequence",
        Clash::Body { .. } => "the body is of another type than the function declares",
    }
}

/// The types that stand where types do not fit, in words. The error is that memory was refused.
pub fn clash_note(alloc: Global, clash: &Clash) -> Result<Vec<u8>, AllocError>
    ensures { IfOk result (λ note. note.items ≡ note_of (clash_of clash.now)) }
{
    let mut note = Vec::new(alloc);
    append_note(&mut note, clash)?;
    Ok(note)
}

// The types that stand there.
fn append_note(note: &mut Vec<u8>, clash: &Clash) -> Result<(), AllocError>
    ensures { Appends note.old note.new (note_of (clash_of clash.now)) result }
{
    match clash {
        Clash::Operands(left, right) => append_of_more(note, b"operand", left, right, &[]),
        Clash::Operand(ty) => append_of_type(note, b"operand", ty),
        Clash::Arguments(types) => append_of_types(note, b"argument", types),
        Clash::Parameters { found, wanted } => append_parameters(note, found, wanted),
        Clash::Branches {
            condition,
            positive,
            negative,
        } => append_branches(note, condition, positive, negative),
        Clash::Items(types) => append_of_types(note, b"item", types),
        Clash::Condition(ty) => append_of_type(note, b"condition", ty),
        Clash::Source(ty) => append_source(note, ty),
        Clash::Body { found, wanted } => append_body(note, found, wanted),
    }
}

// Of a declared function's arguments and parameters.
fn append_parameters(note: &mut Vec<u8>, found: &[Ty], wanted: &[Ty]) -> Result<(), AllocError>
    ensures { Appends note.old note.new (parameters_note found.now wanted.now) result }
{
    append_of_types(note, b"argument", found)?;
    note.extend_from_slice(b", and ")?;
    append_of_types(note, b"parameter", wanted)
}

// Of the three parts of an `if`.
fn append_branches(
    note: &mut Vec<u8>,
    condition: &Ty,
    positive: &Ty,
    negative: &Ty,
) -> Result<(), AllocError>
    ensures { Appends note.old note.new (branches_note condition.now positive.now negative.now) result }
{
    append_of_type(note, b"condition", condition)?;
    note.extend_from_slice(b", and the branches are of the types ")?;
    append_two(note, positive, negative)
}

// Of what a binder goes over.
fn append_source(note: &mut Vec<u8>, ty: &Ty) -> Result<(), AllocError>
    ensures { Appends note.old note.new (note_of (source (ty_of ty.now))) result }
{
    note.extend_from_slice(b"this goes over a value of the type ")?;
    append_quoted(note, ty)?;
    note.extend_from_slice(b", which is no sequence")
}

// Of a function's body and its declared result.
fn append_body(note: &mut Vec<u8>, found: &Ty, wanted: &Ty) -> Result<(), AllocError>
    ensures { Appends note.old note.new (body_note found.now wanted.now) result }
{
    append_of_type(note, b"body", found)?;
    note.extend_from_slice(b", and the result was declared as ")?;
    append_quoted(note, wanted)
}

// What is of these types, by the word for one of them.
fn append_of_types(note: &mut Vec<u8>, word: &[u8], types: &[Ty]) -> Result<(), AllocError>
    ensures { Appends note.old note.new (of_types word.now (map ty_of types.now)) result }
{
    match types {
        [] => append_of_none(note, word),
        [only] => append_of_type(note, word, only),
        [first, second, rest @ ..] => append_of_more(note, word, first, second, rest),
    }
}

// What there is none of.
fn append_of_none(note: &mut Vec<u8>, word: &[u8]) -> Result<(), AllocError>
    ensures { Appends note.old note.new (of_types word.now []) result }
{
    note.extend_from_slice(b"there is no ")?;
    note.extend_from_slice(word)
}

// What is of several types.
fn append_of_more(
    note: &mut Vec<u8>,
    word: &[u8],
    first: &Ty,
    second: &Ty,
    rest: &[Ty],
) -> Result<(), AllocError>
    ensures { Appends note.old note.new (several_note word.now first.now second.now rest.now) result }
{
    note.extend_from_slice(b"the ")?;
    note.extend_from_slice(word)?;
    note.extend_from_slice(b"s are of the types ")?;
    append_two(note, first, second)?;
    append_others(note, rest)
}

// What is of a type, by the word for it.
fn append_of_type(note: &mut Vec<u8>, word: &[u8], ty: &Ty) -> Result<(), AllocError>
    ensures { Appends note.old note.new (phrase_of_type word.now (ty_of ty.now)) result }
{
    note.extend_from_slice(b"the ")?;
    note.extend_from_slice(word)?;
    note.extend_from_slice(b" is of the type ")?;
    append_quoted(note, ty)
}

// Two types.
fn append_two(note: &mut Vec<u8>, first: &Ty, second: &Ty) -> Result<(), AllocError>
    ensures { Appends note.old note.new (listed (ty_of first.now ∷ ty_of second.now ∷ [])) result }
{
    append_quoted(note, first)?;
    note.extend_from_slice(b", ")?;
    append_quoted(note, second)
}

// Further types, each after a comma.
fn append_others(note: &mut Vec<u8>, types: &[Ty]) -> Result<(), AllocError>
    ensures { Appends note.old note.new (others (map ty_of types.now)) result }
{
    match types {
        [] => Ok(()),
        [first, rest @ ..] => {
            note.extend_from_slice(b", ")?;
            append_quoted(note, first)?;
            append_others(note, rest)
        }
    }
}

// A type between quotes.
fn append_quoted(note: &mut Vec<u8>, ty: &Ty) -> Result<(), AllocError>
    ensures { Appends note.old note.new (quoted_type (ty_of ty.now)) result }
{
    note.extend_from_slice(b"`")?;
    append_type(note, ty)?;
    note.extend_from_slice(b"`")
}

// A type as programs write it.
fn append_type(text: &mut Vec<u8>, ty: &Ty) -> Result<(), AllocError>
    ensures { Appends text.old text.new (type_text (ty_of ty.now)) result }
{
    match ty {
        Ty::Int => text.extend_from_slice(b"int"),
        Ty::Bool => text.extend_from_slice(b"bool"),
        Ty::Pair(first, second) => {
            text.extend_from_slice(b"(")?;
            append_type(text, first)?;
            text.extend_from_slice(b",")?;
            append_type(text, second)?;
            text.extend_from_slice(b")")
        }
        Ty::Vec(item) => {
            text.extend_from_slice(b"[")?;
            append_type(text, item)?;
            text.extend_from_slice(b"]")
        }
        Ty::Seq(item) => {
            text.extend_from_slice(b"{")?;
            append_type(text, item)?;
            text.extend_from_slice(b"}")
        }
    }
}
