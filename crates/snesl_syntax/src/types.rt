// The reader of a type between two tokens, and what a token makes of it.

ghost use Rattle.std.specs.Prelude.{◌≡◌, ◌<◌, ◌↔◌, suc, length, IsTrue, Ok, ◌∷◌};
ghost use Rattle.snesl_grammar.specs.tree.View.{type_tree};
ghost use Rattle.snesl_grammar.specs.Limits.{greatest_depth};
ghost use Rattle.snesl_syntax.specs.declared.types.TypeForm.TheVariants.{First, Second, Vector, Sequence};
ghost use Rattle.snesl_syntax.specs.Types.{types, type_begins, type_ended, open_type};
ghost use Rattle.snesl_syntax.specs.TypeMachine.{frame_of, frames_of, ended_in, type_state, IsStep, TypeStepsBy, TypeSteps, IsWholeType};

use crate::expressions::{GREATEST_DEPTH, StepError};
use snesl_grammar::lexer::{Token, TokenKind};
use snesl_grammar::tree::WrittenType;
use std::alloc::Global;

/// A type that is open, with its whole part.
#[derive(Drop)]
pub enum TypeForm {
    /// The first part of a pair.
    First { at: usize },
    /// The second part of a pair.
    Second { at: usize, first: WrittenType },
    /// The item of a vector.
    Vector { at: usize },
    /// The item of a sequence.
    Sequence { at: usize },
}

/// What may come next.
#[derive(Drop)]
pub enum TypePoint {
    Begins,
    Ended(WrittenType),
}

/// The reader of a type between two tokens; the innermost open form is the last.
#[derive(Drop)]
pub struct TypeMachine {
    forms: Vec<TypeForm>,
    point: TypePoint,
}

// Whether one more form can be opened, with a part in it.
fn has_room(forms: &[TypeForm]) -> bool
    ensures { IsTrue result ↔ (suc (length forms.now) < greatest_depth) }
{
    forms.len() + 1 < GREATEST_DEPTH
}

// Goes on in a form that has its room already.
fn go_in(mut forms: Vec<TypeForm>, form: TypeForm) -> Result<TypeMachine, StepError>
    ensures { IsStep type_state result (Ok (type_begins (frame_of form ∷ frames_of forms.items))) }
{
    forms.push(form)?;
    Ok(TypeMachine {
        forms,
        point: TypePoint::Begins,
    })
}

// Opens a form, where there is room for a part of it.
fn enter(forms: Vec<TypeForm>, form: TypeForm) -> Result<TypeMachine, StepError>
    ensures { TypeStepsBy result (open_type (frames_of forms.items) (frame_of form)) }
{
    if !has_room(&forms) {
        return Err(StepError::TooDeep);
    }
    go_in(forms, form)
}

// After a type.
fn behind(forms: Vec<TypeForm>, last: WrittenType) -> Result<TypeMachine, StepError>
    ensures { IsStep type_state result (Ok (type_ended (frames_of forms.items) (type_tree last))) }
{
    Ok(TypeMachine {
        forms,
        point: TypePoint::Ended(last),
    })
}

// Where a type begins.
fn begins(forms: Vec<TypeForm>, token: Token) -> Result<TypeMachine, StepError>
    ensures { TypeSteps result (type_begins (frames_of forms.items)) token }
{
    let at = token.at;
    match token.kind {
        TokenKind::Int => behind(forms, WrittenType::Int { at }),
        TokenKind::Bool => behind(forms, WrittenType::Bool { at }),
        TokenKind::LeftParen => enter(forms, TypeForm::First { at }),
        TokenKind::LeftBracket => enter(forms, TypeForm::Vector { at }),
        TokenKind::LeftBrace => enter(forms, TypeForm::Sequence { at }),
        _ => Err(StepError::Unexpected),
    }
}

// After the first part of a pair.
fn first_ended(
    forms: Vec<TypeForm>,
    at: usize,
    first: WrittenType,
    token: Token,
) -> Result<TypeMachine, StepError>
    ensures { TypeSteps result (ended_in (First at) forms first) token }
{
    match token.kind {
        TokenKind::Comma => go_in(forms, TypeForm::Second { at, first }),
        _ => Err(StepError::Unexpected),
    }
}

// After the second part of a pair.
fn second_ended(
    alloc: Global,
    forms: Vec<TypeForm>,
    at: usize,
    first: WrittenType,
    second: WrittenType,
    token: Token,
) -> Result<TypeMachine, StepError>
    ensures { TypeSteps result (ended_in (Second at first) forms second) token }
{
    match token.kind {
        TokenKind::RightParen => {
            let pair = WrittenType::Pair {
                at,
                first: Box::new(alloc, first)?,
                second: Box::new(alloc, second)?,
            };
            behind(forms, pair)
        }
        _ => Err(StepError::Unexpected),
    }
}

// After the item of a vector.
fn vector_ended(
    alloc: Global,
    forms: Vec<TypeForm>,
    at: usize,
    item: WrittenType,
    token: Token,
) -> Result<TypeMachine, StepError>
    ensures { TypeSteps result (ended_in (Vector at) forms item) token }
{
    match token.kind {
        TokenKind::RightBracket => {
            let vector = WrittenType::Vector {
                at,
                item: Box::new(alloc, item)?,
            };
            behind(forms, vector)
        }
        _ => Err(StepError::Unexpected),
    }
}

// After the item of a sequence.
fn sequence_ended(
    alloc: Global,
    forms: Vec<TypeForm>,
    at: usize,
    item: WrittenType,
    token: Token,
) -> Result<TypeMachine, StepError>
    ensures { TypeSteps result (ended_in (Sequence at) forms item) token }
{
    match token.kind {
        TokenKind::RightBrace => {
            let sequence = WrittenType::Sequence {
                at,
                item: Box::new(alloc, item)?,
            };
            behind(forms, sequence)
        }
        _ => Err(StepError::Unexpected),
    }
}

// After a type.
fn ended(
    alloc: Global,
    mut forms: Vec<TypeForm>,
    last: WrittenType,
    token: Token,
) -> Result<TypeMachine, StepError>
    ensures { TypeSteps result (type_ended (frames_of forms.items) (type_tree last)) token }
{
    let Some(form) = forms.pop() else {
        return Err(StepError::Unexpected);
    };
    match form {
        TypeForm::First { at } => first_ended(forms, at, last, token),
        TypeForm::Second { at, first } => second_ended(alloc, forms, at, first, last, token),
        TypeForm::Vector { at } => vector_ended(alloc, forms, at, last, token),
        TypeForm::Sequence { at } => sequence_ended(alloc, forms, at, last, token),
    }
}

impl TypeMachine {
    /// The machine before the first token.
    pub fn new(alloc: Global) -> TypeMachine
        ensures { type_state result ≡ types.start }
    {
        TypeMachine {
            forms: Vec::new(alloc),
            point: TypePoint::Begins,
        }
    }

    /// The machine after the next token.
    pub fn step(self, alloc: Global, token: Token) -> Result<TypeMachine, StepError>
        ensures { TypeSteps result (type_state self) token }
    {
        let TypeMachine { forms, point } = self;
        match point {
            TypePoint::Begins => begins(forms, token),
            TypePoint::Ended(last) => ended(alloc, forms, last, token),
        }
    }

    /// The type that the tokens so far are, or the machine, where they are none.
    pub fn into_whole(self) -> Result<WrittenType, TypeMachine>
        ensures { IsWholeType result (type_state self) }
    {
        let TypeMachine { forms, point } = self;
        match point {
            TypePoint::Ended(last) => {
                if forms.is_empty() {
                    Ok(last)
                } else {
                    Err(TypeMachine {
                        forms,
                        point: TypePoint::Ended(last),
                    })
                }
            }
            TypePoint::Begins => Err(TypeMachine {
                forms,
                point: TypePoint::Begins,
            }),
        }
    }
}
