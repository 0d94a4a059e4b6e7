// Open forms, and what closes without a token of its own.

ghost use Rattle.std.specs.Prelude.{◌≡◌, ◌≤◌, ◌<◌, ◌↔◌, suc, [], ◌∷◌, length, IsTrue};
ghost use Rattle.snesl_grammar.specs.Limits.{greatest_depth};
ghost use Rattle.snesl_grammar.specs.Operators.{level, left_level, prefix_level};
ghost use Rattle.snesl_syntax.specs.expressions.Machine.{binds_at, closed_with, reduce, floor};
ghost use Rattle.snesl_syntax.specs.expressions.Parts.{tree_in, Builds};
ghost use Rattle.snesl_syntax.specs.expressions.Parsing.{frame_of, frames_of, frames_in, FoldsTo, Within};

use crate::expressions::limits::GREATEST_DEPTH;
use crate::expressions::machine::StepError;
use crate::expressions::measured::{Arguments, Bound, Measured};
use snesl_grammar::tree::{Builtin, Operator, Prefix, Span};
use std::alloc::{AllocError, Global};

/// A form that is open, with its whole parts.
#[derive(Drop)]
pub enum Form {
    Binary {
        at: usize,
        operator: Operator,
        left: Measured,
    },
    Prefix {
        at: usize,
        operator: Prefix,
    },
    Call {
        at: usize,
        function: Builtin,
        given: Arguments,
    },
    Apply {
        function: Span,
        given: Arguments,
    },
    /// The first expression in parentheses.
    Group {
        at: usize,
    },
    /// The second part of a pair.
    Second {
        at: usize,
        first: Measured,
    },
    /// The value of a `let`.
    Value {
        at: usize,
        name: Span,
    },
    LetBody {
        at: usize,
        name: Span,
        value: Measured,
    },
    /// The condition of an `if`.
    Condition {
        at: usize,
    },
    /// The first branch of an `if`.
    Positive {
        at: usize,
        condition: Measured,
    },
    /// The second branch of an `if`.
    Negative {
        at: usize,
        condition: Measured,
        positive: Measured,
    },
    /// An item in braces, the first of which may be the body of a comprehension.
    Braces {
        at: usize,
        given: Arguments,
    },
    /// The condition after an item.
    Filter {
        at: usize,
        item: Measured,
    },
    /// The source of a comprehension's binder.
    Source {
        at: usize,
        body: Measured,
        bound: Bound,
        name: Span,
    },
    /// The condition of a comprehension.
    EachCondition {
        at: usize,
        body: Measured,
        bound: Bound,
    },
}

/// An expression, the innermost form around it, and the forms around that.
#[derive(Drop)]
pub struct Innermost {
    pub outer: Vec<Form>,
    pub form: Form,
    pub whole: Measured,
}

/// How tightly an operator before its operand binds.
pub const PREFIX_LEVEL: u8 = 7;

/// How tightly an operator binds.
pub fn level_of(operator: Operator) -> u8
    ensures exact { result ≡ level operator }
    ensures low { result ≤ 8 }
{
    match operator {
        Operator::Or => 1,
        Operator::And => 2,
        Operator::Equal
        | Operator::Less
        | Operator::AtMost
        | Operator::Greater
        | Operator::AtLeast => 3,
        Operator::Append => 4,
        Operator::Add | Operator::Subtract => 5,
        Operator::Multiply | Operator::Divide | Operator::Remainder => 6,
        Operator::Index => 8,
    }
}

/// How tightly its left operand has to bind.
pub fn left_level_of(operator: Operator) -> u8
    ensures { result ≡ left_level operator }
{
    match operator {
        Operator::Equal
        | Operator::Less
        | Operator::AtMost
        | Operator::Greater
        | Operator::AtLeast => 4,
        _ => level_of(operator),
    }
}

/// How tightly a form has to bind to stand bare in the innermost open form.
pub fn floor_of(forms: &[Form]) -> u8
    ensures { result ≡ floor (frames_of forms.now) }
{
    match forms.last() {
        Some(form) => floor_in(form),
        None => 0,
    }
}

// How tightly a form has to bind to stand bare in this one.
fn floor_in(form: &Form) -> u8
    ensures { result ≡ floor (frame_of form.now ∷ []) }
{
    match form {
        Form::Binary { operator, .. } => level_of(*operator) + 1,
        Form::Prefix { .. } => PREFIX_LEVEL,
        _ => 0,
    }
}

/// Whether one more form can be opened, with a part in it.
pub fn has_room(forms: &[Form]) -> bool
    ensures { IsTrue result ↔ (suc (length forms.now) < greatest_depth) }
{
    forms.len() + 1 < GREATEST_DEPTH
}

/// Whether the form has no closing token and binds at least so tightly.
pub fn is_closed_at(form: &Form, tightness: u8) -> bool
    ensures { result ≡ binds_at tightness (frame_of form.now) }
{
    match form {
        Form::Binary { operator, .. } => tightness <= level_of(*operator),
        Form::Prefix { .. } => tightness <= PREFIX_LEVEL,
        Form::LetBody { .. } | Form::Negative { .. } => tightness == 0,
        _ => false,
    }
}

/// Lets a value go. The drop of a form or an expression, written out in a function that returns early, is most of what
/// its proof goes through; here it is one call.
pub fn let_go<T: Drop>(_: T) {}

// The form with its last part.
fn closed(alloc: Global, form: Form, last: Measured) -> Result<Measured, AllocError>
    ensures { Builds result (closed_with (frame_of form) (tree_in last)) }
{
    match form {
        Form::Binary { at, operator, left } => Measured::binary(alloc, at, operator, left, last),
        Form::Prefix { at, operator } => Measured::prefix(alloc, at, operator, last),
        Form::LetBody { at, name, value } => Measured::binding(alloc, at, name, value, last),
        Form::Negative {
            at,
            condition,
            positive,
        } => Measured::choice(alloc, at, condition, positive, last),
        _ => {
            let_go(form);
            Ok(last)
        }
    }
}

/// Closes the forms without a closing token that bind at least so tightly.
pub fn reduced(
    alloc: Global,
    mut forms: Vec<Form>,
    mut last: Measured,
    tightness: u8,
) -> Result<(Vec<Form>, Measured), AllocError>
    ensures { FoldsTo result (reduce tightness (frames_in forms) (tree_in last)) }
{
    while let Some(form) = forms.pop() {
        if !is_closed_at(&form, tightness) {
            forms.push(form)?;
            return Ok((forms, last));
        }
        last = closed(alloc, form, last)?;
    }
    Ok((forms, last))
}

/// The innermost form that does not close by itself, with the expression in it.
pub fn find_innermost(
    alloc: Global,
    forms: Vec<Form>,
    last: Measured,
) -> Result<Innermost, StepError>
    ensures { Within result (reduce 0 (frames_in forms) (tree_in last)) }
{
    let (mut outer, whole) = reduced(alloc, forms, last, 0)?;
    match outer.pop() {
        Some(form) => Ok(Innermost { outer, form, whole }),
        None => {
            let_go(whole);
            Err(StepError::Unexpected)
        }
    }
}
