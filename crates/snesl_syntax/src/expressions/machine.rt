// The parser between two tokens, and what a token makes of it.

ghost use Rattle.std.specs.Prelude.{◌≡◌, ◌↔◌, Ok, IfOk, IsTrue, All};
ghost use Rattle.std.specs.Option.{is_some};
ghost use Rattle.snesl_grammar.specs.Limits.{greatest_depth};
ghost use Rattle.snesl_syntax.specs.expressions.Readers.{step};
ghost use Rattle.snesl_syntax.specs.expressions.Machine.{expressions, binds_at, open_move, frame_move, bare_move, operand, after};
ghost use Rattle.snesl_syntax.specs.expressions.Parts.{tree_in};
ghost use Rattle.snesl_syntax.specs.expressions.Parsing.{frame_of, frames_in, pile, state_at, state_of, IsStep, GivesBy, IsThis};

use crate::expressions::closings::after;
use crate::expressions::forms::{Form, floor_of, has_room, is_closed_at, let_go, reduced};
use crate::expressions::measured::{Bound, Measured};
use crate::expressions::operands::{
    binder_in, binder_name, let_equals, let_name, opening, operand,
};
use snesl_grammar::lexer::Token;
use snesl_grammar::tree::{Builtin, Expr, Span};
use std::alloc::{AllocError, AllocFailed, Global};

/// What may come next.
#[derive(Drop)]
pub enum Point {
    Operand,
    After(Measured),
    /// The arguments of a built-in function.
    Opening {
        at: usize,
        function: Builtin,
    },
    /// The name of a `let`.
    LetName {
        at: usize,
    },
    /// The `=` of a `let`.
    LetEquals {
        at: usize,
        name: Span,
    },
    /// The name of a comprehension's next binder.
    BinderName {
        at: usize,
        body: Measured,
        bound: Bound,
    },
    /// The word `in` of a comprehension's next binder.
    BinderIn {
        at: usize,
        body: Measured,
        bound: Bound,
        name: Span,
    },
}

/// The parser of an expression between two tokens; the innermost open form is the last.
#[derive(Drop)]
pub struct Machine {
    pub(crate) forms: Vec<Form>,
    pub(crate) point: Point,
}

/// Why a token is refused.
#[derive(Drop)]
pub enum StepError {
    /// No expression goes on with it, whatever its depth.
    Unexpected,
    /// Only an expression beyond the greatest depth goes on with it.
    TooDeep,
    /// Memory ran out.
    NoMemory,
}

impl From<AllocError> for StepError {
    ghost use Rattle.snesl_syntax.specs.declared.expressions.machine.StepError.TheVariants.{NoMemory};

    ghost from_gives = { λ _ error. error ≡ NoMemory };

    fn from(_: AllocError) -> Self {
        StepError::NoMemory
    }
}

impl<T: Drop> From<AllocFailed<T>> for StepError {
    ghost use Rattle.snesl_syntax.specs.declared.expressions.machine.StepError.TheVariants.{NoMemory};

    ghost from_gives = { λ _ error. error ≡ NoMemory };

    fn from(_: AllocFailed<T>) -> Self {
        StepError::NoMemory
    }
}

/// Goes on in a form that has its room already.
pub fn go_in(mut forms: Vec<Form>, form: Form) -> Result<Machine, StepError>
    ensures { IsStep result (Ok (operand (pile form forms))) }
{
    forms.push(form)?;
    Ok(Machine {
        forms,
        point: Point::Operand,
    })
}

/// Goes on at a point of a form that is opened, where there is room for a part of it.
pub fn open_at(forms: Vec<Form>, point: Point) -> Result<Machine, StepError>
    ensures { GivesBy result (open_move (frames_in forms) (state_at (frames_in forms) point)) }
{
    if !has_room(&forms) {
        let_go(point);
        return Err(StepError::TooDeep);
    }
    Ok(Machine { forms, point })
}

/// After an expression.
pub fn behind(forms: Vec<Form>, last: Measured) -> Result<Machine, StepError>
    ensures { IsStep result (Ok (after (frames_in forms) (tree_in last))) }
{
    Ok(Machine {
        forms,
        point: Point::After(last),
    })
}

/// Opens a form, where there is room for a part of it.
pub fn enter(forms: Vec<Form>, form: Form) -> Result<Machine, StepError>
    ensures { GivesBy result (frame_move (frame_of form) (frames_in forms)) }
{
    if !has_room(&forms) {
        let_go(form);
        return Err(StepError::TooDeep);
    }
    go_in(forms, form)
}

/// Opens a form that binds so tightly, where it may stand bare.
pub fn enter_bare(forms: Vec<Form>, form: Form, tightness: u8) -> Result<Machine, StepError>
    ensures { GivesBy result (bare_move tightness (frame_of form) (frames_in forms)) }
{
    if floor_of(&forms) > tightness {
        let_go(form);
        return Err(StepError::Unexpected);
    }
    enter(forms, form)
}

impl Machine {
    /// The machine before the first token.
    pub fn new(alloc: Global) -> Machine
        ensures { state_of result ≡ expressions.start }
    {
        Machine {
            forms: Vec::new(alloc),
            point: Point::Operand,
        }
    }

    /// The machine after the next token.
    ///
    /// # Errors
    ///
    /// - `Unexpected`: no expression goes on with the token.
    /// - `TooDeep`: an expression goes on with it, and none within the greatest depth.
    /// - `NoMemory`: memory ran out.
    pub fn step(self, alloc: Global, token: Token) -> Result<Machine, StepError>
        ensures { IsStep result (step expressions greatest_depth (state_of self) token) }
    {
        let Machine { forms, point } = self;
        match point {
            Point::Operand => operand(alloc, forms, token),
            Point::After(last) => after(alloc, forms, last, token),
            Point::Opening { at, function } => opening(alloc, forms, at, function, token),
            Point::LetName { at } => let_name(forms, at, token),
            Point::LetEquals { at, name } => let_equals(forms, at, name, token),
            Point::BinderName { at, body, bound } => binder_name(forms, at, body, bound, token),
            Point::BinderIn {
                at,
                body,
                bound,
                name,
            } => binder_in(forms, at, body, bound, name, token),
        }
    }

    /// Whether the tokens so far are an expression.
    pub fn is_whole(&self) -> bool
        ensures { result ≡ is_some (expressions.finished (state_of self.now)) }
    {
        match &self.point {
            Point::After(_) => all_close(&self.forms),
            _ => false,
        }
    }

    /// The expression that the tokens so far are, where they are one.
    ///
    /// # Errors
    ///
    /// Memory ran out.
    pub fn finish(self, alloc: Global) -> Result<Option<Expr>, AllocError>
        ensures { IfOk result (λ found. IsThis found (expressions.finished (state_of self))) }
    {
        let Machine { forms, point } = self;
        match point {
            Point::After(last) => {
                let (outer, whole) = reduced(alloc, forms, last, 0)?;
                if outer.is_empty() {
                    Ok(Some(Box::into_inner(whole.expr)))
                } else {
                    let_go(whole);
                    Ok(None)
                }
            }
            _ => {
                let_go(point);
                Ok(None)
            }
        }
    }
}

// Whether no form has a closing token.
fn all_close(forms: &[Form]) -> bool
    ensures { IsTrue result ↔ All (λ form. IsTrue (binds_at 0 (frame_of form))) forms.now }
{
    forms.iter().all(|form| is_closed_at(form, 0))
}
