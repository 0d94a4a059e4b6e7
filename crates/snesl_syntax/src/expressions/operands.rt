// What begins an operand, and what comes before one in forms that begin with words.

ghost use Rattle.snesl_grammar.specs.tree.Tree.{none};
ghost use Rattle.snesl_grammar.specs.Operators.{prefix_level};
ghost use Rattle.snesl_syntax.specs.declared.expressions.machine.Point.TheVariants.{Operand, Opening, LetName, LetEquals, BinderName, BinderIn};
ghost use Rattle.snesl_syntax.specs.expressions.Machine.{opening, open_move, frame_move, bare_move, let_move, in_prefix, in_braces};
ghost use Rattle.snesl_syntax.specs.expressions.Parsing.{frames_in, GivesBy, GivesAt};

use crate::expressions::forms::{Form, PREFIX_LEVEL, floor_of, let_go};
use crate::expressions::machine::{
    Machine, Point, StepError, behind, enter, enter_bare, go_in, open_at,
};
use crate::expressions::measured::{Arguments, Bound, Measured};
use snesl_grammar::lexer::{Token, TokenKind};
use snesl_grammar::tree::{Builtin, Prefix, Span};
use std::alloc::Global;

/// Where an operand may begin.
pub fn operand(alloc: Global, forms: Vec<Form>, token: Token) -> Result<Machine, StepError>
    ensures { GivesAt result forms Operand token }
{
    let at = token.at;
    match token.kind {
        TokenKind::Integer(value) => behind(forms, Measured::integer(alloc, at, value)?),
        TokenKind::True => behind(forms, Measured::truth(alloc, at, true)?),
        TokenKind::False => behind(forms, Measured::truth(alloc, at, false)?),
        TokenKind::Name(len) => behind(forms, Measured::name(alloc, Span { at, len })?),
        TokenKind::Minus => enter_prefix(forms, at, Prefix::Negate),
        TokenKind::Not => enter_prefix(forms, at, Prefix::Not),
        TokenKind::Iota => name_call(forms, at, Builtin::Iota),
        TokenKind::ScanAdd => name_call(forms, at, Builtin::ScanAdd),
        TokenKind::ReduceAdd => name_call(forms, at, Builtin::ReduceAdd),
        TokenKind::ReduceMax => name_call(forms, at, Builtin::ReduceMax),
        TokenKind::ReduceAnd => name_call(forms, at, Builtin::ReduceAnd),
        TokenKind::ReduceOr => name_call(forms, at, Builtin::ReduceOr),
        TokenKind::Length => name_call(forms, at, Builtin::Length),
        TokenKind::Concat => name_call(forms, at, Builtin::Concat),
        TokenKind::Part => name_call(forms, at, Builtin::Part),
        TokenKind::The => name_call(forms, at, Builtin::The),
        TokenKind::Tab => name_call(forms, at, Builtin::Tab),
        TokenKind::Seq => name_call(forms, at, Builtin::Seq),
        TokenKind::Fst => name_call(forms, at, Builtin::Fst),
        TokenKind::Snd => name_call(forms, at, Builtin::Snd),
        TokenKind::LeftParen => enter(forms, Form::Group { at }),
        TokenKind::LeftBrace => enter_braces(alloc, forms, at),
        TokenKind::Let => name_let(forms, at),
        TokenKind::If => enter_bare(forms, Form::Condition { at }, 0),
        _ => Err(StepError::Unexpected),
    }
}

// Opens the operand of an operator before it.
fn enter_prefix(forms: Vec<Form>, at: usize, operator: Prefix) -> Result<Machine, StepError>
    ensures { GivesBy result (bare_move prefix_level (in_prefix at operator) (frames_in forms)) }
{
    enter_bare(forms, Form::Prefix { at, operator }, PREFIX_LEVEL)
}

// Takes the name of a built-in function, where there is room for an argument.
fn name_call(forms: Vec<Form>, at: usize, function: Builtin) -> Result<Machine, StepError>
    ensures { GivesBy result (open_move (frames_in forms) (opening (frames_in forms) at function)) }
{
    open_at(forms, Point::Opening { at, function })
}

// Takes the word `let`, where a `let` may stand bare and there is room for its value.
fn name_let(forms: Vec<Form>, at: usize) -> Result<Machine, StepError>
    ensures { GivesBy result (let_move (frames_in forms) at) }
{
    if floor_of(&forms) > 0 {
        return Err(StepError::Unexpected);
    }
    open_at(forms, Point::LetName { at })
}

// Opens the first item in braces, where there is room for it.
fn enter_braces(alloc: Global, forms: Vec<Form>, at: usize) -> Result<Machine, StepError>
    ensures { GivesBy result (frame_move (in_braces at none) (frames_in forms)) }
{
    let given = Arguments::none(alloc);
    enter(forms, Form::Braces { at, given })
}

/// Where the arguments of a built-in function begin.
pub fn opening(
    alloc: Global,
    forms: Vec<Form>,
    at: usize,
    function: Builtin,
    token: Token,
) -> Result<Machine, StepError>
    ensures { GivesAt result forms (Opening at function) token }
{
    match token.kind {
        TokenKind::LeftParen => {
            let given = Arguments::none(alloc);
            go_in(
                forms,
                Form::Call {
                    at,
                    function,
                    given,
                },
            )
        }
        _ => Err(StepError::Unexpected),
    }
}

/// Where the name of a `let` stands.
pub fn let_name(forms: Vec<Form>, at: usize, token: Token) -> Result<Machine, StepError>
    ensures { GivesAt result forms (LetName at) token }
{
    match token.kind {
        TokenKind::Name(len) => {
            let name = Span { at: token.at, len };
            Ok(Machine {
                forms,
                point: Point::LetEquals { at, name },
            })
        }
        _ => Err(StepError::Unexpected),
    }
}

/// After the name of a `let`.
pub fn let_equals(
    forms: Vec<Form>,
    at: usize,
    name: Span,
    token: Token,
) -> Result<Machine, StepError>
    ensures { GivesAt result forms (LetEquals at name) token }
{
    match token.kind {
        TokenKind::Equals => go_in(forms, Form::Value { at, name }),
        _ => Err(StepError::Unexpected),
    }
}

/// Where the name of a comprehension's next binder stands.
pub fn binder_name(
    forms: Vec<Form>,
    at: usize,
    body: Measured,
    bound: Bound,
    token: Token,
) -> Result<Machine, StepError>
    ensures { GivesAt result forms (BinderName at body bound) token }
{
    match token.kind {
        TokenKind::Name(len) => {
            let name = Span { at: token.at, len };
            Ok(Machine {
                forms,
                point: Point::BinderIn {
                    at,
                    body,
                    bound,
                    name,
                },
            })
        }
        _ => {
            let_go(body);
            Err(StepError::Unexpected)
        }
    }
}

/// After the name of a comprehension's next binder.
pub fn binder_in(
    forms: Vec<Form>,
    at: usize,
    body: Measured,
    bound: Bound,
    name: Span,
    token: Token,
) -> Result<Machine, StepError>
    ensures { GivesAt result forms (BinderIn at body bound name) token }
{
    match token.kind {
        TokenKind::In => go_in(
            forms,
            Form::Source {
                at,
                body,
                bound,
                name,
            },
        ),
        _ => {
            let_go(body);
            Err(StepError::Unexpected)
        }
    }
}
