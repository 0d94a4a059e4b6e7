// What stands after an operand: operators, and what ends a part of a form.

ghost use Rattle.snesl_syntax.specs.declared.expressions.forms.Form.TheVariants.{Braces, Source};
ghost use Rattle.snesl_syntax.specs.declared.expressions.machine.Point.TheVariants.{After};
ghost use Rattle.snesl_syntax.specs.expressions.Machine.{joining, closing_move, apply_move, comma_move, paren_move, brace_move, colon_move, bar_move, semicolon_move, in_move, then_move, else_move};
ghost use Rattle.snesl_syntax.specs.expressions.Parts.{tree_in};
ghost use Rattle.snesl_syntax.specs.expressions.Parsing.{frames_in, pile, GivesBy, GivesAt, ending_move};

use crate::expressions::forms::{
    Form, Innermost, find_innermost, floor_of, left_level_of, let_go, level_of, reduced,
};
use crate::expressions::limits::{GREATEST_BINDER_COUNT, GREATEST_DEPTH};
use crate::expressions::machine::{Machine, Point, StepError, behind, enter, go_in};
use crate::expressions::measured::{Arguments, Bound, Measured};
use snesl_grammar::lexer::{Token, TokenKind};
use snesl_grammar::tree::{Expr, Operator, Span};
use std::alloc::Global;

/// A token that ends a part of the innermost form with a closing token.
#[derive(Clone, Copy)]
pub enum Ending {
    Comma,
    RightParen,
    RightBrace,
    Colon,
    Bar,
    Semicolon,
    In,
    Then,
    Else,
}

/// After an operand.
pub fn after(
    alloc: Global,
    forms: Vec<Form>,
    last: Measured,
    token: Token,
) -> Result<Machine, StepError>
    ensures { GivesAt result forms (After last) token }
{
    match token.kind {
        TokenKind::Or => infix(alloc, forms, last, Operator::Or, token.at),
        TokenKind::And => infix(alloc, forms, last, Operator::And, token.at),
        TokenKind::Same => infix(alloc, forms, last, Operator::Equal, token.at),
        TokenKind::Less => infix(alloc, forms, last, Operator::Less, token.at),
        TokenKind::AtMost => infix(alloc, forms, last, Operator::AtMost, token.at),
        TokenKind::Greater => infix(alloc, forms, last, Operator::Greater, token.at),
        TokenKind::AtLeast => infix(alloc, forms, last, Operator::AtLeast, token.at),
        TokenKind::Append => infix(alloc, forms, last, Operator::Append, token.at),
        TokenKind::Plus => infix(alloc, forms, last, Operator::Add, token.at),
        TokenKind::Minus => infix(alloc, forms, last, Operator::Subtract, token.at),
        TokenKind::Star => infix(alloc, forms, last, Operator::Multiply, token.at),
        TokenKind::Slash => infix(alloc, forms, last, Operator::Divide, token.at),
        TokenKind::Percent => infix(alloc, forms, last, Operator::Remainder, token.at),
        TokenKind::At => infix(alloc, forms, last, Operator::Index, token.at),
        TokenKind::LeftParen => apply(alloc, forms, last),
        TokenKind::Comma => closing_move(alloc, forms, last, Ending::Comma),
        TokenKind::RightParen => closing_move(alloc, forms, last, Ending::RightParen),
        TokenKind::RightBrace => closing_move(alloc, forms, last, Ending::RightBrace),
        TokenKind::Colon => closing_move(alloc, forms, last, Ending::Colon),
        TokenKind::Bar => closing_move(alloc, forms, last, Ending::Bar),
        TokenKind::Semicolon => closing_move(alloc, forms, last, Ending::Semicolon),
        TokenKind::In => closing_move(alloc, forms, last, Ending::In),
        TokenKind::Then => closing_move(alloc, forms, last, Ending::Then),
        TokenKind::Else => closing_move(alloc, forms, last, Ending::Else),
        _ => {
            let_go(last);
            Err(StepError::Unexpected)
        }
    }
}

// Where an operator stands after an operand.
fn infix(
    alloc: Global,
    forms: Vec<Form>,
    last: Measured,
    operator: Operator,
    at: usize,
) -> Result<Machine, StepError>
    ensures { GivesBy result (joining operator at (frames_in forms) (tree_in last)) }
{
    let (outer, left) = reduced(alloc, forms, last, left_level_of(operator))?;
    if floor_of(&outer) > level_of(operator) {
        let_go(left);
        return Err(StepError::Unexpected);
    }
    if left.deep.saturating_add(outer.len()) >= GREATEST_DEPTH {
        let_go(left);
        return Err(StepError::TooDeep);
    }
    go_in(outer, Form::Binary { at, operator, left })
}

// Where a parenthesis opens after an operand: only after a function's name.
fn apply(alloc: Global, forms: Vec<Form>, last: Measured) -> Result<Machine, StepError>
    ensures { GivesBy result (apply_move (frames_in forms) (tree_in last)) }
{
    match &*last.expr {
        Expr::Name(name) => {
            let function = *name;
            let_go(last);
            let given = Arguments::none(alloc);
            enter(forms, Form::Apply { function, given })
        }
        _ => {
            let_go(last);
            Err(StepError::Unexpected)
        }
    }
}

// Where a token ends a part of the innermost form that does not close by itself.
fn closing_move(
    alloc: Global,
    forms: Vec<Form>,
    last: Measured,
    ending: Ending,
) -> Result<Machine, StepError>
    ensures { GivesBy result (closing_move (ending_move ending) (frames_in forms) (tree_in last)) }
{
    let Innermost { outer, form, whole } = find_innermost(alloc, forms, last)?;
    ended(alloc, outer, form, whole, ending)
}

// The same, where that form and the part are found.
fn ended(
    alloc: Global,
    outer: Vec<Form>,
    form: Form,
    whole: Measured,
    ending: Ending,
) -> Result<Machine, StepError>
    ensures { GivesBy result (ending_move ending (pile form outer) (tree_in whole)) }
{
    match ending {
        Ending::Comma => comma(outer, form, whole),
        Ending::RightParen => right_paren(alloc, outer, form, whole),
        Ending::RightBrace => right_brace(alloc, outer, form, whole),
        Ending::Colon => colon(alloc, outer, form, whole),
        Ending::Bar => bar(outer, form, whole),
        Ending::Semicolon => semicolon(outer, form, whole),
        Ending::In => let_in(outer, form, whole),
        Ending::Then => then(outer, form, whole),
        Ending::Else => or_else(outer, form, whole),
    }
}

// A comma ends an argument, the first part of a pair, or an item.
fn comma(outer: Vec<Form>, form: Form, whole: Measured) -> Result<Machine, StepError>
    ensures { GivesBy result (comma_move (pile form outer) (tree_in whole)) }
{
    match form {
        Form::Call {
            at,
            function,
            given,
        } => {
            let given = given.with(whole)?;
            go_in(
                outer,
                Form::Call {
                    at,
                    function,
                    given,
                },
            )
        }
        Form::Apply { function, given } => {
            let given = given.with(whole)?;
            go_in(outer, Form::Apply { function, given })
        }
        Form::Group { at } => go_in(outer, Form::Second { at, first: whole }),
        Form::Braces { at, given } => {
            let given = given.with(whole)?;
            go_in(outer, Form::Braces { at, given })
        }
        _ => {
            let_go(form);
            let_go(whole);
            Err(StepError::Unexpected)
        }
    }
}

// A parenthesis closes a call, a group or a pair.
fn right_paren(
    alloc: Global,
    outer: Vec<Form>,
    form: Form,
    whole: Measured,
) -> Result<Machine, StepError>
    ensures { GivesBy result (paren_move (pile form outer) (tree_in whole)) }
{
    match form {
        Form::Call {
            at,
            function,
            given,
        } => behind(
            outer,
            Measured::call(alloc, at, function, given.with(whole)?)?,
        ),
        Form::Apply { function, given } => {
            behind(outer, Measured::apply(alloc, function, given.with(whole)?)?)
        }
        Form::Group { at } => behind(outer, Measured::group(alloc, at, whole)?),
        Form::Second { at, first } => behind(outer, Measured::pair(alloc, at, first, whole)?),
        _ => {
            let_go(form);
            let_go(whole);
            Err(StepError::Unexpected)
        }
    }
}

// A brace closes a literal, an item with its condition, or a comprehension.
fn right_brace(
    alloc: Global,
    outer: Vec<Form>,
    form: Form,
    whole: Measured,
) -> Result<Machine, StepError>
    ensures { GivesBy result (brace_move (pile form outer) (tree_in whole)) }
{
    match form {
        Form::Braces { at, given } => behind(
            outer,
            Measured::literal(alloc, at, given.with(whole)?)?,
        ),
        Form::Filter { at, item } => behind(outer, Measured::filter(alloc, at, item, whole)?),
        Form::Source {
            at,
            body,
            bound,
            name,
        } => {
            let bound = bound.with(name, whole)?;
            behind(outer, Measured::each(alloc, at, body, bound)?)
        }
        Form::EachCondition { at, body, bound } => {
            behind(outer, Measured::each_where(alloc, at, body, bound, whole)?)
        }
        _ => {
            let_go(form);
            let_go(whole);
            Err(StepError::Unexpected)
        }
    }
}

// A colon ends the body of a comprehension.
fn colon(alloc: Global, outer: Vec<Form>, form: Form, whole: Measured) -> Result<Machine, StepError>
    ensures { GivesBy result (colon_move (pile form outer) (tree_in whole)) }
{
    match form {
        Form::Braces { at, given } => begin_binders(alloc, outer, at, given, whole),
        _ => {
            let_go(form);
            let_go(whole);
            Err(StepError::Unexpected)
        }
    }
}

// Where no item is given before it, an item may be the body of a comprehension.
fn begin_binders(
    alloc: Global,
    outer: Vec<Form>,
    at: usize,
    given: Arguments,
    body: Measured,
) -> Result<Machine, StepError>
    ensures { GivesBy result (colon_move (pile (Braces at given) outer) (tree_in body)) }
{
    if !given.exprs.is_empty() {
        let_go(body);
        return Err(StepError::Unexpected);
    }
    let bound = Bound::none(alloc);
    Ok(Machine {
        forms: outer,
        point: Point::BinderName { at, body, bound },
    })
}

// A bar ends an item with a condition, or the binders of a comprehension.
fn bar(outer: Vec<Form>, form: Form, whole: Measured) -> Result<Machine, StepError>
    ensures { GivesBy result (bar_move (pile form outer) (tree_in whole)) }
{
    match form {
        Form::Braces { at, given } => begin_filter(outer, at, given, whole),
        Form::Source {
            at,
            body,
            bound,
            name,
        } => {
            let bound = bound.with(name, whole)?;
            go_in(outer, Form::EachCondition { at, body, bound })
        }
        _ => {
            let_go(form);
            let_go(whole);
            Err(StepError::Unexpected)
        }
    }
}

// Where no item is given before it, an item may have a condition.
fn begin_filter(
    outer: Vec<Form>,
    at: usize,
    given: Arguments,
    item: Measured,
) -> Result<Machine, StepError>
    ensures { GivesBy result (bar_move (pile (Braces at given) outer) (tree_in item)) }
{
    if !given.exprs.is_empty() {
        let_go(item);
        return Err(StepError::Unexpected);
    }
    go_in(outer, Form::Filter { at, item })
}

// A semicolon ends a binder before the eighth.
fn semicolon(outer: Vec<Form>, form: Form, whole: Measured) -> Result<Machine, StepError>
    ensures { GivesBy result (semicolon_move (pile form outer) (tree_in whole)) }
{
    match form {
        Form::Source {
            at,
            body,
            bound,
            name,
        } => next_binder(outer, at, body, bound, name, whole),
        _ => {
            let_go(form);
            let_go(whole);
            Err(StepError::Unexpected)
        }
    }
}

// Goes on to one more binder, where there may be one more.
fn next_binder(
    outer: Vec<Form>,
    at: usize,
    body: Measured,
    bound: Bound,
    name: Span,
    whole: Measured,
) -> Result<Machine, StepError>
    ensures { GivesBy result
        (semicolon_move (pile (Source at body bound name) outer) (tree_in whole)) }
{
    if bound.binders.len() + 1 >= GREATEST_BINDER_COUNT {
        let_go(body);
        let_go(whole);
        return Err(StepError::Unexpected);
    }
    let bound = bound.with(name, whole)?;
    Ok(Machine {
        forms: outer,
        point: Point::BinderName { at, body, bound },
    })
}

// `in` ends the value of a `let`.
fn let_in(outer: Vec<Form>, form: Form, whole: Measured) -> Result<Machine, StepError>
    ensures { GivesBy result (in_move (pile form outer) (tree_in whole)) }
{
    match form {
        Form::Value { at, name } => go_in(
            outer,
            Form::LetBody {
                at,
                name,
                value: whole,
            },
        ),
        _ => {
            let_go(form);
            let_go(whole);
            Err(StepError::Unexpected)
        }
    }
}

// `then` ends the condition of an `if`.
fn then(outer: Vec<Form>, form: Form, whole: Measured) -> Result<Machine, StepError>
    ensures { GivesBy result (then_move (pile form outer) (tree_in whole)) }
{
    match form {
        Form::Condition { at } => go_in(
            outer,
            Form::Positive {
                at,
                condition: whole,
            },
        ),
        _ => {
            let_go(form);
            let_go(whole);
            Err(StepError::Unexpected)
        }
    }
}

// `else` ends the first branch of an `if`.
fn or_else(outer: Vec<Form>, form: Form, whole: Measured) -> Result<Machine, StepError>
    ensures { GivesBy result (else_move (pile form outer) (tree_in whole)) }
{
    match form {
        Form::Positive { at, condition } => go_in(
            outer,
            Form::Negative {
                at,
                condition,
                positive: whole,
            },
        ),
        _ => {
            let_go(form);
            let_go(whole);
            Err(StepError::Unexpected)
        }
    }
}
