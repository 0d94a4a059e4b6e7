// From the bytes of a text to a program.

ghost use Rattle.std.specs.Prelude.{◌≡◌, IfOk, IfErr};
ghost use Rattle.snesl_grammar.specs.Limits.{greatest_depth};
ghost use Rattle.snesl_syntax.specs.Answer.{parse_rest};
ghost use Rattle.snesl_syntax.specs.DialectMachine.{reader, FindsWhole, FindsOneOf};
ghost use Rattle.snesl_syntax.specs.Parse.{AnswersTokens, Parses, HaveOneAnswer, HaveSomeAnswer, FrontsBeginPrograms, IsOfText, IsRight, ReturnsEach};

use crate::dialects::{DialectMachine, Whole};
use crate::expressions::StepError;
use crate::limits::GREATEST_LENGTH;
use snesl_data::Refusal;
use snesl_grammar::Program;
use snesl_grammar::lexer::{Token, tokens_of};
use std::alloc::Global;

// The machine's answer for the tokens of a text of so many bytes.
fn answered(alloc: Global, tokens: &[Token], len: usize) -> Result<Whole, Refusal>
    ensures { FindsWhole result (parse_rest reader greatest_depth len reader.start tokens.now) }
{
    let mut machine = DialectMachine::Beginning;
    for token in tokens {
        machine = match machine.step(alloc, *token) {
            Ok(machine) => machine,
            Err(StepError::Unexpected) => return Err(Refusal::Syntax(token.at)),
            Err(StepError::TooDeep) => return Err(Refusal::Deep),
            Err(StepError::NoMemory) => return Err(Refusal::NoMemory),
        };
    }
    match machine.finish(alloc)? {
        Some(whole) => Ok(whole),
        None => Err(Refusal::Syntax(len)),
    }
}

// The program that the tokens of a text of so many bytes are, or the refusal.
fn parse_tokens(alloc: Global, tokens: &[Token], len: usize) -> Result<Whole, Refusal>
    ensures { FindsOneOf (AnswersTokens greatest_depth len tokens.now) result }
{
    answered(alloc, tokens, len)
}

/// The program that a text is, with a copy of the text.
///
/// A program is its dialect, declarations, none or more, and then an expression. The dialect is
/// `dialect 2;`, for integers of 128 bits, or nothing, for those of 64. A declaration is an input,
/// `input name : type;`, or a function, `function name(name : type, ..) : type = expression;`, with
/// one parameter or more.
///
/// A type is `int`, `bool`, a pair `(type, type)`, a vector `[type]` or a sequence `{type}`.
///
/// An expression is one of these, of which the first bind least:
///
/// - `let name = expression in expression`, and `if expression then expression else expression`;
///   both go on as far to the right as they can
/// - `or`; `and`; `==`, `<`, `<=`, `>` and `>=`; `++`; `+` and `-`; `*`, `/` and `%`: between two
///   expressions. Of operators that bind alike the left one is taken first, but comparisons do not
///   stand beside one another without parentheses
/// - `-` and `not` before an expression
/// - `!` between two expressions
/// - an integer, `true`, `false` or a name; a built-in function or a name with one or more
///   arguments in parentheses; an expression or a pair of two in parentheses; and in braces one or
///   more items, `{item | condition}`, or a comprehension `{body : name in source; ..}`, of one to
///   eight binders, with `| condition` after them or without
///
/// `int` and `bool`, an integer, a truth value and a name have depth 1; every other type and
/// expression has 1 more than its deepest part. A program is as deep as its deepest type, function
/// body or expression.
///
/// # Errors
///
/// The first of these that holds; offsets count bytes of the text from 0.
///
/// - `TooLong`: the text has more than 65,536 bytes.
/// - `Lex`: the offset of the first byte of the text at which no token begins, or an integer over
///   the greatest one of the dialect does: 2^63 - 1, or 2^127 - 1 where `dialect`, 2 and `;` are
///   the first three tokens.
/// - `Syntax`: the offset of the first token with which no program within the depth of 64 goes on,
///   where no deeper one goes on with it either. So a first token `dialect` is followed by the
///   integer 2, and that by `;`, and no other token may be `dialect`.
/// - `Deep`: a deeper one goes on with that token.
/// - `Syntax`: the length of the text, where all tokens begin a program within the depth, and are
///   none.
/// - `NoMemory`: memory ran out, at any point.
pub fn parse(alloc: Global, text: &[u8]) -> Result<Program, Refusal>
    // The result is one of the answers for the text.
    ensures right { IsRight (Parses text.now) result }

    // Each answer for the text is the result: every program within the limits is accepted, as its tree.
    ensures accepts { ReturnsEach (Parses text.now) result }

    ensures keeps_text { IfOk result (λ program. program.text.items ≡ text.now) }
    ensures refusals { IfErr result IsOfText }
{
    if text.len() > GREATEST_LENGTH {
        return Err(Refusal::TooLong);
    }
    let tokens = tokens_of(alloc, text)?;
    let whole = parse_tokens(alloc, &tokens, text.len())?;
    let copy = Vec::from_slice(alloc, text)?;
    Ok(Program {
        text: copy,
        dialect: whole.dialect,
        declarations: whole.parsed.declarations,
        expr: whole.parsed.expr,
    })
}

/// Each text has an answer, and no text has two.
pub fn one_answer()
    ensures one { HaveOneAnswer }
    ensures some { HaveSomeAnswer }
{}

/// The tokens that begin a program of a depth, as the grammar lists them, are those to which others
/// can be added so that they are one.
pub fn fronts_begin_programs()
    ensures { FrontsBeginPrograms }
{}
