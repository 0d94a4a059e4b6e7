// What a program may go on with.

ghost use Rattle.std.specs.Prelude.{◌≡◌, ◌↔◌, ◌≤◌, IfOk, IsTrue, length};
ghost use Rattle.std.specs.List.{All};
ghost use Rattle.snesl_advice.specs.Followers.{GoesOnWith, phrase, sample};

use snesl_data::Refusal;
use snesl_syntax::parse;
use std::alloc::{AllocError, Global};

/// What may stand next in a program.
#[derive(Clone, Copy, Debug, PartialEq, Eq)]
pub enum Follower {
    In,
    Then,
    Else,
    ClosingParenthesis,
    ClosingBrace,
    ClosingBracket,
    OpeningParenthesis,
    Equals,
    Colon,
    Comma,
    Semicolon,
    Bar,
    Name,
    Type,
    Value,
    Operator,
}

/// All of them, in the order in which they are told.
const FOLLOWERS: [Follower; 16] = [
    Follower::In,
    Follower::Then,
    Follower::Else,
    Follower::ClosingParenthesis,
    Follower::ClosingBrace,
    Follower::ClosingBracket,
    Follower::OpeningParenthesis,
    Follower::Equals,
    Follower::Colon,
    Follower::Comma,
    Follower::Semicolon,
    Follower::Bar,
    Follower::Name,
    Follower::Type,
    Follower::Value,
    Follower::Operator,
];

impl Follower {
    /// A word of the language that it may be.
    pub fn sample(self) -> &'static str
        ensures { result.now ≡ sample self }
    {
        match self {
            Follower::In => "in",
            Follower::Then => "then",
            Follower::Else => "else",
            Follower::ClosingParenthesis => ")",
            Follower::ClosingBrace => "}",
            Follower::ClosingBracket => "]",
            Follower::OpeningParenthesis => "(",
            Follower::Equals => "=",
            Follower::Colon => ":",
            Follower::Comma => ",",
            Follower::Semicolon => ";",
            Follower::Bar => "|",
            Follower::Name => "x",
            Follower::Type => "int",
            Follower::Value => "1",
            Follower::Operator => "+",
        }
    }

    /// How a person is told of it.
    pub fn phrase(self) -> &'static str
        ensures { result.now ≡ phrase self }
    {
        match self {
            Follower::In => "`in`",
            Follower::Then => "`then`",
            Follower::Else => "`else`",
            Follower::ClosingParenthesis => "`)`",
            Follower::ClosingBrace => "`}`",
            Follower::ClosingBracket => "`]`",
            Follower::OpeningParenthesis => "`(`",
            Follower::Equals => "`=`",
            Follower::Colon => "`:`",
            Follower::Comma => "`,`",
            Follower::Semicolon => "`;`",
            Follower::Bar => "`|`",
            Follower::Name => "a name",
            Follower::Type => "a type",
            Follower::Value => "a value",
            Follower::Operator => "an operator",
        }
    }
}

/// Whether what stands in the program before the offset goes on with this word: with a blank and the word after it, it is a
/// program, or all its tokens begin one within the limits. The error is that memory was refused.
pub fn takes_next(alloc: Global, program: &[u8], at: usize, word: &str) -> Result<bool, AllocError>
    requires { at ≤ length program.now }
    ensures { IfOk result (λ yes. IsTrue yes ↔ GoesOnWith program.now at word.now) }
{
    let mut text = Vec::from_slice(alloc, &program[..at])?;
    text.push(b' ')?;
    text.extend_from_slice(word.as_bytes())?;
    match parse(alloc, &text) {
        Ok(_) => Ok(true),
        Err(Refusal::Syntax(place)) => Ok(place == text.len()),
        Err(Refusal::NoMemory) => Err(AllocError),
        Err(_) => Ok(false),
    }
}

/// What may stand next in the program at the offset: each of these does, of all in their order. The error is that memory was
/// refused.
pub fn followers(alloc: Global, program: &[u8], at: usize) -> Result<Vec<Follower>, AllocError>
    requires { at ≤ length program.now }
    ensures { IfOk result (λ found. All (λ one. GoesOnWith program.now at (sample one)) found.items) }
{
    let mut found = Vec::new(alloc);
    for follower in FOLLOWERS {
        if takes_next(alloc, program, at, follower.sample())? {
            found.push(follower)?;
        }
    }
    Ok(found)
}
