// Declarations.

use crate::tree::expr::Expr;
use crate::tree::span::Span;

/// A type as the text has it. Offsets are those of first tokens, in bytes of the text from 0.
#[derive(Debug, Drop)]
pub enum WrittenType {
    Int {
        at: usize,
    },
    Bool {
        at: usize,
    },
    /// `(first, second)`.
    Pair {
        at: usize,
        first: Box<WrittenType>,
        second: Box<WrittenType>,
    },
    /// `[item]`: a vector.
    Vector {
        at: usize,
        item: Box<WrittenType>,
    },
    /// `{item}`: a sequence.
    Sequence {
        at: usize,
        item: Box<WrittenType>,
    },
}

/// A name and its type, of an input or of a parameter.
#[derive(Debug, Drop)]
pub struct Typing {
    pub name: Span,
    pub ty: WrittenType,
}

/// What stands before the expression of a program.
#[derive(Debug, Drop)]
pub enum Declaration {
    /// `input name : type;`.
    Input(Typing),
    /// `function name(name : type, ..) : type = expression;`.
    Function(Function),
}

/// A function: it has one parameter or more.
#[derive(Debug, Drop)]
pub struct Function {
    pub name: Span,
    pub parameters: Vec<Typing>,
    pub result: WrittenType,
    pub body: Expr,
}
