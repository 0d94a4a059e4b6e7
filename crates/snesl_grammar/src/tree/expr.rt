// Expressions.

ghost use Rattle.std.specs.Prelude.{◌≡◌};
ghost use Rattle.snesl_grammar.specs.tree.Tree.{offset};
ghost use Rattle.snesl_grammar.specs.tree.View.{tree_of};

use crate::tree::operator::{Builtin, Operator, Prefix};
use crate::tree::span::Span;

/// An expression. Offsets count bytes of the program text from 0; that of a binary form is its
/// operator's, that of every other form its first token's.
///
/// The comprehension is the apply-to-each form of NESL 3.1 (Blelloch 1995).
#[derive(Debug, Drop)]
#[cycle(tree)]
pub enum Expr {
    Integer {
        at: usize,
        value: i128,
    },
    /// `true` or `false`.
    Truth {
        at: usize,
        value: bool,
    },
    Name(Span),
    Binary {
        at: usize,
        operator: Operator,
        left: Box<Expr>,
        right: Box<Expr>,
    },
    Prefix {
        at: usize,
        operator: Prefix,
        operand: Box<Expr>,
    },
    /// A function that the language has, at its arguments.
    Call {
        at: usize,
        function: Builtin,
        arguments: Vec<Expr>,
    },
    /// A declared function at its arguments.
    Apply {
        function: Span,
        arguments: Vec<Expr>,
    },
    /// An expression in parentheses.
    Group {
        at: usize,
        inner: Box<Expr>,
    },
    /// `(first, second)`.
    Pair {
        at: usize,
        first: Box<Expr>,
        second: Box<Expr>,
    },
    /// `let name = value in body`.
    Let {
        at: usize,
        name: Span,
        value: Box<Expr>,
        body: Box<Expr>,
    },
    /// `if condition then yes else no`.
    If {
        at: usize,
        condition: Box<Expr>,
        positive: Box<Expr>,
        negative: Box<Expr>,
    },
    /// `{item, ..}`, with one item or more.
    Literal {
        at: usize,
        items: Vec<Expr>,
    },
    /// `{item | condition}`: the item where the condition is true, and else nothing.
    Filter {
        at: usize,
        item: Box<Expr>,
        condition: Box<Expr>,
    },
    /// `{body : name in source; ..}`, or with `| condition` after the binders.
    Each {
        at: usize,
        body: Box<Expr>,
        binders: Vec<Binder>,
        condition: Option<Box<Expr>>,
    },
}

/// `name in source`: a name that stands for each element of a sequence in turn.
#[derive(Debug, Drop)]
#[cycle(tree)]
pub struct Binder {
    pub name: Span,
    pub source: Expr,
}

impl Expr {
    /// The offset that the expression keeps.
    pub fn at(&self) -> usize
        ensures { result ≡ offset (tree_of self.now) }
    {
        match self {
            Expr::Name(name) => name.at,
            Expr::Apply { function, .. } => function.at,
            Expr::Integer { at, .. }
            | Expr::Truth { at, .. }
            | Expr::Binary { at, .. }
            | Expr::Prefix { at, .. }
            | Expr::Call { at, .. }
            | Expr::Group { at, .. }
            | Expr::Pair { at, .. }
            | Expr::Let { at, .. }
            | Expr::If { at, .. }
            | Expr::Literal { at, .. }
            | Expr::Filter { at, .. }
            | Expr::Each { at, .. } => *at,
        }
    }
}
