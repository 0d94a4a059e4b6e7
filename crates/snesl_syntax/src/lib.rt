// From the text of a program to its tree.
#![tactic(auto)]

mod dialects;
pub mod expressions;
mod limits;
mod parser;
mod programs;
mod types;

pub use parser::{fronts_begin_programs, one_answer, parse};
pub use snesl_grammar::Program;
pub use snesl_grammar::tree::{
    Binder, Builtin, Declaration, Expr, Function, Operator, Prefix, Span, Typing, WrittenType,
};
