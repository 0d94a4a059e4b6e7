// From tokens to expressions.

mod closings;
mod forms;
pub mod limits;
mod machine;
mod measured;
mod operands;

pub use limits::GREATEST_DEPTH;
pub use machine::{Machine, StepError};
pub use snesl_grammar::tree::Expr;
