// The grammar, and the programs that it relates to texts.
#![tactic(auto)]

mod laws;
pub mod lexer;
pub mod program;
pub mod tree;

pub use laws::program_is_spelled;
pub use program::Program;
