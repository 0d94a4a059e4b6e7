//! The translation of expressions: the steps that they become.
#![tactic(auto)]

mod forms;
mod frames;
mod functions;
mod rows;
pub mod scopes;
pub mod steps;
mod translator;

pub use translator::{ProgramContext, translate};
