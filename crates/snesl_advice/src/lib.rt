//! What a person is told of a program that is refused: what stands where it goes wrong, what could stand there, which bracket is
//! open, what an operator takes, and how this language writes what others write otherwise.
#![tactic(auto)]

pub mod brackets;
pub mod culprits;
mod faults;
pub mod following;
pub mod habits;
pub mod inputs;
pub mod lexemes;
pub mod mismatches;
pub mod names;
mod near;
pub mod reach;
mod refusals;
pub mod streams;
pub mod syntax;
mod telling;
mod tokens;

pub use brackets::open_bracket;
pub use faults::noted_fault_message;
pub use following::{Follower, followers, takes_next};
pub use habits::habit_of_name;
pub use inputs::input_message;
pub use lexemes::lexical_message;
pub use mismatches::mismatch_message;
pub use names::name_message;
pub use refusals::{Advice, advice_on};
pub use streams::streamed_message;
pub use syntax::syntax_message;
