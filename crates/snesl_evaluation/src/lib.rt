// Plain evaluation: what a program means, with all of each sequence in memory.
#![tactic(auto)]

mod builtins;
mod calls;
mod entries;
mod evaluator;
mod halt;
mod laws;
mod operators;
mod parts;
mod scope;
mod sequences;

pub use calls::find_function;
pub use entries::{Entry, entries_of};
pub use evaluator::{all_columns, all_values, evaluate, value};
pub use halt::Halt;
pub use laws::derived_forms;
pub use scope::{Column, ProgramContext, Scope};
