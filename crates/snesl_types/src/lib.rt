// Typing.
#![tactic(auto)]

mod builtins;
pub mod checker;
pub mod clashes;
mod declarations;
mod expressions;
mod fits;
mod forms;
mod misfits;
mod names;
mod reference;
mod sizes;
pub mod typed;

pub use checker::{check, one_typing};
pub use clashes::{Clash, clash_at};
pub use reference::{plain, soundness};
pub use typed::TypedProgram;
