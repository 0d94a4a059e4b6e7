//! The layout of programs: where blanks and line feeds stand between the tokens.
#![tactic(auto)]

mod differences;
mod laid;
mod layout;
mod lines;
mod spacing;

pub use differences::first_difference;
pub use laid::{LayoutError, laid_out};
