//! What a program means for an input text.
#![tactic(auto)]

mod meaning;
pub mod worked;

pub use meaning::one_meaning;
