// The translation of expressions into plans of transducers.
#![tactic(auto)]

mod laws;
pub mod wiring;

pub use laws::{expressions_are_translated, literals_are_written_out, programs_are_planned};
