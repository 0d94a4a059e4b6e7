//! What a fault tells: the values of the parts of the form that it stands at.
#![tactic(auto)]

mod finding;
mod notes;
mod parts;
mod search;
mod told;

pub use notes::note_of;
pub use told::values_at_fault;
