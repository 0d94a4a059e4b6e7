//! Which names may stand where a name stands in a program: of values those that are bound around it, of functions those that are
//! declared before it.

pub mod names;
pub mod search;

pub use names::Candidates;
pub use search::candidates_at;
