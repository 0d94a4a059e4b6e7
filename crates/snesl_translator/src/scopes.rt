//! Names where expressions are translated: what they stand for, and how that goes into parts of a program that run more
//! often, or less often.

mod free_names;
mod moving;
mod part;
mod scope;

pub use moving::{distribute_all, keep_all};
pub use part::Part;
pub use scope::{Scope, look_up};
