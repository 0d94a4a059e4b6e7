//! What the Print of a network gathers.

mod laws;

pub use laws::print_tells;
