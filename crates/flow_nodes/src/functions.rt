//! The rows of the transducers as partial functions on the lists that come in.

mod laws;

pub use laws::rows_are_functions;
