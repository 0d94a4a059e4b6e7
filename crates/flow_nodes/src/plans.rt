//! Plans: which transducers a network is made of, the streams that each of them reads, and what holds of such a network.

mod laws;
mod operation;

pub use laws::{plan_is_its_flow, source_is_set};
pub use operation::{Operation, Step};
