//! Flattening: from a typed program to the network that computes its value.
#![tactic(auto)]

mod flattening;
mod inputs;
pub mod network;
mod offsets;
mod plan;
mod steps;
pub mod texts;

pub use flattening::flatten;
pub use flow_nodes::StreamNode;
pub use plan::Plan;
