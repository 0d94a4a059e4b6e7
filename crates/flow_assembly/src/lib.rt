//! From the steps of a plan to its network: the graph of their transducers, each stream joined to all that read it.
#![tactic(auto)]

mod assembly;
mod building;
mod counted_steps;
mod laws;
mod network;
mod nodes;

pub use assembly::{Assembled, assemble};
pub use laws::{openings_perform, plan_has_one_network};
