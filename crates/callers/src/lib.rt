//! Callers of public crates, as a stranger would write them. docs/CALLING.md tells of them.
//!
//! Each module is named after what it calls, and is proved from the contracts of public crates. A function here
//! is short, and does one thing.
#![tactic(auto)]

pub mod drive;
pub mod edges;
pub mod flatten;
pub mod graph;
pub mod plans;
pub mod run;
pub mod scalar;
pub mod segment;
pub mod strangers;
pub mod syntax;
pub mod types;
pub mod values;
