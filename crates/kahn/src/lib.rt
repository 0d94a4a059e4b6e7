//! Networks of sequential processes that are joined by edges, each of which hands on what it was given, in
//! order, and holds no more than so many messages at once: what holds of every such network, whatever the
//! schedule by which its processes step (G. Kahn, "The semantics of a simple language for parallel
//! programming", Information Processing 74, 1974).
//!
//! The theorems are the contracts of functions with an empty body. The definitions that they speak of stand
//! in specs/, and the lemmas in proofs/.
#![tactic(auto)]

pub mod faults;
pub mod outcome;
pub mod theorems;
pub mod want;

pub use outcome::Outcome;
pub use want::Want;
