//! Dealing the nodes of a graph by a cut, by the messages of a short run in one thread, and choosing how many threads it is worth.
#![tactic(auto)]

mod choice;
pub mod cut;
mod dealing;
mod prices;
mod trial;
mod tried;
mod weights;

pub use choice::{Choice, LONG, choose_threads, is_sooner};
pub use dealing::{Dealing, deal_by_trial};
pub use tried::{SHORT, Tried, try_out};
