//! Dealing the nodes of a network to threads, so that the greatest load is small.

mod cut;
mod link;
mod loads;
mod near;
mod search;
mod starts;

pub use cut::deal_by_cut;
pub use link::Link;
pub use loads::{are_between, greatest_load};
pub use starts::by_turns;
