//! Shares of a graph: some of its nodes, and the ends of their edges, which one thread runs.
//!
//! A graph is taken apart, and [`deal_nodes`] puts each of its nodes into one share. With the ends of the edges at its ports
//! that is a [`Share`]. [`pump`] visits the nodes of a share in turn, as long as they can step by what its own ends are
//! certain of. What other threads do meanwhile it neither sees nor needs: each node goes on by reads and writes of its own,
//! which are just what came to the lists of its ends.
//!
//! [`run_all`] pumps each share in a thread of its own. Before each start a [`Start`] is asked, so that a test can refuse
//! one. Between two pumps a share may lend its ends, so that they meet those of other shares ([`Share::lend`]), and be asked
//! whether one of its nodes can step ([`Share::is_stuck`]). [`gather`] puts the nodes in order again.
#![tactic(auto)]

mod deal;
mod entry;
mod error;
mod gate;
mod gathering;
mod lender;
pub mod meetings;
mod over;
mod pass;
mod share;
mod start;
mod stuck;
mod theorems;
mod threads;
mod turns;

pub use deal::deal_nodes;
pub use entry::share_of;
pub use error::WorkError;
pub use gate::{Gate, NoGate};
pub use gathering::gather;
pub use lender::Lender;
pub use share::Share;
pub use start::{AlwaysStart, Start};
pub use theorems::{dealt_stay_dealt, just_dealt_are_dealt};
pub use threads::run_all;
pub use turns::{MAX_TURNS, pump};
