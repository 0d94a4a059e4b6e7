//! The drives of several threads: shares run in rounds over boxes, and in epochs over rings.
//!
//! The nodes of a graph are dealt out to shares. In a round each share, over boxes of its own, is pumped in a thread, all
//! of them side by side; then all are joined, and the messages are carried from the writers' boxes to the readers'.
//! [`run_rounds`] makes rounds as long as a node can step. What all shares did is one run of the graph's network, whatever
//! the threads did at what time.
//!
//! Over rings each edge is one lane, whose two ends lie in the shares of its writer and its reader. In an [`epoch`] the ends
//! of every edge meet, each share is pumped in a thread, all of them side by side, and then the ends meet again. Within an
//! epoch messages pass between the threads as they come, so that what all shares did need not be a run whose steps came one
//! after another; but where the ends have met, the shares stand at a sound configuration of the graph's network (G. Kahn,
//! "The semantics of a simple language for parallel programming", 1974). [`run_epochs`] makes epochs as long as a node can
//! step there.

mod epoch_meeting;
mod epoch_parts;
mod epochs;
mod owners;
mod part;
mod round;
mod round_meeting;
mod round_parts;
mod theorems;

pub use epochs::{epoch, run_epochs};
pub use owners::owners_of_shares;
pub use round::run_rounds;
pub use theorems::epochs_are_few;
