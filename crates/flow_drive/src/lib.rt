//! Drives of graphs: what runs one until no node can step, under a [`Config`].
//!
//! [`drive`] makes all steps at once and gives the graph at rest, a [`Rested`]. The parts of a drive over rings stand by
//! themselves too: [`deal_rings`] deals the graph out to [`Share`]s, [`pump`] runs one of them, and [`epoch`] runs all of
//! them in threads.
//!
//! The room flow_drives has the same for nodes of any type. Here the node is known, so no type has a parameter for it,
//! and that nodes may go to other threads is proved here and not by a caller of [`drive`].
#![tactic(auto)]

mod dealing;
mod driving;
mod pumping;
mod shares;
mod theorems;

pub use dealing::{deal, deal_rings};
pub use driving::{drive, drive_with};
pub use flow_base::Transducer;
pub use flow_boxes::Boxes;
pub use flow_drives::loops::epochs_are_few;
pub use flow_drives::{
    Config, Drive, DriveError, MAX_CHUNK, MAX_IDLE_TURNS, MAX_SHARE, MAX_THREADS, epoch,
    epoch_with, runs_rest_alike,
};
pub use flow_edges::lanes::Rings;
pub use flow_messages::Ends;
pub use flow_messages::history::History;
pub use flow_shares::meetings::are_fed;
pub use flow_shares::{AlwaysStart, Gate, Lender, MAX_TURNS, NoGate, Start, WorkError};
pub use kahn::Outcome;
pub use pumping::pump;
pub use shares::{Rested, Share};
pub use std::alloc::AllocError as NoMemory;
pub use theorems::rested_is_sound;
