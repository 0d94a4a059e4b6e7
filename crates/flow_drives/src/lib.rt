//! Drives: what runs a graph of stream transducers until no node can step.
#![tactic(auto)]

mod all_ends;
mod config;
mod dealing;
mod driver;
mod epochs;
mod joined;
pub mod loops;
mod numbered;
mod origin;
mod outcome;
mod parts;
mod places;
mod pumping;
mod queries;
mod rested;
mod ring_shares;
mod rounds;
mod share_ends;
mod theorems;

pub use config::{Config, Drive, MAX_CHUNK, MAX_IDLE_TURNS, MAX_SHARE, MAX_THREADS};
pub use dealing::{deal, deal_rings};
pub use driver::{DriveError, drive, drive_with};
pub use epochs::{epoch, epoch_with};
pub use flow_base::{Printing, Transducer};
pub use flow_boxes::Boxes;
pub use flow_edges::lanes::Rings;
pub use flow_messages::Ends;
pub use flow_messages::history::History;
pub use flow_networks::runs_rest_alike;
pub use flow_shares::meetings::are_fed;
pub use flow_shares::{AlwaysStart, Gate, NoGate, Share, Start};
pub use kahn::Outcome;
pub use pumping::pump;
pub use rested::Rested;
pub use theorems::rested_is_sound;
