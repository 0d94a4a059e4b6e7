//! Stream transducers: sequential processes that read and write one message at a time, in the manner of Kahn's
//! networks (G. Kahn, "The semantics of a simple language for parallel programming", 1974), and the workers
//! that most of them are made of.
//!
//! A [`Worker`] reads and writes the items of one instance after another and is told nothing of the ends of
//! streams; a [`Node`] makes a [`Transducer`] of it, and does all that is to be done where streams end.
#![tactic(auto)]

mod certain;
mod node;
mod printing;
mod slices;
mod transducer;
mod worker;

pub use certain::{put_in_space, take_front};
pub use node::{Node, Phase};
pub use printing::Printing;
pub use slices::{Moved, PLACES, Written};
pub use transducer::{Port, Side, Transducer, keeps_laws};
pub use worker::{Ask, BLOCK, SHORT_BLOCK, Stop, Worker, computes_row};
