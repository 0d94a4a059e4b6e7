//! The two ends of an edge, which may lie in threads of their own.
//!
//! Transducers pass messages to one another over edges. An edge is a first-in-first-out list of
//! messages with one writer and one reader, as a channel in Kahn's networks of processes (1974), but
//! it holds no more messages than its capacity. [`edge`] makes one and gives its two ends. Whoever
//! holds the [`EdgeWriter`] alone puts messages on the edge, and whoever holds the [`EdgeReader`]
//! alone takes them. Each end has one owner at a time, and may move to another thread.
//!
//! - [`EdgeWriter::put`] puts a message after all others, or gives it back where the edge is full or
//!   closed. An edge is closed once `End` was put on it. [`EdgeWriter::room`] tells whether a put is
//!   certain of room.
//! - [`EdgeReader::take`] takes the oldest message, or gives none. [`EdgeReader::ready`] tells whether
//!   a take is certain of a message.
//! - An end alone knows what it has seen: a message or room that came since may be missed, but what is
//!   certain stays so. [`meet`] takes both ends at once: what was taken and what the edge then holds
//!   are exactly what was put.
//! - [`EdgeWriter::finish`] gives up the writer for a mark. With it the reader learns in
//!   [`EdgeReader::after`] how many messages are left for it.
//!
//! No call waits for the other end, and none takes memory but [`edge`] and [`scalar_edge`]. The ends are
//! those of a ring of the crate `rtrb`.
#![tactic(auto)]

pub mod crossing;
mod making;
mod reader;
mod receiving;
mod ring;
mod sending;
mod theorems;
mod writer;

pub use flow_messages::{Block, Flat};
pub use making::{edge, meet, scalar_edge};
pub use ring::{
    Closing, ClosingFlags, ClosingInts, ClosingUnits, EdgeReader, EdgeWriter, FinishedMark, Held,
};
pub use theorems::{all_was_received, same_ends_are_an_edge};
