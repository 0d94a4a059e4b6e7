//! Edges between transducers: all that their user needs, from one crate.
//!
//! An edge is a first-in-first-out list of messages with one writer and one reader, as a channel in
//! Kahn's networks of processes (1974). It holds no more messages than its capacity. A message
//! ([`Msg`]) is an item of a [`Kind`], or the end of the stream.
//!
//! - [`edge`] makes an edge over a ring. Its two ends, an [`EdgeWriter`] and an [`EdgeReader`], may
//!   lie in threads of their own. Where they [`meet`], it is known what was put and not yet taken.
//! - [`scalar_edge`] makes an edge of scalars of one kind. Its messages ([`Flat`]) may also be put and
//!   taken many at a time, as a [`Block`].
//! - [`Ends`] is what a driver of transducers sees: some ends of some edges, each named by its
//!   edge's number. A [`Table`] has both ends of every edge in one thread. [`Rings`] are the ends of lanes
//!   that one thread owns: a [`lane`] is an edge between threads whose scalars go many at once.
//!   [`Boxes`] are ends between which messages pass only when they are carried ([`carry`], [`carry_own`]).
//!
//! For example: an edge of capacity 3 takes two items and `End`, and refuses a fourth message as
//! `Closed`. After [`meet`] the reader is certain of three messages. It takes them in the order in
//! which they were put.
//!
//! No call waits, and only what makes ends takes memory. The theorems at the end of the list are
//! functions that do nothing: their contracts say what follows over several calls.
//!
//! Everything here is passed on from [`lanes`] and from the crates flow_messages, flow_rings and flow_boxes, with
//! the words of its contracts (`specs/Lib.antt`).
#![tactic(auto)]

pub mod lanes;

pub use crate::lanes::{LaneReader, LaneWriter, Rings, lane, meet_lane, rings_stay_joined};
pub use flow_boxes::{
    Boxes, carry, carry_own, fresh_boxes_are_linked, fresh_boxes_stay_fresh, links_stay,
};
pub use flow_messages::{
    CountedEnds, Ends, Item, Items, Kind, MAX_CAPACITY, Msg, Refused, Table, Typed, WholeEnds, Why,
    counts_are_exact, nothing_after_stop, put_adds_one, take_gives_oldest,
    take_gives_what_was_certain,
};
pub use flow_rings::{
    Block, Closing, ClosingFlags, ClosingInts, ClosingUnits, EdgeReader, EdgeWriter, FinishedMark,
    Flat, Held, all_was_received, edge, meet, same_ends_are_an_edge, scalar_edge,
};
