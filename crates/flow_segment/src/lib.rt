//! Transducers over segments: those that count, join, choose and deal out the segments of sequences, and the items that
//! go with them.
//!
//! The nodes over vectors, [`Tab`], [`Seq`] and [`Index`], and [`Print`] are passed on from flow_values.
//!
//! A segment is a list of flags: `false` (F) for each of its elements, then `true` (T). Each transducer here but
//! [`Print`] is a [`Node`](flow_base::Node) whose [`Worker`](flow_base::Worker) has the same name in [`workers`].
#![tactic(auto)]

mod append_flags;
mod concat_flags;
mod dist;
mod flag_of_bool;
mod interleave;
mod interleave_groups;
mod over_flags;
mod pack;
mod pack_groups;
mod part_flags;
mod same_flags;
mod the_check;
mod transducers;
pub mod workers;

pub use flow_values::Print;
pub use transducers::{
    AppendFlags, ConcatFlags, Dist, FlagOfBool, Index, Interleave, InterleaveGroups, Pack,
    PackGroups, PartFlags, SameFlags, Seq, Tab, TheCheck,
};
