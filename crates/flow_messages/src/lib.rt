//! Edges between transducers: first-in-first-out lists of messages, each with a writer and a reader.
//!
//! An edge is a channel as in Kahn's networks of processes (1974), but it holds no more messages than
//! its capacity. A message is an item or the end of the stream. [`Ends`] is what a driver of
//! transducers sees of a set of edges, [`WholeEnds`] where it sees both ends of each, [`CountedEnds`]
//! where the messages are counted, and [`Table`] holds both ends of every edge, in one thread.
#![tactic(auto)]

mod column;
mod counted;
mod ends;
mod flat;
mod histories;
pub mod history;
mod int_run;
mod items;
mod line;
mod message;
mod run;
mod store;
mod table;
mod table_ends;
mod theorems;
mod typed;
mod whole;

pub use counted::CountedEnds;
pub use ends::{Ends, Refused, Why};
pub use flat::{Block, Flat};
pub use histories::with_items;
pub use items::Items;
pub use message::{Item, Kind, Msg};
pub use store::Store;
pub use table::{MAX_CAPACITY, Table};
pub use theorems::{
    counts_are_exact, nothing_after_stop, put_adds_one, take_gives_oldest,
    take_gives_what_was_certain,
};
pub use typed::Typed;
pub use whole::WholeEnds;
