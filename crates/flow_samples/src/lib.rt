//! Graphs as text, messages and blocks by words and numbers, and ends that are opened: what several crates of tests take.
#![tactic(auto)]

mod blocks;
mod building;
mod kinds;
mod node_words;
mod opened;
mod sketches;
mod words;

pub use blocks::block;
pub use building::{add, built, join};
pub use kinds::kinds_taken;
pub use node_words::node_of;
pub use opened::{alike, crossed, lone, own_owner, owners};
pub use sketches::{
    LONG_CHAIN, MANY_UNITS, ONE_UNIT, PRINTS_BELOW_FIVE, SCAN_OF_NUMBERS, SCAN_OF_QUOTIENTS,
    SUM_OF_FIVE, SUM_OF_UNLIKE, WAITS_FOR_ITS_LENGTH, drawn, graph_of,
};
pub use words::{WordError, message, number_of};
