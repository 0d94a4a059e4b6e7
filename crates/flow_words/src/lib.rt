//! The two ends of an edge for scalars of one kind, which may lie in threads of their own. What goes over it are words, as few
//! bytes as the kind needs, many at once.
#![tactic(auto)]

mod making;
mod reader;
mod receiving;
mod ring;
mod sending;
mod single;
mod theorems;
mod words;
mod writer;

pub use making::{meet, word_edge};
pub use ring::{ClosingFlags, ClosingInts, ClosingUnits, WordReader, WordWriter};
pub use theorems::{same_ends_are_an_edge, what_came_is_in_turn};
pub use words::{FlagWord, Group, UnitWord};
