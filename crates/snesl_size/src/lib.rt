//! How much the edges of a program's network must hold.
#![tactic(auto)]

mod laws;
mod search;
pub mod size;
mod table;

pub use laws::ending_stays;
pub use search::least_capacity;
pub use size::Size;
pub use table::size_table;
