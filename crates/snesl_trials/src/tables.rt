//! Tables of jobs: their rows, and the bytes that a row spells.

mod spelling;
mod table;

pub use spelling::{SpellingError, spelled_bytes};
pub use table::{Row, TableError, rows_of};
