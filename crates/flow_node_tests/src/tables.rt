// The tables of single nodes, one for each crate of transducers, and one for what a Print prints. Each text begins on
// the first line of its file, so that a line of the table has the number that it has in the file.

mod print;
mod scalars;
mod segments;
mod values;

pub use print::PRINT;
pub use scalars::SCALARS;
pub use segments::SEGMENTS;
pub use values::VALUES;
