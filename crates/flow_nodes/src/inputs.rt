//! Sources that read a text of values. Each scans the shared text forward, and writes what a value
//! puts on one edge of its type, item by item.
//!
//! A type has as many edges as a value of it has streams (`edge_count`). A sequence has an edge of
//! flags, F for each element and T at the end, and then the edges of its elements. A pair has the
//! edges of its first part, and then those of its second.
//!
//! The *way* to an edge is the list of steps from the type to it. What lies beside the way is
//! passed over by a count of brackets. So once it is made, a source takes memory only for vectors.
//!
//! The law [`text_holds_edges`] says that a source writes its edge's part of what the value puts on
//! all edges.

mod brackets;
mod laws;
mod scanner;
mod source;
mod turns;
mod ways;

pub use laws::text_holds_edges;
pub use source::TextSource;
pub use turns::{Component, Leaf, Mode, Piece, State};
pub use ways::edge_count;
