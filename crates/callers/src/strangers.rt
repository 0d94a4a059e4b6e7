//! Calls of each name that the ten doors offer, as one writes them who has read only what each name is and takes.
//!
//! Each module is named after its door. A function here calls something once, and promises nothing: that it compiles shows
//! that the names, the arguments and the results are those that were said, and that it is proved shows that a caller can
//! see all that a call asks. In proofs/ stand what a block of one message is, and the network of the shares of an epoch.

pub mod drive;
pub mod edges;
pub mod flatten;
pub mod graph;
pub mod run;
pub mod scalar;
pub mod segment;
pub mod syntax;
pub mod types;
pub mod values;
