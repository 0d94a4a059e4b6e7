//! Transducers that read or write whole values of a type: the items of a value go over the edges of its type.
//!
//! A scalar or a vector has one edge. A pair has the edges of both parts. A sequence has an edge of flags, `false` for
//! each of its elements and then `true`, and after it the edges of its elements.
#![tactic(auto)]

mod ahead;
mod dues;
mod index;
mod pending;
mod print;
mod seq;
mod shapes;
mod tab;
mod vectors;

pub use index::Index;
pub use print::{Print, prints_text};
pub use seq::Seq;
pub use shapes::{is_value, kept_type, kinds, shapes_are_tested};
pub use tab::Tab;
pub use vectors::item_of_type;
