//! Dialects, types, values, faults and refusals of Streaming NESL, the text of a value, and counted readers and writers.
//!
//! All crates that know values stand on this one. A stranger takes them from `snesl_values`, which passes them on and reads
//! input texts.
#![tactic(auto)]

pub mod blank;
pub mod builder;
pub mod characters;
pub mod counted;
pub mod datum;
pub mod dialect;
pub mod elements;
pub mod fault;
pub mod numbers;
pub mod operators;
pub mod refusal;
pub mod text;
pub mod ty;
mod unpacked;

pub use blank::is_blank;
pub use builder::Builder;
pub use characters::{digits_len, word_len};
pub use counted::Counted;
pub use datum::{Datum, Elements, copy_datum};
pub use dialect::Dialect;
pub use fault::{Fault, FaultKind};
pub use numbers::Numbers;
pub use refusal::Refusal;
pub use text::text_of;
pub use ty::{Ty, copy_ty};
