//! Types, values, faults, refusals, the text of a value, input texts, and counted readers and
//! writers.
//!
//! Input texts are read here. One pass checks a text by the declared types. The values are kept as
//! the text and the place of each in it, and one is built only where a caller asks for it.
//!
//! All else comes from `snesl_data` and is passed on, with the words of its contracts
//! (`specs/Lib.antt`).
#![tactic(auto)]

mod builder;
mod checker;
pub mod environment;
pub mod inputs;
pub mod marks;
pub mod places;
mod scan;

pub use builder::datum_at;
pub use environment::Inputs;
pub use inputs::{InputError, inputs_are_placed, inputs_fit, one_input_meaning, read_inputs};
pub use marks::{Bracket, Found, Mark, mark_at, sign_mark};
pub use places::InputPlace;
pub use snesl_data::{
    Builder, Counted, Datum, Dialect, Elements, Fault, FaultKind, Refusal, Ty, copy_datum, copy_ty,
    digits_len, is_blank, text_of, word_len,
};
