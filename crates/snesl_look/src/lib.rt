//! What a person is shown of a job that was refused or that ended in a fault: the place in its text, the line with a caret
//! under it, and what is said of it.
#![tactic(auto)]

pub mod among;
pub mod clashes;
pub mod findings;
pub mod functions;
pub mod messages;
pub mod names;
pub mod places;
pub mod stalls;
pub mod words;

pub use among::nearest_of;
pub use clashes::{clash_note, clash_sentence};
pub use functions::function_at;
pub use messages::{fault_message, noted_message, refusal_message, stalled_message};
pub use names::{distance_is_least, near_name};
pub use places::{Position, caret_line, line_at, position_of, shown_line};
pub use stalls::{Enough, STALLED_SENTENCE, stalled_hint};
pub use words::{fault_hint, fault_sentence, refusal_hint, refusal_sentence, sentences_differ};
