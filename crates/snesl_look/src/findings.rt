//! What an editor is told of a job that is refused: the parts of the message, the place in the job, how far what it stands at goes,
//! and an object of JSON with these.

mod findings;
mod marks;
mod objects;
mod parts;
mod places;

pub use findings::finding_of;
pub use marks::mark_len;
pub use objects::{Finding, object_line};
pub use parts::{hint_of, sentence_of};
pub use places::place_of;
