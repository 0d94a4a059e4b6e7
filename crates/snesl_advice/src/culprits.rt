//! Where a person looks in a program: the first token of a form, and the part of a form whose type does not fit.

pub mod choice;
pub mod culprits;
pub mod offsets;

pub use culprits::culprit_of;
pub use offsets::first_offset;
