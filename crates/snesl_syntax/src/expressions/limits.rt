// How deep an expression may be, and how many binders a comprehension may have.

/// The depth of the deepest expression, and of the deepest type.
pub const GREATEST_DEPTH: usize = 64;

/// The most binders of one comprehension.
pub const GREATEST_BINDER_COUNT: usize = 8;
