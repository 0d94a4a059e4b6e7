// How long a program may be.

/// The longest program, in bytes.
pub const GREATEST_LENGTH: usize = 65536;
