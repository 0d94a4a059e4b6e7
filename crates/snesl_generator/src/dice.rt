//! Random numbers that are the same in each build.

mod dice;

pub use dice::Dice;
