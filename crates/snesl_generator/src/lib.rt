//! Random programs, each with an input text that fits it: what [`random_job`] makes of a seed.
#![tactic(auto)]

pub mod dice;
mod forms;
mod kinds;
mod writer;

pub use writer::random_job;
