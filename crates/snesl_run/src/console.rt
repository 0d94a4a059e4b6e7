//! A job as it stands on standard input, and the lines that are printed: how a job is read and parted, what the lines of
//! faults and refusals are, and how a line is written.

mod beginning;
pub mod job;
pub mod lines;
mod reading;
pub mod sending;

pub use job::{JobError, one_job, split_job};
pub use lines::{BAD_CONFIG_LINE, STALLED_LINE, fault_line, refusal_line};
pub use sending::{complain, print, send};
