//! Running a program for its input text, and answering a job.
#![tactic(auto)]

pub mod answers;
pub mod command_line;
pub mod console;
mod laws;
pub mod report;
pub mod runs;

pub use crate::command_line::settings;
pub use crate::console::{JobError, split_job};
pub use answers::answer;
pub use flow_drives::{AlwaysStart, Config, Drive, Gate, History, NoGate, Outcome, Rested, Start};
pub use laws::{cuts_change_nothing, one_outcome};
pub use report::{Report, RunError};
pub use runs::{run, run_with};
pub use snesl_data::{Counted, Refusal};
