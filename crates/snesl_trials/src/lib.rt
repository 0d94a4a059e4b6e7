//! Programs run over memory as networks, what plain evaluation allows of such a run, and configurations.
#![tactic(auto)]

mod configuration;
mod expected;
mod running;
pub mod tables;

pub use configuration::in_threads;
pub use expected::Expected;
pub use running::{Done, in_one_thread, ran, ran_in_one_thread};
