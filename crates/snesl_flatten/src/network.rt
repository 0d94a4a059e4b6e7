//! Programs driven as networks.

mod driving;
mod laws;

pub use driving::{drive_program, drive_program_with};
pub use laws::one_network;
