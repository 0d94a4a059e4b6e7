//! That the plans of typed programs are wired.

mod laws;

pub use laws::plans_are_wired;
