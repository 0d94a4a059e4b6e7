//! The theorems, each the contract of a function with an empty body.

pub mod histories;
pub mod processes;
pub mod rest;
pub mod runs;
pub mod shares;
pub mod traffic;
