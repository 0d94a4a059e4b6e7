//! What a process wants.

use snesl_data::Fault;

/// What a process does next.
#[derive(Clone, Copy, Debug, PartialEq, Eq)]
pub enum Want {
    /// It reads a message at the input port of this number.
    Read(usize),
    /// It writes a message at the output port of this number.
    Write(usize),
    /// Nothing: it is done.
    Ended,
    /// Nothing: it met what it cannot go on from.
    Faulted(Fault),
}
