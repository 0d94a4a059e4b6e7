//! How a run came out.

use snesl_data::Fault;

/// How a network came out that is at rest.
#[derive(Clone, Copy, Debug, PartialEq, Eq)]
pub enum Outcome {
    /// Each node has ended.
    Value,
    /// Some node has faulted: the fault that is named of all to which nodes have come.
    Fault(Fault),
    /// No node has faulted, and not each has ended: the least edge that is full while its writer waits.
    Stalled { edge: usize },
}
