// Graphs at rest.
use crate::parts::Parts;
use flow_base::Transducer;

/// A graph that was driven until no node can step.
///
/// Its nodes and what was sent and received on its edges are a sound configuration of its network.
#[derive(Drop)]
pub struct Rested<T: Transducer> {
    pub(crate) parts: Parts<T>,
    pub(crate) rounds: u64,
    pub(crate) epochs: u64,
}
