// Shares of graphs of stream nodes, and such graphs at rest.
use flow_nodes::StreamNode;

/// Some nodes of a graph, in ascending order, and the ends of the edges at their ports.
pub type Share<E> = flow_drives::Share<StreamNode, E>;

/// A graph that was driven until no node can step.
///
/// Its nodes and what was sent and received on its edges are a sound configuration of its network.
pub type Rested = flow_drives::Rested<StreamNode>;
