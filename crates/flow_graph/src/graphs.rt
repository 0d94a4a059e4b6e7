// Graphs of stream nodes, finished and not.
use flow_nodes::StreamNode;

/// Transducers that are joined by edges, each port by one.
pub type Graph = flow_networks::Graph<StreamNode>;

/// A graph that is being built: transducers, and edges between them.
pub type GraphBuilder = flow_networks::GraphBuilder<StreamNode>;

/// A graph whose nodes were stepped until none could, and what was sent and received on its edges.
pub type Settled = flow_networks::Settled<StreamNode>;
