// Edges between nodes.

/// The most nodes of a graph.
pub const MAX_NODES: usize = 4_096;

/// The most edges of a graph.
pub const MAX_EDGES: usize = 16_384;

/// An edge from an output port of one node to an input port of another. Nodes and ports are named by their numbers.
#[derive(Clone, Copy, Debug, PartialEq, Eq)]
pub struct Edge {
    pub writer: usize,
    pub writer_port: usize,
    pub reader: usize,
    pub reader_port: usize,
}
