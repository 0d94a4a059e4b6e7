// The parts of a graph.
ghost use Rattle.std.specs.Prelude.{◌≡◌, ◌<◌, ◌↔◌, true, length, IsTrue};
ghost use Rattle.std.specs.List.{All};
ghost use Rattle.flow_networks.specs.Edges.{edge_at};
ghost use Rattle.flow_networks.specs.Graphs.{states_of, edges_of};
ghost use Rattle.flow_networks.specs.Standing.{stand_at, NodeHasEnds, NodeEdgesTake, NodeMayStep};

use crate::edge::Edge;
use crate::graph::Graph;
use flow_base::Transducer;
use flow_messages::Ends;

impl<T: Transducer> Graph<T> {
    /// How many nodes it has.
    pub fn nodes(&self) -> usize
        ensures { result ≡ length (states_of self.now) }
    {
        self.nodes.len()
    }

    /// How many edges it has.
    pub fn edges(&self) -> usize
        ensures { result ≡ length (edges_of self.now) }
    {
        self.edges.len()
    }

    /// The edge of this number.
    pub fn edge(&self, number: usize) -> Edge
        requires { number < length (edges_of self.now) }
        ensures { result ≡ edge_at (edges_of self.now) number }
    {
        self.edges[number]
    }

    /// The node of this number.
    pub fn node(&self, number: usize) -> &T
        requires { number < length (states_of self.now) }
        ensures { T.state result.now ≡ stand_at self.now number }
    {
        &self.nodes[number].node
    }

    /// Whether the ends are there of all edges of the node.
    pub fn has_ends<E: Ends>(&self, ends: &E, node: usize) -> bool
        requires { node < length (states_of self.now) }
        ensures { IsTrue result ↔ NodeHasEnds self.now node (E.view ends.now) }
    {
        let placed = &self.nodes[node];
        has_readers(ends, &placed.inputs) && has_writers(ends, &placed.outputs)
    }

    /// Whether the node may step over these ends: those of all its edges are there, and the edge at each output takes
    /// items of the port's kind.
    pub fn may_step<E: Ends>(&self, ends: &E, node: usize) -> bool
        requires { node < length (states_of self.now) }
        ensures { IsTrue result ↔ NodeMayStep self.now node (E.view ends.now) }
    {
        self.has_ends(ends, node) && self.edges_take(ends, node)
    }

    // Whether the edge at each output of the node takes items of the port's kind.
    fn edges_take<E: Ends>(&self, ends: &E, node: usize) -> bool
        requires inside { node < length (states_of self.now) }
        requires ends { NodeHasEnds self.now node (E.view ends.now) }
        ensures { IsTrue result ↔ NodeEdgesTake self.now node (E.view ends.now) }
    {
        let placed = &self.nodes[node];
        for port in 0..placed.outputs.len() {
            if !ends.takes(placed.outputs[port], placed.node.kind_out(port)) {
                return false;
            }
        }
        true
    }
}

/// Whether the readers' ends are there of these edges.
fn has_readers<E: Ends>(ends: &E, edges: &[usize]) -> bool
    ensures { IsTrue result ↔ All (λ e. (E.view ends.now).reads e ≡ true) edges.now }
{
    for &edge in edges {
        if !ends.has_reader(edge) {
            return false;
        }
    }
    true
}

/// Whether the writers' ends are there of these edges.
fn has_writers<E: Ends>(ends: &E, edges: &[usize]) -> bool
    ensures { IsTrue result ↔ All (λ e. (E.view ends.now).writes e ≡ true) edges.now }
{
    for &edge in edges {
        if !ends.has_writer(edge) {
            return false;
        }
    }
    true
}
