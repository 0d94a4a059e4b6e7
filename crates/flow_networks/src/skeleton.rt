// Graphs taken apart, and put together again.
ghost use Rattle.std.specs.Prelude.{◌≡◌};
ghost use Rattle.flow_networks.specs.Places.{states_in};
ghost use Rattle.flow_networks.specs.Graphs.{states_of, edges_of};
ghost use Rattle.flow_networks.specs.Skeletons.{nodes_of, edges_in, FitTogether};
ghost use Rattle.flow_networks.specs.Shapes.{IsNetworkOfAlike};

use crate::edge::Edge;
use crate::graph::{Graph, Skeleton};
use crate::placed::Placed;
use flow_base::Transducer;

impl<T: Transducer> Graph<T> {
    /// Its nodes, in order, and the skeleton in which they belong.
    pub fn take_apart(self) -> (Vec<Placed<T>>, Skeleton)
        ensures nodes { result.0.items ≡ nodes_of self }
        ensures edges { edges_in result.1 ≡ edges_of self }
        ensures fit { FitTogether result.0.items (edges_in result.1) }
    {
        (self.nodes, Skeleton { edges: self.edges })
    }
}

impl Skeleton {
    /// Its edges, in the order of their numbers.
    pub fn edges(&self) -> &[Edge]
        ensures { result.now ≡ edges_in self.now }
    {
        &self.edges
    }

    /// The graph of these nodes, which are those of the skeleton in their order, in whatever states. Its network is that
    /// of all nodes that opened as these did.
    pub fn put_together<T: Transducer>(self, nodes: Vec<Placed<T>>) -> Graph<T>
        requires { FitTogether nodes.items (edges_in self) }
        ensures nodes { states_of result ≡ states_in nodes.items }
        ensures edges { edges_of result ≡ edges_in self }
        ensures network { IsNetworkOfAlike nodes.items (edges_in self) result }
    {
        Graph {
            nodes,
            edges: self.edges,
        }
    }
}
