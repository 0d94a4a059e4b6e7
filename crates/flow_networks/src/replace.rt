// Other nodes in place of those of a graph.
ghost use Rattle.std.specs.Prelude.{◌≡◌, slice_set};
ghost use Rattle.flow_networks.specs.Replacements.{MayReplace};
ghost use Rattle.flow_networks.specs.Graphs.{states_of, edges_of};
ghost use Rattle.flow_networks.specs.Standing.{StayOpened};

use crate::graph::Graph;
use flow_base::Transducer;

impl<T: Transducer + Drop> Graph<T> {
    /// Puts a transducer in its opening state in place of the node of this number, which has the same ports. The old
    /// node is dropped; all other nodes, and the edges, stay as they were. It takes no memory.
    pub fn replace(&mut self, number: usize, node: T)
        requires { MayReplace T.behaviour (states_of self.old) number (T.state node) }
        ensures nodes { states_of self.new ≡ slice_set (states_of self.old) number (T.state node) }
        ensures edges { edges_of self.new ≡ edges_of self.old }
        ensures opened { StayOpened T.behaviour (states_of self.old) (states_of self.new) }
    {
        self.nodes[number].replace(node);
    }
}
