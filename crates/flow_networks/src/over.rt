// Nodes that are over.
ghost use Rattle.std.specs.Prelude.{◌≡◌, ◌<◌, length};
ghost use Rattle.flow_networks.specs.Graphs.{states_of};
ghost use Rattle.flow_networks.specs.Over.{is_over};
ghost use Rattle.flow_networks.specs.Standing.{wanted_at};

use crate::graph::Graph;
use flow_base::Transducer;
use kahn::Want;

/// Whether the node makes no step again.
pub fn is_over<T: Transducer>(graph: &Graph<T>, node: usize) -> bool
    requires { node < length (states_of graph.now) }
    ensures { result ≡ is_over (wanted_at graph.now node) }
{
    matches!(graph.node(node).want(), Want::Ended | Want::Faulted(_))
}
