// What a Print gathers. The function does nothing: its contract is the theorem.

ghost use Rattle.flow_networks.specs.Graphs.{states_of, edges_of};
ghost use Rattle.snesl_flatten.specs.texts.PrintedTexts.{PrintTells};

use flow_networks::{Graph, graph_is_a_network};
use flow_nodes::StreamNode;

/// The law that the text of a network whose last node is a Print is, once all nodes have ended, that of the value whose
/// items came over the edges of the Print.
pub fn print_tells(graph: &Graph<StreamNode>)
    ensures { PrintTells (states_of graph.now) (edges_of graph.now) }
{
    graph_is_a_network(graph);
}
