// Single steps of the nodes of a graph.
ghost use Rattle.std.specs.Prelude.{◌<◌, ◌≤◌, length};
ghost use Rattle.flow_networks.specs.Graphs.{states_of};
ghost use Rattle.flow_networks.specs.Standing.{NodeHasEnds, NodeEdgesTake};
ghost use Rattle.flow_networks.specs.Shapes.{KeepsShape};
ghost use Rattle.flow_networks.specs.Turns.{TakesTurn, MovesInBlock};

use crate::graphs::Graph;
use flow_messages::Ends;
use flow_networks::Stepped;
use std::alloc::AllocError;

/// One turn of a node, over ends that need not be those of all its edges: it reads one message or
/// writes one, or does nothing.
///
/// [`Graph::may_step`](flow_networks::Graph::may_step) tells whether the ends of its edges are there, and take items
/// of the ports' kinds. A `Table` that was told those of the graph's edges ([`kinds_of`](crate::kinds_of)) takes them.
///
/// An error where memory was refused. Then the states are as they were, and a message that the node
/// was to read is lost.
pub fn step_once<E: Ends>(
    graph: &mut Graph,
    ends: &mut E,
    node: usize,
) -> Result<Stepped, AllocError>
    requires inside { node < length (states_of graph.old) }
    requires ends { NodeHasEnds graph.old node (E.view ends.old) }
    requires kinds { NodeEdgesTake graph.old node (E.view ends.old) }
    ensures shape { KeepsShape E.same E.view graph.old ends.old graph.new ends.new }
    ensures turn { TakesTurn E.view node graph.old ends.old graph.new ends.new result }
{
    flow_networks::step_once(graph, ends, node)
}

/// Moves scalar messages of one node in a block, at most this many steps, each read and each write counted as one step.
/// How many steps it made. The block is empty at the end of the call.
///
/// A node with one input that passes blocks on reads as many messages as each of its outputs is certain to have room
/// for, and writes what follows from them. A node with one output that is to write draws as many into a block.
///
/// The answer 0 does not say that the node cannot step: a single step moves what a block does not, as a vector.
pub fn step_block<E: Ends>(graph: &mut Graph, ends: &mut E, node: usize, most: usize) -> usize
    requires inside { node < length (states_of graph.old) }
    requires ends { NodeHasEnds graph.old node (E.view ends.old) }
    requires kinds { NodeEdgesTake graph.old node (E.view ends.old) }
    ensures shape { KeepsShape E.same E.view graph.old ends.old graph.new ends.new }
    ensures most { result ≤ most }
    ensures moves { MovesInBlock E.view node graph.old ends.old graph.new ends.new result }
{
    flow_networks::step_block(graph, ends, node, most)
}
