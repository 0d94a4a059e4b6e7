// Single steps over both ends of each edge.
ghost use Rattle.std.specs.Prelude.{◌<◌, length};
ghost use Rattle.flow_networks.specs.Graphs.{states_of};
ghost use Rattle.flow_networks.specs.Shapes.{KeepsShape};
ghost use Rattle.flow_networks.specs.Turns.{TakesTurn, MakesTurn};
ghost use Rattle.flow_networks.specs.Standing.{NodeHasEnds, NodeEdgesTake};

use crate::graph::Graph;
use crate::step::{Stepped, step_once};
use flow_base::Transducer;
use flow_messages::WholeEnds;
use std::alloc::AllocError;

/// One turn of a node, over both ends of each edge: from a sound configuration it is one step of the
/// node in the network, or nothing where the node cannot step, and what comes of it is sound.
///
/// An error where memory was refused. Then the states are as they were, and a message that the node
/// was to read is lost.
pub fn step_whole<T: Transducer, E: WholeEnds>(
    graph: &mut Graph<T>,
    ends: &mut E,
    node: usize,
) -> Result<Stepped, AllocError>
    requires inside { node < length (states_of graph.old) }
    requires ends { NodeHasEnds graph.old node (E.view ends.old) }
    requires kinds { NodeEdgesTake graph.old node (E.view ends.old) }
    ensures shape { KeepsShape E.same E.view graph.old ends.old graph.new ends.new }
    ensures turn { TakesTurn E.view node graph.old ends.old graph.new ends.new result }
    ensures network { MakesTurn E.capacity E.view node graph.old ends.old graph.new ends.new
        result }
{
    step_once(graph, ends, node)
}
