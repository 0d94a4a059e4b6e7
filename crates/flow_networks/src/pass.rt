// Passes over some nodes.
ghost use Rattle.std.specs.Prelude.{◌≡◌, ◌<◌, true, length, IfOk};
ghost use Rattle.std.specs.List.{All};
ghost use Rattle.flow_networks.specs.EdgeKinds.{EdgesTakeAll};
ghost use Rattle.flow_networks.specs.Graphs.{states_of, edges_of};
ghost use Rattle.flow_networks.specs.Shapes.{KeepsShape};
ghost use Rattle.flow_networks.specs.Visits.{HasAllEnds};
ghost use Rattle.flow_networks.specs.Turns.{VisitAll};

use crate::graph::Graph;
use flow_base::Transducer;
use flow_messages::WholeEnds;
use std::alloc::AllocError;

/// Visits these nodes in their order, and gives whether one made a step.
pub fn pass_over<T: Transducer, E: WholeEnds>(
    graph: &mut Graph<T>,
    ends: &mut E,
    nodes: &[usize],
    chunk: usize,
) -> Result<bool, AllocError>
    requires inside { All (λ k. k < length (states_of graph.old)) nodes.now }
    requires some { 0 < chunk }
    requires ends { HasAllEnds (length (edges_of graph.old)) (E.view ends.old) }
    requires kinds { EdgesTakeAll graph.old (E.view ends.old) }
    ensures shape { KeepsShape E.same E.view graph.old ends.old graph.new ends.new }
    ensures visits { VisitAll E.capacity E.view nodes.now graph.old ends.old graph.new ends.new
        result }
    ensures some { IfOk result (λ moved. moved ≡ true → 0 < length nodes.now) }
{
    let mut moved = false;
    for &node in nodes {
        moved |= graph.visit(ends, node, chunk)?;
    }
    Ok(moved)
}
