// Graphs stepped by a schedule until no node can step.
ghost use Rattle.std.specs.Prelude.{◌<◌, ◌≤◌, IfOk};
ghost use Rattle.flow_messages.specs.Limits.{greatest_capacity};
ghost use Rattle.flow_networks.specs.Graphs.{states_of};
ghost use Rattle.flow_networks.specs.Networks.{AreOpened};
ghost use Rattle.flow_networks.specs.Settling.{IsOfNetwork, IsEndOfRun};
ghost use Rattle.flow_nodes.specs.StreamNodes.{node_behaviour};

use crate::graphs::{Graph, Settled};
use std::alloc::{AllocError, Global};

/// Steps the nodes that the schedule names, in order, one step each. A node that cannot step, and a
/// number that names no node, are passed over. Then it passes over all nodes in ascending order, one
/// step each, until a pass moves nothing.
///
/// Where it ends is the end of a maximal run of the graph's network, at this capacity. All schedules
/// end there, since all such ends are alike (see [`runs_rest_alike`](crate::runs_rest_alike)).
///
/// An error where memory was refused.
pub fn settle(
    alloc: Global,
    graph: Graph,
    capacity: usize,
    schedule: &[usize],
) -> Result<Settled, AllocError>
    requires opened { AreOpened node_behaviour (states_of graph) }
    requires some { 0 < capacity }
    requires limit { capacity ≤ greatest_capacity }
    ensures network { IfOk result (λ settled. IsOfNetwork graph settled) }
    ensures run { IfOk result (λ settled. IsEndOfRun graph capacity settled) }
{
    flow_networks::settle(alloc, graph, capacity, schedule)
}
