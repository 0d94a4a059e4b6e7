// Graphs stepped by a schedule until no node can step.
ghost use Rattle.std.specs.Prelude.{◌<◌, ◌≤◌, length, IfOk, OnOk};
ghost use Rattle.flow_messages.specs.Limits.{greatest_capacity};
ghost use Rattle.flow_networks.specs.EdgeKinds.{EdgesTakeAll};
ghost use Rattle.flow_networks.specs.Graphs.{states_of, edges_of};
ghost use Rattle.flow_networks.specs.MaximalRuns.{RunReaches};
ghost use Rattle.flow_networks.specs.Networks.{AreOpened};
ghost use Rattle.flow_networks.specs.Settling.{IsOfNetwork, IsEndOfRun};
ghost use Rattle.flow_networks.specs.Shapes.{KeepsShape};
ghost use Rattle.flow_networks.specs.Visits.{HasAllEnds};

use crate::graph::Graph;
use crate::kinds::kinds_of;
use crate::serial::run_serial;
use crate::settled::Settled;
use crate::whole_step::step_whole;
use flow_base::Transducer;
use flow_messages::{Table, WholeEnds};
use std::alloc::{AllocError, Global};

/// Steps the nodes that the schedule names, in order, one step each. A node that cannot step, and a
/// number that names no node, are passed over. Then it passes over all nodes in ascending order, one
/// step each, until a pass moves nothing.
///
/// Where it ends is the end of a maximal run of the graph's network, at this capacity. All schedules
/// end there, since all such ends are alike (see [`runs_rest_alike`](crate::runs_rest_alike)).
///
/// An error where memory was refused.
pub fn settle<T: Transducer + Drop>(
    alloc: Global,
    graph: Graph<T>,
    capacity: usize,
    schedule: &[usize],
) -> Result<Settled<T>, AllocError>
    requires opened { AreOpened T.behaviour (states_of graph) }
    requires some { 0 < capacity }
    requires limit { capacity ≤ greatest_capacity }
    ensures network { IfOk result (λ settled. IsOfNetwork graph settled) }
    ensures run { IfOk result (λ settled. IsEndOfRun graph capacity settled) }
{
    let kinds = kinds_of(alloc, &graph)?;
    let mut ends = Table::new(alloc, &kinds, capacity)?;
    let mut graph = graph;
    step_named(&mut graph, &mut ends, schedule)?;
    run_serial(alloc, &mut graph, &mut ends, 1)?;
    Ok(Settled { graph, ends })
}

// Steps the nodes that these numbers name, in order, one step each.
fn step_named<T: Transducer, E: WholeEnds>(
    graph: &mut Graph<T>,
    ends: &mut E,
    numbers: &[usize],
) -> Result<(), AllocError>
    requires ends { HasAllEnds (length (edges_of graph.old)) (E.view ends.old) }
    requires kinds { EdgesTakeAll graph.old (E.view ends.old) }
    requires reached { RunReaches (E.capacity ends.old) graph.old graph.old (E.view ends.old) }
    ensures shape { KeepsShape E.same E.view graph.old ends.old graph.new ends.new }
    ensures run { OnOk result (RunReaches (E.capacity ends.old) graph.old graph.new (E.view
        ends.new)) }
{
    for &number in numbers {
        if number < graph.nodes() {
            step_whole(graph, ends, number)?;
        }
    }
    Ok(())
}
