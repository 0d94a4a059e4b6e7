// Passes over all nodes of a graph, in one thread.
ghost use Rattle.std.specs.Prelude.{◌<◌, ℕ, length, IfOk, OnOk};
ghost use Rattle.std.specs.List.{All, Contains};
ghost use Rattle.flow_networks.specs.EdgeKinds.{EdgesTakeAll};
ghost use Rattle.flow_networks.specs.Graphs.{states_of, edges_of};
ghost use Rattle.flow_networks.specs.Shapes.{KeepsShape};
ghost use Rattle.flow_networks.specs.Visits.{HasAllEnds};
ghost use Rattle.flow_networks.specs.MaximalRuns.{RunReaches, RunEndsAt};
ghost use Rattle.flow_networks.specs.Dropping.{DropsOnlyOver};

use crate::graph::Graph;
use crate::over::is_over;
use crate::pass::pass_over;
use flow_base::Transducer;
use flow_messages::WholeEnds;
use std::alloc::{AllocError, Global};

// After how many passes nodes that are over are dropped. They cost little until then; to look for
// them after each visit that made no step costs more.
const PASSES_BETWEEN_DROPS: usize = 64;

/// Visits all nodes in ascending order, with at most `chunk` steps each, until a whole pass moves nothing.
///
/// It goes on from where a run of the graph's network led. An error where memory was refused.
pub fn run_serial<T: Transducer, E: WholeEnds>(
    alloc: Global,
    graph: &mut Graph<T>,
    ends: &mut E,
    chunk: usize,
) -> Result<(), AllocError>
    requires some { 0 < chunk }
    requires ends { HasAllEnds (length (edges_of graph.old)) (E.view ends.old) }
    requires kinds { EdgesTakeAll graph.old (E.view ends.old) }
    requires reached { RunReaches (E.capacity ends.old) graph.old graph.old (E.view ends.old) }
    ensures shape { KeepsShape E.same E.view graph.old ends.old graph.new ends.new }
    ensures run { OnOk result (RunEndsAt (E.capacity ends.old) graph.old graph.new
        (E.view ends.new)) }
{
    // Nodes that are over need no more visits.
    let mut running = numbers_below(alloc, graph.nodes())?;
    let mut left = PASSES_BETWEEN_DROPS;
    'passes: loop {
        let moved = pass_over(graph, ends, &running, chunk)?;
        if !moved {
            return Ok(());
        }
        left -= 1;
        if left == 0 {
            drop_over(graph, &mut running);
            left = PASSES_BETWEEN_DROPS;
        }
    }
}

// The numbers below `end`, in ascending order.
fn numbers_below(alloc: Global, end: usize) -> Result<Vec<usize>, AllocError>
    ensures below { IfOk result (λ numbers. All (λ k. k < end) numbers.items) }
    ensures all { IfOk result (λ numbers. (k : ℕ) → k < end → Contains numbers.items k) }
{
    let mut numbers = Vec::with_capacity(alloc, end)?;
    for number in 0..end {
        numbers.push(number)?;
    }
    Ok(numbers)
}

// Drops the nodes that are over, and leaves the others in their order.
fn drop_over<T: Transducer>(graph: &Graph<T>, nodes: &mut Vec<usize>)
    requires { All (λ k. k < length (states_of graph.now)) nodes.old.items }
    ensures below { All (λ k. k < length (states_of graph.now)) nodes.new.items }
    ensures others { DropsOnlyOver graph.now nodes.old.items nodes.new.items }
{
    let mut kept = 0;
    for i in 0..nodes.len() {
        let node = nodes[i];
        if !is_over(graph, node) {
            nodes[kept] = node;
            kept += 1;
        }
    }
    nodes.truncate(kept);
}
