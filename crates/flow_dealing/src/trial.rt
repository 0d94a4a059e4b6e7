// Short runs in one thread, for how many messages go over each edge.
ghost use Rattle.std.specs.Prelude.{◌<◌, ◌≤◌, IfOk, OnOk, length};
ghost use Rattle.flow_messages.specs.Limits.{greatest_capacity};
ghost use Rattle.flow_networks.specs.EdgeKinds.{EdgesTakeAll};
ghost use Rattle.flow_networks.specs.Graphs.{edges_of, states_of};
ghost use Rattle.flow_networks.specs.MaximalRuns.{RunReaches};
ghost use Rattle.flow_networks.specs.Networks.{AreOpened};
ghost use Rattle.flow_networks.specs.Shapes.{KeepsShape};
ghost use Rattle.flow_networks.specs.Visits.{HasAllEnds};
ghost use Rattle.flow_dealing.specs.Counts.{AreOfItsRun, MakesSameNetwork};

use flow_base::Transducer;
use flow_messages::{CountedEnds, Table, WholeEnds};
use flow_networks::{Graph, kinds_of};
use std::alloc::{AllocError, Global};

// How often a run passes over all nodes at most.
const MAX_PASSES: usize = 1_048_576;

// How many steps a visit of a node has at most.
const STEPS_OF_A_VISIT: usize = 1_024;

/// Visits all nodes again and again, until none can step, or at the end of a pass over all of them so many messages went over the
/// edges. How many went over each.
///
/// An error where memory was refused.
pub fn run_trial<T: Transducer>(
    alloc: Global,
    graph: &mut Graph<T>,
    capacity: usize,
    messages: u64,
) -> Result<Vec<u64>, AllocError>
    requires opened { AreOpened T.behaviour (states_of graph.old) }
    requires some { 0 < capacity }
    requires limit { capacity ≤ greatest_capacity }
    ensures network { MakesSameNetwork graph.old graph.new }
    ensures counts { IfOk result (λ counts. AreOfItsRun capacity graph.old counts.items) }
{
    let kinds = kinds_of(alloc, graph)?;
    let mut ends = Table::new(alloc, &kinds, capacity)?;
    for _ in 0..MAX_PASSES {
        let moved = pass(graph, &mut ends)?;
        if !moved || sent(graph, &ends) >= messages {
            break;
        }
    }
    let mut counts = Vec::with_capacity(alloc, graph.edges())?;
    for edge in 0..graph.edges() {
        counts.push(ends.sent_count(edge))?;
    }
    Ok(counts)
}

// Visits all nodes. Whether one made a step.
fn pass<T: Transducer, E: WholeEnds>(graph: &mut Graph<T>, ends: &mut E) -> Result<bool, AllocError>
    requires ends { HasAllEnds (length (edges_of graph.old)) (E.view ends.old) }
    requires kinds { EdgesTakeAll graph.old (E.view ends.old) }
    requires run { RunReaches (E.capacity ends.old) graph.old graph.old (E.view ends.old) }
    ensures shape { KeepsShape E.same E.view graph.old ends.old graph.new ends.new }
    ensures run { OnOk result (RunReaches (E.capacity ends.old) graph.old graph.new (E.view ends.new)) }
{
    let mut moved = false;
    for node in 0..graph.nodes() {
        moved |= graph.visit(ends, node, STEPS_OF_A_VISIT)?;
    }
    Ok(moved)
}

// How many messages went over all edges. It stays at `u64::MAX`.
fn sent<T: Transducer, E: CountedEnds>(graph: &Graph<T>, ends: &E) -> u64
    requires { HasAllEnds (length (edges_of graph.now)) (E.view ends.now) }
{
    let mut sum: u64 = 0;
    for edge in 0..graph.edges() {
        sum = sum.saturating_add(ends.sent_count(edge));
    }
    sum
}
