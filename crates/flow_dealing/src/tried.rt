// What is found by a short run of a graph.
ghost use Rattle.std.specs.Prelude.{◌≡◌, ◌<◌, ◌≤◌, IfOk, length};
ghost use Rattle.std.specs.Io.Iter.{u64_saturate};
ghost use Rattle.std.specs.List.{sum};
ghost use Rattle.flow_messages.specs.Limits.{greatest_capacity};
ghost use Rattle.flow_networks.specs.Graphs.{states_of};
ghost use Rattle.flow_networks.specs.Networks.{AreOpened};
ghost use Rattle.flow_nodes.specs.StreamNodes.{node_behaviour};
ghost use Rattle.flow_dealing.specs.cut.Loads.{AreBetween};
ghost use Rattle.flow_dealing.specs.Weights.{IsTrialOf};

use crate::cut::Link;
use crate::prices::{Driven, over_rings};
use crate::trial::run_trial;
use crate::weights::weights;
use flow_networks::Graph;
use flow_nodes::StreamNode;
use std::alloc::{AllocError, Global};

/// After how many messages a short run is left. That takes some tenths of a millisecond.
pub const SHORT: u64 = 131_072;

/// What is found by a short run of a graph. Work is told in picoseconds.
#[derive(Debug, Drop)]
pub struct Tried {
    /// How many messages went over all edges.
    pub messages: u64,
    /// The work of each node, in one thread without rings.
    pub alone: Vec<u64>,
    /// The work of each node over rings.
    pub rings: Vec<u64>,
    /// The edges, and what each costs where its ends are in two threads.
    pub links: Vec<Link>,
}

/// Runs a graph, its nodes in their opening states, in one thread until none can step or so many messages went over its edges,
/// where each edge holds so many at most.
///
/// Its only error is that memory was refused.
pub fn try_out(
    alloc: Global,
    graph: Graph<StreamNode>,
    capacity: usize,
    messages: u64,
) -> Result<Tried, AllocError>
    requires opened { AreOpened node_behaviour (states_of graph) }
    requires some { 0 < capacity }
    requires limit { capacity ≤ greatest_capacity }
    ensures found { IfOk result (IsTrialOf capacity graph) }
    ensures between { IfOk result (λ tried.
        AreBetween (length tried.rings.items) tried.links.items) }
{
    let mut graph = graph;
    let counts = run_trial(alloc, &mut graph, capacity, messages)?;
    let (alone, _) = weights(alloc, Driven::Alone, &graph, &counts)?;
    let (rings, links) = weights(alloc, over_rings(graph.edges()), &graph, &counts)?;
    Ok(Tried {
        messages: sum(&counts),
        alone,
        rings,
        links,
    })
}

// The sum, which stays at `u64::MAX`.
pub(crate) fn sum(numbers: &[u64]) -> u64
    ensures { result ≡ u64_saturate (sum numbers.now) }
{
    let mut sum: u64 = 0;
    for number in numbers {
        sum = sum.saturating_add(*number);
    }
    sum
}
