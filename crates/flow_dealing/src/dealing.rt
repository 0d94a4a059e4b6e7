// Dealing by a trial.
ghost use Rattle.std.specs.Prelude.{◌<◌, ◌≤◌, IfOk, length};
ghost use Rattle.flow_messages.specs.Limits.{greatest_capacity};
ghost use Rattle.flow_networks.specs.Graphs.{states_of};
ghost use Rattle.flow_networks.specs.Networks.{AreOpened};
ghost use Rattle.flow_nodes.specs.StreamNodes.{node_behaviour};
ghost use Rattle.flow_dealing.specs.Weights.{DealsNodes, IsWeighed};

use crate::cut::{by_turns, deal_by_cut, greatest_load};
use crate::prices::over_rings;
use crate::trial::run_trial;
use crate::tried::{SHORT, sum};
use crate::weights::weights;
use flow_networks::Graph;
use flow_nodes::StreamNode;
use std::alloc::{AllocError, Global};

/// Which thread has each node of a graph, and how much there is to do.
#[derive(Debug, Drop)]
pub struct Dealing {
    /// The share of each node.
    pub share: Vec<u8>,
    /// The greatest load of a thread.
    pub load: u64,
    /// What that is where node `k` has share `k` modulo the number of threads.
    pub by_turns: u64,
    /// The work of all nodes.
    pub work: u64,
}

/// Deals the nodes of a graph, in their opening states, to so many threads by a cut: by the messages that go over its edges in a
/// short run in one thread, where each edge holds so many messages at most.
///
/// Its only error is that memory was refused.
pub fn deal_by_trial(
    alloc: Global,
    graph: Graph<StreamNode>,
    capacity: usize,
    threads: usize,
) -> Result<Dealing, AllocError>
    requires opened { AreOpened node_behaviour (states_of graph) }
    requires some { 0 < capacity }
    requires limit { capacity ≤ greatest_capacity }
    requires threads { 0 < threads }
    requires few { threads ≤ 256 }
    ensures dealing { IfOk result (DealsNodes (length (states_of graph)) threads) }
    ensures weighed { IfOk result (IsWeighed capacity threads graph) }
    ensures load { IfOk result (λ dealing. dealing.load ≤ dealing.by_turns) }
{
    let mut graph = graph;
    let counts = run_trial(alloc, &mut graph, capacity, SHORT)?;
    let (work, links) = weights(alloc, over_rings(graph.edges()), &graph, &counts)?;
    let share = deal_by_cut(alloc, &work, &links, threads)?;
    let turns = by_turns(alloc, work.len(), threads)?;
    Ok(Dealing {
        load: greatest_load(&work, &links, &share, threads),
        by_turns: greatest_load(&work, &links, &turns, threads),
        work: sum(&work),
        share,
    })
}
