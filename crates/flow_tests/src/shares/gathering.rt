// A graph taken apart, dealt out, gathered and put together again.

ghost use Rattle.flow_networks.specs.Graphs.{states_of};
ghost use Rattle.flow_networks.specs.Networks.{AreOpened};
ghost use Rattle.flow_nodes.specs.StreamNodes.{node_behaviour};

use crate::driving::driven_under;
use crate::shares::regathering::dealt_and_gathered;
use flow_drives::{Config, Drive, Outcome};
use flow_networks::Graph;
use flow_nodes::StreamNode;
use flow_samples::{SUM_OF_FIVE, graph_of};
use std::alloc::Global;
use std::process::Abort;
use std::test::Fail;
use std::thread::Threads;

// How the graph comes out, driven in one thread.
fn outcome_of(rt: &impl Threads, alloc: Global, graph: Graph<StreamNode>) -> Result<Outcome, Fail>
    requires { AreOpened node_behaviour (states_of graph) }
{
    let config = Config {
        capacity: 1,
        chunk: 1,
        threads: 1,
        idle: 1,
        share: vec![in alloc; 0u8]?,
        drive: Drive::Serial,
    };
    Ok(driven_under(rt, alloc, graph, &config)?.outcome)
}

#[test]
fn graph_comes_back(rt: HostRuntime) -> Result<(), Fail> {
    let alloc = rt.alloc();
    let sum = graph_of(alloc, SUM_OF_FIVE)?;
    let (graph, counts) = dealt_and_gathered(alloc, sum, &[2u8, 0, 2])?;
    let sizes = (graph.nodes(), graph.edges());
    let outcome = outcome_of(&rt, alloc, graph)?;
    assert_eq!(rt;
        (counts, sizes, outcome),
        ([2, 0, 3], (5, 5), Outcome::Value)
    );
    Ok(())
}
