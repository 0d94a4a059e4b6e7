// Shares over rings, run in two epochs one after the other.

ghost use Rattle.std.specs.Prelude.{◌≡◌};
ghost use Rattle.flow_networks.specs.Graphs.{states_of};
ghost use Rattle.flow_networks.specs.Networks.{AreOpened};
ghost use Rattle.flow_shares.specs.meetings.SharedNetworks.{SharedNetwork};
ghost use Rattle.flow_drives.specs.Dealings.{network_under};

use flow_base::Transducer;
use flow_drives::{Config, Drive, NoGate, deal_rings, epoch};
use flow_networks::Graph;
use flow_samples::{SUM_OF_FIVE, graph_of};
use flow_shares::meetings::are_fed;
use std::alloc::Global;
use std::process::Abort;
use std::sync::Arc;
use std::test::Fail;
use std::thread::Threads;

// Deals a graph out, and makes two epochs of its shares. How many came back, if memory was refused to none.
fn two_epochs<R: Threads, T: Transducer + Send + Drop + 'static>(
    rt: &R,
    alloc: Global,
    graph: Graph<T>,
    config: &Config,
) -> Result<Option<usize>, Fail>
    requires { AreOpened T.behaviour (states_of graph) }
{
    two_epochs_in(rt, alloc, graph, config)
}

// The same, in the network in which the graph is dealt out.
fn two_epochs_in<R: Threads, T: Transducer + Send + Drop + 'static>(
    rt: &R,
    alloc: Global,
    graph: Graph<T>,
    config: &Config,
) -> Result<Option<usize>, Fail>
    ghost network: { SharedNetwork ⟦<T as Transducer>⟧ }
    requires opened { AreOpened T.behaviour (states_of graph) }
    requires network { network ≡ network_under graph config.now }
{
    let gate = Arc::new(alloc, NoGate)?;
    let shares = deal_rings(alloc, graph, config)?;
    let once = epoch(rt, alloc, shares, config, &gate)?;
    if !are_fed(&once) {
        return Ok(None);
    }
    let twice = epoch(rt, alloc, once, config, &gate)?;
    Ok(Some(twice.len()))
}

#[test]
fn two_epochs_of_three_shares(rt: HostRuntime) -> Result<(), Fail> {
    let alloc = rt.alloc();
    let config = Config {
        capacity: 1,
        chunk: 1,
        threads: 3,
        idle: 1,
        share: vec![in alloc; 0u8, 1, 2]?,
        drive: Drive::Rings,
    };
    let back = two_epochs(&rt, alloc, graph_of(alloc, SUM_OF_FIVE)?, &config)?;
    assert_eq!(rt; back, Some(3));
    Ok(())
}
