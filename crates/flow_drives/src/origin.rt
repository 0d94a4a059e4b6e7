// What drives of several threads keep of a graph that they deal out.
ghost use Rattle.std.specs.Prelude.{◌≡◌, IfOk};
ghost use Rattle.flow_networks.specs.Graphs.{states_of};
ghost use Rattle.flow_networks.specs.Networks.{AreOpened};
ghost use Rattle.flow_drives.specs.Configs.{IsLawful};
ghost use Rattle.flow_drives.specs.Origins.{network_in, IsOriginOf, IsDealtFrom};

use crate::config::Config;
use flow_base::Transducer;
use flow_networks::Graph;
use flow_shares::meetings::{Dealt, Opening, deal};
use std::alloc::{AllocError, Global};
use std::snapshot::Snapshot;

/// What is known of a graph that was dealt out.
#[derive(Drop)]
pub struct Origin<T: Transducer> {
    /// The graph, as it was built.
    pub graph: Snapshot<Graph<T>>,
    /// How many nodes it has.
    pub nodes: usize,
    /// To which share each went.
    pub share: Vec<u8>,
    /// How many messages an edge holds at most.
    pub capacity: usize,
}

/// Deals a graph out as the configuration says, over ends of one kind.
///
/// Its only error is that memory was refused.
pub fn deal_out<T: Transducer + Drop, E: Opening + Drop>(
    alloc: Global,
    graph: Graph<T>,
    config: &Config,
) -> Result<(Origin<T>, Dealt<T, E>), AllocError>
    requires opened { AreOpened T.behaviour (states_of graph) }
    requires lawful { IsLawful config.now }
    ensures graph { IfOk result (λ made. made.0.graph.value ≡ graph) }
    ensures capacity { IfOk result (λ made. made.0.capacity ≡ config.now.capacity) }
    ensures share { IfOk result (λ made. made.0.share.items ≡ config.now.share.items) }
    ensures origin { IfOk result (λ made. IsOriginOf (network_in made.0) made.0) }
    ensures dealt { IfOk result (λ made.
        IsDealtFrom E.joins E.slots made.0 config.now.threads made.1) }
{
    let origin = Snapshot::of(&graph);
    let nodes = graph.nodes();
    let share = config.share.to_vec(alloc)?;
    let dealt = deal(alloc, graph, config.threads, &share, config.capacity)?;
    let origin = Origin {
        graph: origin,
        nodes,
        share,
        capacity: config.capacity,
    };
    Ok((origin, dealt))
}
