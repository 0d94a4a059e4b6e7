// Graphs dealt out as configurations say.
ghost use Rattle.std.specs.Prelude.{◌≡◌, ◌↔◌, ◌⊎◌, Err, IfOk, IfErr};
ghost use Rattle.flow_networks.specs.Graphs.{states_of};
ghost use Rattle.flow_networks.specs.Networks.{AreOpened};
ghost use Rattle.flow_shares.specs.meetings.SharedNetworks.{AreFed};
ghost use Rattle.flow_nodes.specs.StreamNodes.{node_behaviour};
ghost use Rattle.flow_drives.specs.Configs.{IsLawful};
ghost use Rattle.flow_drives.specs.Dealings.{AreDealtOverBoxes, AreDealtOverRings, AreSharesOf};
ghost use Rattle.flow_drives.specs.declared.driver.DriveError.TheVariants.{BadConfig, NoMemory};

use crate::shares::Share;
use flow_boxes::Boxes;
use flow_drives::{Config, DriveError};
use flow_edges::lanes::Rings;
use flow_graph::Graph;
use std::alloc::Global;

/// Deals a graph, as it was built, out to shares over boxes: one share for each of the threads of the configuration, and
/// each node and each end of an edge in exactly one. All ends are fresh, and no share was run.
///
/// It is refused as `BadConfig` exactly where the configuration is not lawful, and else only as `NoMemory`.
pub fn deal(alloc: Global, graph: Graph, config: &Config) -> Result<Vec<Share<Boxes>>, DriveError>
    requires { AreOpened node_behaviour (states_of graph) }
    ensures config { (result ≡ Err BadConfig) ↔ (IsLawful config.now → ⊥) }
    ensures refused { IfErr result (λ error. (error ≡ BadConfig) ⊎ (error ≡ NoMemory)) }
    ensures dealt { IfOk result (λ shares. AreDealtOverBoxes graph config.now shares.items) }
    ensures fed { IfOk result (λ shares. AreFed shares.items) }
{
    flow_drives::deal(alloc, graph, config)
}

/// The same over rings: shares that can be run in an [`epoch`](crate::epoch).
///
/// It is refused as `BadConfig` exactly where the configuration is not lawful, and else only as `NoMemory`.
pub fn deal_rings(
    alloc: Global,
    graph: Graph,
    config: &Config,
) -> Result<Vec<Share<Rings>>, DriveError>
    requires { AreOpened node_behaviour (states_of graph) }
    ensures config { (result ≡ Err BadConfig) ↔ (IsLawful config.now → ⊥) }
    ensures refused { IfErr result (λ error. (error ≡ BadConfig) ⊎ (error ≡ NoMemory)) }
    ensures dealt { IfOk result (λ shares. AreDealtOverRings graph config.now shares.items) }
    ensures graph { IfOk result (λ shares. AreSharesOf graph config.now shares.items) }
    ensures fed { IfOk result (λ shares. AreFed shares.items) }
{
    flow_drives::deal_rings(alloc, graph, config)
}
