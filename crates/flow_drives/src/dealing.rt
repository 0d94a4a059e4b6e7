// Graphs dealt out as configurations say.
ghost use Rattle.std.specs.Prelude.{◌≡◌, ◌↔◌, ◌⊎◌, Err, IfOk, IfErr};
ghost use Rattle.flow_networks.specs.Graphs.{states_of};
ghost use Rattle.flow_networks.specs.Networks.{AreOpened};
ghost use Rattle.flow_shares.specs.meetings.SharedNetworks.{AreFed};
ghost use Rattle.flow_drives.specs.Configs.{IsLawful};
ghost use Rattle.flow_drives.specs.Dealings.{IsDealtUnder, AreDealtOverBoxes, AreDealtOverRings, AreSharesOf};
ghost use Rattle.flow_drives.specs.declared.driver.DriveError.TheVariants.{BadConfig, NoMemory};

use crate::config::Config;
use crate::driver::DriveError;
use flow_base::Transducer;
use flow_boxes::Boxes;
use flow_edges::lanes::Rings;
use flow_networks::Graph;
use flow_shares::meetings::{Dealt, Opening};
use flow_shares::{Share, meetings};
use std::alloc::Global;

/// Deals a graph, as it was built, out to shares over boxes: one share for each of the threads of the configuration, and
/// each node and each end of an edge in exactly one. All ends are fresh, and no share was run.
///
/// It is refused as `BadConfig` exactly where the configuration is not lawful, and else only as `NoMemory`.
pub fn deal<T: Transducer + Drop>(
    alloc: Global,
    graph: Graph<T>,
    config: &Config,
) -> Result<Vec<Share<T, Boxes>>, DriveError>
    requires { AreOpened T.behaviour (states_of graph) }
    ensures config { (result ≡ Err BadConfig) ↔ (IsLawful config.now → ⊥) }
    ensures refused { IfErr result (λ error. (error ≡ BadConfig) ⊎ (error ≡ NoMemory)) }
    ensures dealt { IfOk result (λ shares. AreDealtOverBoxes graph config.now shares.items) }
    ensures fed { IfOk result (λ shares. AreFed shares.items) }
{
    let dealt: Dealt<T, Boxes> = dealt_out(alloc, graph, config)?;
    Ok(dealt.shares)
}

/// The same over rings: shares that can be run in an [`epoch`](crate::epoch).
///
/// It is refused as `BadConfig` exactly where the configuration is not lawful, and else only as `NoMemory`.
pub fn deal_rings<T: Transducer + Drop>(
    alloc: Global,
    graph: Graph<T>,
    config: &Config,
) -> Result<Vec<Share<T, Rings>>, DriveError>
    requires { AreOpened T.behaviour (states_of graph) }
    ensures config { (result ≡ Err BadConfig) ↔ (IsLawful config.now → ⊥) }
    ensures refused { IfErr result (λ error. (error ≡ BadConfig) ⊎ (error ≡ NoMemory)) }
    ensures dealt { IfOk result (λ shares. AreDealtOverRings graph config.now shares.items) }
    ensures graph { IfOk result (λ shares. AreSharesOf graph config.now shares.items) }
    ensures fed { IfOk result (λ shares. AreFed shares.items) }
{
    let dealt: Dealt<T, Rings> = dealt_out(alloc, graph, config)?;
    Ok(dealt.shares)
}

// Deals a graph out over ends of one kind.
fn dealt_out<T: Transducer + Drop, E: Opening + Drop>(
    alloc: Global,
    graph: Graph<T>,
    config: &Config,
) -> Result<Dealt<T, E>, DriveError>
    requires { AreOpened T.behaviour (states_of graph) }
    ensures config { (result ≡ Err BadConfig) ↔ (IsLawful config.now → ⊥) }
    ensures refused { IfErr result (λ error. (error ≡ BadConfig) ⊎ (error ≡ NoMemory)) }
    ensures lawful { IfOk result (λ _. IsLawful config.now) }
    ensures dealt { IfOk result (λ dealt. IsDealtUnder E.joins E.slots graph config.now dealt) }
{
    if !config.lawful() {
        return Err(DriveError::BadConfig);
    }
    let dealt = meetings::deal(alloc, graph, config.threads, &config.share, config.capacity)?;
    Ok(dealt)
}
