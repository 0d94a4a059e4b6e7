// Graphs that are driven.
ghost use Rattle.std.specs.Prelude.{◌≡◌, ◌↔◌, ◌⊎◌, Err, IfOk};
ghost use Rattle.flow_networks.specs.Graphs.{states_of};
ghost use Rattle.flow_networks.specs.Networks.{AreOpened};
ghost use Rattle.flow_nodes.specs.StreamNodes.{node_behaviour};
ghost use Rattle.flow_drives.specs.Configs.{IsLawful, StartsThreads, IsInSteps};
ghost use Rattle.flow_drives.specs.Driven.{HasNetworkOf, EndsRunOf, TookItsRounds, TookItsEpochs, LedUnder, NamesSharesOf, HasThreadsOf};
ghost use Rattle.flow_drives.specs.Resteds.{rested_capacity, IsOverRings};
ghost use Rattle.flow_drives.specs.Starts.{DriveAsks};
ghost use Rattle.flow_drives.specs.declared.config.Drive.TheVariants.{Rings};
ghost use Rattle.flow_drives.specs.declared.driver.DriveError.TheVariants.{BadConfig, NoThread, Short};

use crate::shares::Rested;
use flow_boxes::Boxes;
use flow_drives::{Config, DriveError};
use flow_edges::lanes::Rings as RingEnds;
use flow_graph::Graph;
use flow_messages::Ends;
use flow_shares::{Gate, Start};
use std::alloc::Global;
use std::sync::Arc;
use std::thread::Threads;

/// Drives a graph, as it was built, until no node can step.
///
/// `Serial` and `Rounds` make a maximal run of its network at the capacity of the configuration. What `Rings` makes need
/// not be a run, whose steps come one after another; like every graph at rest it is sound, and no node can step (see
/// [`rested_is_sound`](crate::rested_is_sound)).
///
/// It is refused as `BadConfig` exactly where the configuration is not lawful, as `NoThread` only where the drive starts
/// threads, which `Serial` does not, and else as `NoMemory`; never as `Short`. Only drives of several threads call the
/// gate.
pub fn drive<G: Gate + Send + Sync + Drop + 'static>(
    rt: &impl Threads,
    alloc: Global,
    graph: Graph,
    config: &Config,
    gate: Arc<G, Global>,
) -> Result<Rested, DriveError>
    requires { AreOpened node_behaviour (states_of graph) }
    ensures config { (result ≡ Err BadConfig) ↔ (IsLawful config.now → ⊥) }
    ensures threads { result ≡ Err NoThread → StartsThreads config.now.drive }
    ensures whole { result ≡ Err Short → ⊥ }
    ensures network { IfOk result (λ rested. HasNetworkOf graph rested) }
    ensures capacity { IfOk result (λ rested. rested_capacity rested ≡ config.now.capacity) }
    ensures run { IsInSteps config.now.drive → IfOk result (EndsRunOf graph config.now) }
    ensures rounds { IfOk result (TookItsRounds config.now.drive) }
    ensures epochs { IfOk result (TookItsEpochs config.now.drive) }
    ensures led { IfOk result (LedUnder ⟦<Boxes as Ends>⟧ ⟦<RingEnds as Ends>⟧ graph config.now) }
    ensures rings { IfOk result (λ rested. IsOverRings rested ↔ (config.now.drive ≡ Rings)) }
    ensures share { StartsThreads config.now.drive → IfOk result (NamesSharesOf config.now) }
    ensures shares { StartsThreads config.now.drive → IfOk result (HasThreadsOf config.now) }
{
    flow_drives::drive(rt, alloc, graph, config, gate)
}

/// The same, where `start` is asked before each thread is started, and may refuse it: then the drive is refused as
/// `NoThread`. In each round and each epoch it is asked for each thread once, in order; `Serial` asks it nothing.
pub fn drive_with<G: Gate + Send + Sync + Drop + 'static, S: Start>(
    rt: &impl Threads,
    alloc: Global,
    graph: Graph,
    config: &Config,
    gate: Arc<G, Global>,
    start: &mut S,
) -> Result<Rested, DriveError>
    requires { AreOpened node_behaviour (states_of graph) }
    ensures config { (result ≡ Err BadConfig) ↔ (IsLawful config.now → ⊥) }
    ensures threads { result ≡ Err NoThread → StartsThreads config.now.drive }
    ensures whole { result ≡ Err Short → ⊥ }
    ensures network { IfOk result (λ rested. HasNetworkOf graph rested) }
    ensures capacity { IfOk result (λ rested. rested_capacity rested ≡ config.now.capacity) }
    ensures run { IsInSteps config.now.drive → IfOk result (EndsRunOf graph config.now) }
    ensures rounds { IfOk result (TookItsRounds config.now.drive) }
    ensures epochs { IfOk result (TookItsEpochs config.now.drive) }
    ensures led { IfOk result (LedUnder ⟦<Boxes as Ends>⟧ ⟦<RingEnds as Ends>⟧ graph config.now) }
    ensures rings { IfOk result (λ rested. IsOverRings rested ↔ (config.now.drive ≡ Rings)) }
    ensures share { StartsThreads config.now.drive → IfOk result (NamesSharesOf config.now) }
    ensures shares { StartsThreads config.now.drive → IfOk result (HasThreadsOf config.now) }
    ensures asked { IfOk result (DriveAsks S.asked start.old start.new config.now) }
    ensures refused { S.refused start.new → S.refused start.old ⊎ (result ≡ Err NoThread) }
{
    flow_drives::drive_with(rt, alloc, graph, config, gate, start)
}
