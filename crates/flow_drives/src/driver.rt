// Drives of graphs.
ghost use Rattle.std.specs.Prelude.{◌≡◌, ◌↔◌, ◌⊎◌, Err, IfOk};
ghost use Rattle.flow_networks.specs.Graphs.{states_of};
ghost use Rattle.flow_networks.specs.Networks.{AreOpened};
ghost use Rattle.flow_drives.specs.Configs.{IsLawful, StartsThreads, IsInSteps};
ghost use Rattle.flow_drives.specs.Driven.{HasNetworkOf, EndsRunOf, TookItsRounds, TookItsEpochs, LedUnder, NamesSharesOf, HasThreadsOf};
ghost use Rattle.flow_drives.specs.Starts.{DriveAsks};
ghost use Rattle.flow_drives.specs.Refusals.{drive_error_of};
ghost use Rattle.flow_drives.specs.Resteds.{rested_capacity, rested_rounds, rested_epochs, IsOverRings};
ghost use Rattle.flow_drives.specs.declared.config.Drive.TheVariants.{Rings};
ghost use Rattle.flow_drives.specs.declared.driver.DriveError.TheVariants.{BadConfig, NoMemory, NoThread, Short};

use crate::all_ends::AllEnds;
use crate::config::{Config, Drive};
use crate::joined::drive_rings;
use crate::parts::{Gathered, Parts};
use crate::rested::Rested;
use crate::rounds::drive_rounds;
use flow_base::Transducer;
use flow_boxes::Boxes;
use flow_edges::lanes::Rings as RingEnds;
use flow_messages::{Ends, Table};
use flow_networks::{Graph, kinds_of, run_serial};
use flow_shares::{AlwaysStart, Gate, Start, WorkError};
use std::alloc::{AllocError, AllocFailed, Global};
use std::sync::Arc;
use std::thread::Threads;
use thiserror::Error;

/// Why a graph was not driven.
#[derive(Clone, Copy, Debug, PartialEq, Eq, Error)]
pub enum DriveError {
    /// The configuration is not lawful.
    #[error("the configuration is not lawful")]
    BadConfig,
    /// Memory was refused.
    #[error("out of memory")]
    NoMemory,
    /// A thread could not be started.
    #[error("no thread could be started")]
    NoThread,
    /// No node can step by what a last meeting tells, but the messages of some edge and its room are not together its
    /// capacity. No drive answers it, since that they are is proved of the rings. It stands for callers who know the
    /// number.
    #[error("an edge holds less than its capacity")]
    Short,
}

impl From<AllocError> for DriveError {
    ghost from_gives = { λ _ error. error ≡ NoMemory };

    fn from(_: AllocError) -> Self {
        DriveError::NoMemory
    }
}

impl<T: Drop> From<AllocFailed<T>> for DriveError {
    ghost from_gives = { λ _ error. error ≡ NoMemory };

    fn from(_: AllocFailed<T>) -> Self {
        DriveError::NoMemory
    }
}

impl From<WorkError> for DriveError {
    ghost from_gives = { λ refused error. error ≡ drive_error_of refused };

    fn from(refused: WorkError) -> Self {
        match refused {
            WorkError::NoMemory => DriveError::NoMemory,
            WorkError::NoThread => DriveError::NoThread,
        }
    }
}

/// Drives a graph, as it was built, until no node can step.
///
/// `Serial` and `Rounds` make a maximal run of its network at the capacity of the configuration. What `Rings` makes need
/// not be a run, whose steps come one after another; like every graph at rest it is sound, and no node can step (see
/// [`rested_is_sound`](crate::rested_is_sound)).
///
/// It is refused as `BadConfig` exactly where the configuration is not lawful, as `NoThread` only where the drive starts
/// threads, which `Serial` does not, and else as `NoMemory`; never as `Short`. Only drives of several threads call the
/// gate.
pub fn drive<
    R: Threads,
    T: Transducer + Send + Drop + 'static,
    G: Gate + Send + Sync + Drop + 'static,
>(
    rt: &R,
    alloc: Global,
    graph: Graph<T>,
    config: &Config,
    gate: Arc<G, Global>,
) -> Result<Rested<T>, DriveError>
    requires { AreOpened T.behaviour (states_of graph) }
    ensures config { (result ≡ Err BadConfig) ↔ (IsLawful config.now → ⊥) }
    ensures threads { result ≡ Err NoThread → StartsThreads config.now.drive }
    ensures whole { result ≡ Err Short → ⊥ }
    ensures network { IfOk result (λ rested. HasNetworkOf graph rested) }
    ensures capacity { IfOk result (λ rested. rested_capacity rested ≡ config.now.capacity) }
    ensures run { IsInSteps config.now.drive → IfOk result (EndsRunOf graph config.now) }
    ensures rounds { IfOk result (TookItsRounds config.now.drive) }
    ensures epochs { IfOk result (TookItsEpochs config.now.drive) }
    ensures led { IfOk result (LedUnder ⟦<Boxes as Ends>⟧ ⟦<RingEnds as Ends>⟧ graph config.now) }
    ensures rings { IfOk result (λ rested. IsOverRings rested ↔ (config.now.drive ≡ Rings)) }
    ensures share { StartsThreads config.now.drive → IfOk result (NamesSharesOf config.now) }
    ensures shares { StartsThreads config.now.drive → IfOk result (HasThreadsOf config.now) }
{
    drive_with(rt, alloc, graph, config, gate, &mut AlwaysStart::new())
}

/// The same, where `start` is asked before each thread is started, and may refuse it: then the drive is refused as
/// `NoThread`. In each round and each epoch it is asked for each thread once, in order; `Serial` asks it nothing.
pub fn drive_with<
    R: Threads,
    T: Transducer + Send + Drop + 'static,
    G: Gate + Send + Sync + Drop + 'static,
    S: Start,
>(
    rt: &R,
    alloc: Global,
    graph: Graph<T>,
    config: &Config,
    gate: Arc<G, Global>,
    start: &mut S,
) -> Result<Rested<T>, DriveError>
    requires { AreOpened T.behaviour (states_of graph) }
    ensures config { (result ≡ Err BadConfig) ↔ (IsLawful config.now → ⊥) }
    ensures threads { result ≡ Err NoThread → StartsThreads config.now.drive }
    ensures whole { result ≡ Err Short → ⊥ }
    ensures network { IfOk result (λ rested. HasNetworkOf graph rested) }
    ensures capacity { IfOk result (λ rested. rested_capacity rested ≡ config.now.capacity) }
    ensures run { IsInSteps config.now.drive → IfOk result (EndsRunOf graph config.now) }
    ensures rounds { IfOk result (TookItsRounds config.now.drive) }
    ensures epochs { IfOk result (TookItsEpochs config.now.drive) }
    ensures led { IfOk result (LedUnder ⟦<Boxes as Ends>⟧ ⟦<RingEnds as Ends>⟧ graph config.now) }
    ensures rings { IfOk result (λ rested. IsOverRings rested ↔ (config.now.drive ≡ Rings)) }
    ensures share { StartsThreads config.now.drive → IfOk result (NamesSharesOf config.now) }
    ensures shares { StartsThreads config.now.drive → IfOk result (HasThreadsOf config.now) }
    ensures asked { IfOk result (DriveAsks S.asked start.old start.new config.now) }
    ensures refused { S.refused start.new → S.refused start.old ⊎ (result ≡ Err NoThread) }
{
    if !config.lawful() {
        return Err(DriveError::BadConfig);
    }
    match config.drive {
        Drive::Serial => Ok(drive_serial(alloc, graph, config)?),
        Drive::Rounds => Ok(drive_rounds(rt, alloc, graph, config, &gate, start)?),
        Drive::Rings => Ok(drive_rings(rt, alloc, graph, config, &gate, start)?),
    }
}

// Drives a graph in the caller's thread.
fn drive_serial<T: Transducer + Drop>(
    alloc: Global,
    graph: Graph<T>,
    config: &Config,
) -> Result<Rested<T>, AllocError>
    requires opened { AreOpened T.behaviour (states_of graph) }
    requires lawful { IsLawful config.now }
    ensures network { IfOk result (λ rested. HasNetworkOf graph rested) }
    ensures capacity { IfOk result (λ rested. rested_capacity rested ≡ config.now.capacity) }
    ensures run { IfOk result (λ rested. EndsRunOf graph config.now rested) }
    ensures rounds { IfOk result (λ rested. rested_rounds rested ≡ 0) }
    ensures epochs { IfOk result (λ rested. rested_epochs rested ≡ 0) }
    ensures rings { IfOk result (λ rested. IsOverRings rested → ⊥) }
{
    let kinds = kinds_of(alloc, &graph)?;
    let mut ends = Table::new(alloc, &kinds, config.capacity)?;
    let mut graph = graph;
    run_serial(alloc, &mut graph, &mut ends, config.chunk)?;
    let gathered = Gathered {
        graph,
        all_ends: AllEnds::Whole(ends),
    };
    Ok(Rested {
        parts: Parts::Together(gathered),
        rounds: 0,
        epochs: 0,
    })
}
