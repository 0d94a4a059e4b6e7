// Graphs that are driven.
ghost use Rattle.std.specs.Prelude.{◌≡◌};
ghost use Rattle.flow_drive.specs.Dealings.{network_under};
ghost use Rattle.flow_graph.specs.Graphs.{states_of};
ghost use Rattle.flow_graph.specs.Networks.{AreOpened};
ghost use Rattle.flow_drive.specs.SharedNetworks.{SharedNetwork};

use flow_drive::{
    AlwaysStart, Boxes, Config, Drive, DriveError, Ends, Gate, Lender, NoGate, Outcome, Rested,
    Rings, Share, Start, Transducer, are_fed, deal, deal_rings, drive, drive_with, epoch,
    epoch_with, pump, rested_is_sound,
};
use flow_graph::StreamNode;
use flow_networks::Graph;
use snesl_flatten::flatten;
use snesl_types::TypedProgram;
use snesl_values::{Inputs, Refusal};
use std::alloc::{AllocError, Global};
use std::sync::Arc;
use std::thread::Threads;

/// A configuration of two threads.
pub fn two_threads(alloc: Global, drive: Drive) -> Result<Config, AllocError> {
    Ok(Config {
        capacity: 256,
        chunk: 16,
        threads: 2,
        idle: 64,
        share: vec![in alloc; 0u8, 1]?,
        drive,
    })
}

/// Whether a configuration is lawful.
pub fn is_lawful(config: &Config) -> bool {
    config.lawful()
}

/// A gate that does nothing.
pub struct Open;

impl Gate for Open {
    fn turn(&self, share: usize, turn: usize) {
        let _ = (share, turn);
    }
}

/// The network of a program at rest, if the inputs are its own.
pub fn rested(
    rt: &impl Threads,
    alloc: Global,
    typed: &TypedProgram,
    inputs: Inputs,
    config: &Config,
) -> Result<Option<Rested>, Refused> {
    let plan = flatten(alloc, typed).map_err(Refused::Flatten)?;
    if !plan.fits(&inputs) {
        return Ok(None);
    }
    let graph = plan.with(inputs)?;
    let gate = Arc::new(alloc, NoGate).map_err(AllocError::from)?;
    Ok(Some(drive(rt, alloc, graph, config, gate)?))
}

/// The same, where each start is asked for.
pub fn rested_with<S: Start>(
    rt: &impl Threads,
    alloc: Global,
    typed: &TypedProgram,
    inputs: Inputs,
    config: &Config,
    start: &mut S,
) -> Result<Option<Rested>, Refused> {
    let plan = flatten(alloc, typed).map_err(Refused::Flatten)?;
    if !plan.fits(&inputs) {
        return Ok(None);
    }
    let graph = plan.with(inputs)?;
    let gate = Arc::new(alloc, NoGate).map_err(AllocError::from)?;
    Ok(Some(drive_with(rt, alloc, graph, config, gate, start)?))
}

/// Why there is no network at rest.
#[derive(Drop)]
pub enum Refused {
    Flatten(Refusal),
    Drive(DriveError),
}

impl From<AllocError> for Refused {
    fn from(_: AllocError) -> Self {
        Refused::Drive(DriveError::NoMemory)
    }
}

impl From<DriveError> for Refused {
    fn from(error: DriveError) -> Self {
        Refused::Drive(error)
    }
}

/// The shares of a program's network, over boxes, if the inputs are its own.
pub fn shares(
    alloc: Global,
    typed: &TypedProgram,
    inputs: Inputs,
    config: &Config,
) -> Result<Option<Vec<Share<Boxes>>>, Refused> {
    let plan = flatten(alloc, typed).map_err(Refused::Flatten)?;
    if !plan.fits(&inputs) {
        return Ok(None);
    }
    let graph = plan.with(inputs)?;
    Ok(Some(deal(alloc, graph, config)?))
}

/// The shares of a program's network, over rings, if the inputs are its own.
pub fn ring_shares(
    alloc: Global,
    typed: &TypedProgram,
    inputs: Inputs,
    config: &Config,
) -> Result<Option<Vec<Share<Rings>>>, Refused> {
    let plan = flatten(alloc, typed).map_err(Refused::Flatten)?;
    if !plan.fits(&inputs) {
        return Ok(None);
    }
    let graph = plan.with(inputs)?;
    Ok(Some(deal_rings(alloc, graph, config)?))
}

/// One share, pumped if it may be. Whether it is spent, and whether it is starved.
pub fn pumped<E: Ends + Drop>(share: Share<E>, config: &Config) -> Option<(bool, bool)> {
    if share.starved() || !config.lawful() {
        return None;
    }
    let share = pump::<E, NoGate>(share, config, &NoGate);
    Some((share.spent(), share.starved()))
}

/// The shares of a program's network after two epochs, if the inputs are its own. The second is made only where memory was
/// refused to no share in the first.
pub fn shares_after_epochs<S: Start>(
    rt: &impl Threads,
    alloc: Global,
    typed: &TypedProgram,
    inputs: Inputs,
    config: &Config,
    start: &mut S,
) -> Result<Option<Vec<Share<Rings>>>, Refused> {
    let plan = flatten(alloc, typed).map_err(Refused::Flatten)?;
    if !plan.fits(&inputs) {
        return Ok(None);
    }
    let graph = plan.with(inputs)?;
    Ok(Some(after_epochs(rt, alloc, graph, config, start)?))
}

// The same of a graph, as it was built, of nodes of any type.
fn after_epochs<R: Threads, T: Transducer + Send + Drop + 'static, S: Start>(
    rt: &R,
    alloc: Global,
    graph: Graph<T>,
    config: &Config,
    start: &mut S,
) -> Result<Vec<flow_drives::Share<T, Rings>>, DriveError>
    requires { AreOpened T.behaviour (states_of graph) }
{
    after_epochs_in(rt, alloc, graph, config, start)
}

// The same in the network in which the graph is dealt out.
fn after_epochs_in<R: Threads, T: Transducer + Send + Drop + 'static, S: Start>(
    rt: &R,
    alloc: Global,
    graph: Graph<T>,
    config: &Config,
    start: &mut S,
) -> Result<Vec<flow_drives::Share<T, Rings>>, DriveError>
    ghost network: { SharedNetwork ⟦<T as Transducer>⟧ }
    requires opened { AreOpened T.behaviour (states_of graph) }
    requires network { network ≡ network_under graph config.now }
{
    let gate = Arc::new(alloc, NoGate).map_err(AllocError::from)?;
    let shares = flow_drives::deal_rings(alloc, graph, config)?;
    let once = epoch(rt, alloc, shares, config, &gate)?;
    if !are_fed(&once) {
        return Ok(once);
    }
    epoch_with(rt, alloc, once, config, &gate, start)
}

/// A share whose ends were lent meanwhile, and whether its writer of this edge had room then.
pub fn lent<E: Ends>(share: Share<E>, edge: usize) -> (Share<E>, bool) {
    let (lender, mut ends): (Lender<StreamNode, E>, E) = share.lend();
    let room = ends.has_writer(edge) && ends.room(edge);
    (lender.take_back(ends), room)
}

/// How a network came out: it is sound, and at rest.
pub fn outcome_of(rested: &Rested) -> Outcome {
    rested_is_sound(rested);
    rested.outcome()
}

/// What can be asked of a network at rest.
pub fn told(rested: &Rested) -> (Outcome, &[u8], usize, usize, u64) {
    (
        rested.outcome(),
        rested.text(),
        rested.nodes(),
        rested.edges(),
        rested.epochs(),
    )
}

/// How many messages were sent and received on an edge.
pub fn counts_of(rested: &Rested, edge: usize) -> Option<(u64, u64)> {
    if edge < rested.edges() {
        return Some(rested.counts(edge));
    }
    None
}

/// The shares of a network that was driven over rings.
pub fn shares_of(rested: &Rested) -> Option<&[Share<Rings>]> {
    rested.rings()
}

/// The least full edge whose writer waits, where it has stalled.
pub fn stalled_at(outcome: &Outcome) -> Option<usize> {
    match outcome {
        Outcome::Stalled { edge } => Some(*edge),
        Outcome::Value | Outcome::Fault(_) => None,
    }
}

/// Whether the start of a thread is allowed by what always says yes.
pub fn may_start(worker: usize) -> bool {
    AlwaysStart::new().may_start(worker)
}
