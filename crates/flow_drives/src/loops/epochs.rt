// Epochs.
ghost use Rattle.std.specs.Prelude.{◌≡◌, ◌<◌, ◌⊎◌, IfOk, OnOk};
ghost use Rattle.flow_shares.specs.Starts.{AsksForEach, AsksAtEach};
ghost use Rattle.flow_shares.specs.declared.error.WorkError.TheVariants.{NoThread};
ghost use Rattle.flow_shares.specs.meetings.Open.{AreOwners};
ghost use Rattle.flow_shares.specs.meetings.SharedNetworks.{SharedNetwork, AreFed};
ghost use Rattle.flow_drives.specs.loops.Epochs.{AreOfOneGraph, StandSound, StandAtRest, IsEpoch};
ghost use Rattle.flow_drives.specs.loops.Few.{EpochsWent};

use crate::loops::epoch_meeting::meet;
use flow_base::Transducer;
use flow_edges::lanes::Rings;
use flow_shares::meetings::{EdgeOwners, are_fed, are_stuck};
use flow_shares::{Gate, Share, Start, WorkError, run_all};
use std::alloc::Global;
use std::sync::Arc;
use std::thread::Threads;

/// One epoch: the ends of every edge meet, all shares are pumped side by side, each in a thread, and the ends meet again.
///
/// A share that starved comes back with the others. Refused as `NoThread` where a thread could not be started or `start`
/// said no, and as `NoMemory` where memory was refused for a list; the shares are then let go.
pub fn epoch<
    R: Threads,
    T: Transducer + Send + Drop + 'static,
    G: Gate + Send + Sync + Drop + 'static,
    S: Start,
>(
    rt: &R,
    alloc: Global,
    shares: Vec<Share<T, Rings>>,
    owners: &[EdgeOwners],
    chunk: usize,
    idle_turns: usize,
    gate: &Arc<G, Global>,
    start: &mut S,
) -> Result<Vec<Share<T, Rings>>, WorkError>
    ghost network: { SharedNetwork ⟦<T as Transducer>⟧ }
    requires some { 0 < chunk }
    requires idle { 0 < idle_turns }
    requires owners { AreOwners network.share network.edges owners.now }
    requires graph { AreOfOneGraph network shares.items }
    requires fed { AreFed shares.items }
    ensures epoch { IfOk result (λ back. IsEpoch network shares.items back.items) }
    ensures asked { OnOk result (AsksForEach S.asked start.old start.new shares.items) }
    ensures refused { S.refused start.new → S.refused start.old ⊎ (result ≡ Err NoThread) }
{
    let met = meet(alloc, shares, owners)?;
    let back = run_all(rt, alloc, met, chunk, idle_turns, gate, start)?;
    let back = meet(alloc, back, owners)?;
    Ok(back)
}

/// Runs shares in epochs, as long as a node can step where the ends of every edge have met. The shares, and how many epochs
/// there were; the count stays at the greatest `u64`.
///
/// Each epoch begins where a node can step, and moves a message: there are no more epochs than messages were sent and
/// received, and one at least where any was.
///
/// Refused as `NoThread` where a thread could not be started or `start` said no, and as `NoMemory` where memory was
/// refused, to a node too. The shares are then let go.
pub fn run_epochs<
    R: Threads,
    T: Transducer + Send + Drop + 'static,
    G: Gate + Send + Sync + Drop + 'static,
    S: Start,
>(
    rt: &R,
    alloc: Global,
    shares: Vec<Share<T, Rings>>,
    owners: &[EdgeOwners],
    chunk: usize,
    idle_turns: usize,
    gate: &Arc<G, Global>,
    start: &mut S,
) -> Result<(Vec<Share<T, Rings>>, u64), WorkError>
    ghost network: { SharedNetwork ⟦<T as Transducer>⟧ }
    requires some { 0 < chunk }
    requires idle { 0 < idle_turns }
    requires owners { AreOwners network.share network.edges owners.now }
    requires graph { AreOfOneGraph network shares.items }
    requires fed { AreFed shares.items }
    ensures went { IfOk result (λ made. EpochsWent network shares.items made.0.items made.1) }
    ensures sound { IfOk result (λ made. StandSound network made.0.items) }
    ensures rest { IfOk result (λ made. StandAtRest network made.0.items) }
    ensures asked { IfOk result (λ made. AsksAtEach S.asked start.old start.new made.1
        shares.items) }
    ensures refused { S.refused start.new → S.refused start.old ⊎ (result ≡ Err NoThread) }
{
    let mut shares = meet(alloc, shares, owners)?;
    let mut count: u64 = 0;
    'epochs: loop {
        if are_stuck(&mut shares) {
            return Ok((shares, count));
        }
        let back = epoch(rt, alloc, shares, owners, chunk, idle_turns, gate, start)?;
        if !are_fed(&back) {
            return Err(WorkError::NoMemory);
        }
        count = count.saturating_add(1);
        shares = back;
    }
}
