// Rounds.
ghost use Rattle.std.specs.Prelude.{◌≡◌, ◌<◌, ◌⊎◌, length, IfOk, OnOk};
ghost use Rattle.flow_shares.specs.Starts.{AsksForEach, AsksAtEach};
ghost use Rattle.flow_shares.specs.declared.error.WorkError.TheVariants.{NoThread};
ghost use Rattle.flow_shares.specs.meetings.Open.{AreOwners};
ghost use Rattle.flow_shares.specs.meetings.SharedNetworks.{SharedNetwork};
ghost use Rattle.flow_drives.specs.loops.Rounds.{IsRound, RoundsWent};
ghost use Rattle.flow_drives.specs.loops.Standing.{StandBetweenRounds, RestBetweenRounds};

use crate::loops::round_meeting::meet;
use flow_base::Transducer;
use flow_boxes::Boxes;
use flow_shares::meetings::{EdgeOwners, are_fed, are_stuck};
use flow_shares::{Gate, Share, Start, WorkError, run_all};
use std::alloc::Global;
use std::sync::Arc;
use std::thread::Threads;

/// Runs shares in rounds, as long as a node can step. The shares, and how many rounds there were; the count stays at the
/// greatest `u64`.
///
/// Each round begins where a node can step, and moves a message: there are no more rounds than messages were sent and
/// received, and one at least where any was.
///
/// Refused as `NoThread` where a thread could not be started or `start` said no, and as `NoMemory` where memory was
/// refused, to a node too. The shares are then let go.
pub fn run_rounds<
    R: Threads,
    T: Transducer + Send + Drop + 'static,
    G: Gate + Send + Sync + Drop + 'static,
    S: Start,
>(
    rt: &R,
    alloc: Global,
    shares: Vec<Share<T, Boxes>>,
    owners: &[EdgeOwners],
    chunk: usize,
    idle_turns: usize,
    gate: &Arc<G, Global>,
    start: &mut S,
) -> Result<(Vec<Share<T, Boxes>>, u64), WorkError>
    ghost network: { SharedNetwork ⟦<T as Transducer>⟧ }
    requires some { 0 < chunk }
    requires idle { 0 < idle_turns }
    requires owners { AreOwners network.share network.edges owners.now }
    requires stand { StandBetweenRounds network shares.items }
    ensures rest { IfOk result (λ made. RestBetweenRounds network made.0.items) }
    ensures went { IfOk result (λ made. RoundsWent network shares.items made.0.items made.1) }
    ensures asked { IfOk result (λ made. AsksAtEach S.asked start.old start.new made.1
        shares.items) }
    ensures refused { S.refused start.new → S.refused start.old ⊎ (result ≡ Err NoThread) }
{
    let mut shares = shares;
    let mut count: u64 = 0;
    'rounds: loop {
        if are_stuck(&mut shares) {
            return Ok((shares, count));
        }
        shares = round(rt, alloc, shares, owners, chunk, idle_turns, gate, start)?;
        count = count.saturating_add(1);
    }
}

// One round: all shares are pumped side by side, and then the ends of all edges meet.
fn round<
    R: Threads,
    T: Transducer + Send + Drop + 'static,
    G: Gate + Send + Sync + Drop + 'static,
    S: Start,
>(
    rt: &R,
    alloc: Global,
    shares: Vec<Share<T, Boxes>>,
    owners: &[EdgeOwners],
    chunk: usize,
    idle_turns: usize,
    gate: &Arc<G, Global>,
    start: &mut S,
) -> Result<Vec<Share<T, Boxes>>, WorkError>
    ghost network: { SharedNetwork ⟦<T as Transducer>⟧ }
    requires some { 0 < chunk }
    requires idle { 0 < idle_turns }
    requires owners { AreOwners network.share network.edges owners.now }
    requires stand { StandBetweenRounds network shares.items }
    ensures round { IfOk result (λ made. IsRound network shares.items made.items) }
    ensures count { IfOk result (λ made. length made.items ≡ length shares.items) }
    ensures asked { OnOk result (AsksForEach S.asked start.old start.new shares.items) }
    ensures refused { S.refused start.new → S.refused start.old ⊎ (result ≡ Err NoThread) }
{
    let back = run_all(rt, alloc, shares, chunk, idle_turns, gate, start)?;
    if !are_fed(&back) {
        return Err(WorkError::NoMemory);
    }
    let met = meet(alloc, back, owners)?;
    Ok(met)
}
