// The drive of several threads over rings.
ghost use Rattle.std.specs.Prelude.{◌≡◌, ◌<◌, ◌≤◌, ◌⊎◌, length, Err, IfOk};
ghost use Rattle.flow_networks.specs.Graphs.{states_of};
ghost use Rattle.flow_networks.specs.Skeletons.{edges_in};
ghost use Rattle.flow_networks.specs.Networks.{AreOpened};
ghost use Rattle.flow_shares.specs.meetings.Open.{AreOwners};
ghost use Rattle.flow_shares.specs.meetings.SharedNetworks.{SharedNetwork, AreFed};
ghost use Rattle.flow_shares.specs.declared.error.WorkError.TheVariants.{NoThread};
ghost use Rattle.flow_drives.specs.loops.Epochs.{moved_in, AreOfOneGraph};
ghost use Rattle.flow_drives.specs.Configs.{IsLawful};
ghost use Rattle.flow_drives.specs.Led.{EpochsLed, LedInEpochs};
ghost use Rattle.flow_drives.specs.Origins.{IsOriginOf};
ghost use Rattle.flow_drives.specs.Resteds.{rested_capacity, rested_rounds, rested_epochs, rested_share, rested_shares, moves_of, IsOverRings};
ghost use Rattle.flow_drives.specs.Driven.{HasNetworkOf, HasSharedNetwork};
ghost use Rattle.flow_drives.specs.Starts.{EpochsAsk};

use crate::config::Config;
use crate::loops::run_epochs;
use crate::origin::{Origin, deal_out};
use crate::parts::Parts;
use crate::places::places_of;
use crate::rested::Rested;
use crate::ring_shares::RingShares;
use flow_base::Transducer;
use flow_edges::lanes::Rings;
use flow_messages::Ends;
use flow_networks::Graph;
use flow_shares::meetings::Dealt;
use flow_shares::{Gate, Start, WorkError};
use std::alloc::Global;
use std::sync::Arc;
use std::thread::Threads;

/// Drives a graph in shares, each in a thread of its own, over rings, until no node can step.
///
/// What all shares do need not be a run whose steps come one after another; but where they rest is a sound configuration
/// of the graph's network, as each [`Rested`] is, and no node can step there.
pub fn drive_rings<
    R: Threads,
    T: Transducer + Send + Drop + 'static,
    G: Gate + Send + Sync + Drop + 'static,
    S: Start,
>(
    rt: &R,
    alloc: Global,
    graph: Graph<T>,
    config: &Config,
    gate: &Arc<G, Global>,
    start: &mut S,
) -> Result<Rested<T>, WorkError>
    requires opened { AreOpened T.behaviour (states_of graph) }
    requires lawful { IsLawful config.now }
    ensures network { IfOk result (λ rested. HasNetworkOf graph rested) }
    ensures capacity { IfOk result (λ rested. rested_capacity rested ≡ config.now.capacity) }
    ensures rounds { IfOk result (λ rested. rested_rounds rested ≡ 0) }
    ensures least { IfOk result (λ rested. 0 < moves_of rested → 0 < rested_epochs rested) }
    ensures most { IfOk result (λ rested. rested_epochs rested ≤ moves_of rested) }
    ensures led { IfOk result (λ rested.
        LedInEpochs ⟦<Rings as Ends>⟧ graph config.now rested) }
    ensures rings { IfOk result (λ rested. IsOverRings rested) }
    ensures share { IfOk result (λ rested. rested_share rested ≡ config.now.share.items) }
    ensures shares { IfOk result (λ rested. rested_shares rested ≡ config.now.threads) }
    ensures asked { IfOk result (EpochsAsk S.asked start.old start.new config.now.threads) }
    ensures refused { S.refused start.new → S.refused start.old ⊎ (result ≡ Err NoThread) }
{
    let (origin, dealt) = deal_out(alloc, graph, config)?;
    run_dealt(rt, alloc, origin, dealt, config, gate, start)
}

// Runs the shares of a graph that was just dealt out.
fn run_dealt<
    R: Threads,
    T: Transducer + Send + Drop + 'static,
    G: Gate + Send + Sync + Drop + 'static,
    S: Start,
>(
    rt: &R,
    alloc: Global,
    origin: Origin<T>,
    dealt: Dealt<T, Rings>,
    config: &Config,
    gate: &Arc<G, Global>,
    start: &mut S,
) -> Result<Rested<T>, WorkError>
    ghost network: { SharedNetwork ⟦<T as Transducer>⟧ }
    requires lawful { IsLawful config.now }
    requires origin { IsOriginOf network origin }
    requires owners { AreOwners network.share network.edges dealt.owners.items }
    requires skeleton { edges_in dealt.skeleton ≡ network.edges }
    requires graph { AreOfOneGraph network dealt.shares.items }
    requires fed { AreFed dealt.shares.items }
    requires none { moved_in network dealt.shares.items ≡ 0 }
    ensures network { IfOk result (λ rested. HasSharedNetwork network rested) }
    ensures capacity { IfOk result (λ rested. rested_capacity rested ≡ network.capacity) }
    ensures rounds { IfOk result (λ rested. rested_rounds rested ≡ 0) }
    ensures least { IfOk result (λ rested. 0 < moves_of rested → 0 < rested_epochs rested) }
    ensures most { IfOk result (λ rested. rested_epochs rested ≤ moves_of rested) }
    ensures led { IfOk result (λ rested. EpochsLed network dealt.shares.items rested) }
    ensures rings { IfOk result (λ rested. IsOverRings rested) }
    ensures share { IfOk result (λ rested. rested_share rested ≡ network.share) }
    ensures shares { IfOk result (λ rested. rested_shares rested ≡ length dealt.shares.items) }
    ensures asked { IfOk result (
        EpochsAsk S.asked start.old start.new (length dealt.shares.items)) }
    ensures refused { S.refused start.new → S.refused start.old ⊎ (result ≡ Err NoThread) }
{
    let Dealt {
        shares,
        owners,
        skeleton,
    } = dealt;
    let (shares, count) = run_epochs(
        rt,
        alloc,
        shares,
        &owners,
        config.chunk,
        config.idle,
        gate,
        start,
    )?;
    let places = places_of(alloc, &shares, origin.nodes)?;
    let apart = RingShares {
        places,
        skeleton,
        share: origin.share,
        shares,
        capacity: origin.capacity,
    };
    Ok(Rested {
        parts: Parts::Apart(apart),
        rounds: 0,
        epochs: count,
    })
}
