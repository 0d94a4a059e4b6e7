// The drive of several threads by rounds.
ghost use Rattle.std.specs.Prelude.{◌≡◌, ◌<◌, ◌≤◌, ◌⊎◌, length, Err, IfOk};
ghost use Rattle.flow_networks.specs.Graphs.{states_of};
ghost use Rattle.flow_networks.specs.Skeletons.{edges_in};
ghost use Rattle.flow_networks.specs.Networks.{AreOpened};
ghost use Rattle.flow_shares.specs.meetings.Open.{AreOwners};
ghost use Rattle.flow_shares.specs.meetings.SharedNetworks.{SharedNetwork};
ghost use Rattle.flow_shares.specs.declared.error.WorkError.TheVariants.{NoThread};
ghost use Rattle.flow_drives.specs.loops.Standing.{boxes_of, moved_in, StandBetweenRounds};
ghost use Rattle.flow_drives.specs.Configs.{IsLawful};
ghost use Rattle.flow_drives.specs.Led.{RoundsLed, LedInRounds};
ghost use Rattle.flow_drives.specs.Origins.{IsOriginOf};
ghost use Rattle.flow_drives.specs.Resteds.{rested_capacity, rested_rounds, rested_epochs, rested_share, rested_shares, moves_of, IsOverRings};
ghost use Rattle.flow_drives.specs.Driven.{HasNetworkOf, EndsRunOf, HasSharedNetwork, EndsSharedRun};
ghost use Rattle.flow_drives.specs.Starts.{RoundsAsk};

use crate::all_ends::{AllEnds, SharedEnds};
use crate::config::Config;
use crate::loops::run_rounds;
use crate::origin::{Origin, deal_out};
use crate::parts::{Gathered, Parts};
use crate::rested::Rested;
use flow_base::Transducer;
use flow_boxes::Boxes;
use flow_messages::Ends;
use flow_networks::Graph;
use flow_shares::meetings::{Dealt, gather_graph};
use flow_shares::{Gate, Start, WorkError};
use std::alloc::Global;
use std::sync::Arc;
use std::thread::Threads;

/// Drives a graph in shares, each in a thread of its own, round after round.
pub fn drive_rounds<
    R: Threads,
    T: Transducer + Send + Drop + 'static,
    G: Gate + Send + Sync + Drop + 'static,
    S: Start,
>(
    rt: &R,
    alloc: Global,
    graph: Graph<T>,
    config: &Config,
    gate: &Arc<G, Global>,
    start: &mut S,
) -> Result<Rested<T>, WorkError>
    requires opened { AreOpened T.behaviour (states_of graph) }
    requires lawful { IsLawful config.now }
    ensures network { IfOk result (λ rested. HasNetworkOf graph rested) }
    ensures capacity { IfOk result (λ rested. rested_capacity rested ≡ config.now.capacity) }
    ensures run { IfOk result (λ rested. EndsRunOf graph config.now rested) }
    ensures least { IfOk result (λ rested. 0 < moves_of rested → 0 < rested_rounds rested) }
    ensures most { IfOk result (λ rested. rested_rounds rested ≤ moves_of rested) }
    ensures epochs { IfOk result (λ rested. rested_epochs rested ≡ 0) }
    ensures led { IfOk result (λ rested.
        LedInRounds ⟦<Boxes as Ends>⟧ graph config.now rested) }
    ensures rings { IfOk result (λ rested. IsOverRings rested → ⊥) }
    ensures share { IfOk result (λ rested. rested_share rested ≡ config.now.share.items) }
    ensures shares { IfOk result (λ rested. rested_shares rested ≡ config.now.threads) }
    ensures asked { IfOk result (RoundsAsk S.asked start.old start.new config.now.threads) }
    ensures refused { S.refused start.new → S.refused start.old ⊎ (result ≡ Err NoThread) }
{
    let (origin, dealt) = deal_out(alloc, graph, config)?;
    run_dealt(rt, alloc, origin, dealt, config, gate, start)
}

// Runs the shares of a graph that was just dealt out, and gathers them.
fn run_dealt<
    R: Threads,
    T: Transducer + Send + Drop + 'static,
    G: Gate + Send + Sync + Drop + 'static,
    S: Start,
>(
    rt: &R,
    alloc: Global,
    origin: Origin<T>,
    dealt: Dealt<T, Boxes>,
    config: &Config,
    gate: &Arc<G, Global>,
    start: &mut S,
) -> Result<Rested<T>, WorkError>
    ghost network: { SharedNetwork ⟦<T as Transducer>⟧ }
    requires lawful { IsLawful config.now }
    requires origin { IsOriginOf network origin }
    requires owners { AreOwners network.share network.edges dealt.owners.items }
    requires skeleton { edges_in dealt.skeleton ≡ network.edges }
    requires stand { StandBetweenRounds network dealt.shares.items }
    requires none { moved_in network (boxes_of dealt.shares.items) ≡ 0 }
    ensures network { IfOk result (λ rested. HasSharedNetwork network rested) }
    ensures capacity { IfOk result (λ rested. rested_capacity rested ≡ network.capacity) }
    ensures run { IfOk result (λ rested. EndsSharedRun network rested) }
    ensures least { IfOk result (λ rested. 0 < moves_of rested → 0 < rested_rounds rested) }
    ensures most { IfOk result (λ rested. rested_rounds rested ≤ moves_of rested) }
    ensures epochs { IfOk result (λ rested. rested_epochs rested ≡ 0) }
    ensures led { IfOk result (λ rested. RoundsLed network dealt.shares.items rested) }
    ensures rings { IfOk result (λ rested. IsOverRings rested → ⊥) }
    ensures share { IfOk result (λ rested. rested_share rested ≡ network.share) }
    ensures shares { IfOk result (λ rested. rested_shares rested ≡ length dealt.shares.items) }
    ensures asked { IfOk result (
        RoundsAsk S.asked start.old start.new (length dealt.shares.items)) }
    ensures refused { S.refused start.new → S.refused start.old ⊎ (result ≡ Err NoThread) }
{
    let Dealt {
        shares,
        owners,
        skeleton,
    } = dealt;
    let (shares, count) = run_rounds(
        rt,
        alloc,
        shares,
        &owners,
        config.chunk,
        config.idle,
        gate,
        start,
    )?;
    let (graph, boxes) = gather_graph(alloc, shares, skeleton, origin.nodes, &origin.share)?;
    let shared = SharedEnds::new(origin.share, boxes, origin.capacity);
    let gathered = Gathered {
        graph,
        all_ends: AllEnds::Shared(shared),
    };
    Ok(Rested {
        parts: Parts::Together(gathered),
        rounds: count,
        epochs: 0,
    })
}
