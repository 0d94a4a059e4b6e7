// Lists of shares, by which a graph without nodes is dealt out and gathered again.
ghost use Rattle.std.specs.Prelude.{◌≡◌, ◌<◌, ◌≤◌, length};
ghost use Rattle.std.specs.List.{All};
ghost use Rattle.flow_messages.specs.Limits.{greatest_capacity};
ghost use Rattle.flow_networks.specs.Graphs.{states_of};
ghost use Rattle.flow_networks.specs.Networks.{AreOpened};
ghost use Rattle.flow_shares.specs.meetings.SharedNetworks.{SharedNetwork, shared_network};

use flow_base::Transducer;
use flow_boxes::Boxes;
use flow_edges::lanes::Rings;
use flow_networks::{Graph, GraphBuilder};
use flow_scalar::Source;
use flow_shares::meetings::{Dealt, Opening, are_calm, are_fed, deal, gather_graph};
use flow_shares::share_of;
use std::alloc::{AllocError, Global};
use std::test::Fail;

// Deals a graph out, and gathers it again, with the ends of its shares.
fn deal_and_gather<T: Transducer + Drop, E: Opening + Drop>(
    alloc: Global,
    graph: Graph<T>,
    threads: usize,
    share: &[u8],
    capacity: usize,
) -> Result<(Graph<T>, Vec<E>), AllocError>
    ghost network: { SharedNetwork ⟦<T as Transducer>⟧ }
    requires network { network ≡ shared_network graph share.now capacity }
    requires opened { AreOpened T.behaviour (states_of graph) }
    requires named { 0 < length share.now }
    requires shares { All (λ s. s < threads) share.now }
    requires some { 0 < capacity }
    requires limit { capacity ≤ greatest_capacity }
{
    let nodes = graph.nodes();
    let dealt: Dealt<T, E> = deal(alloc, graph, threads, share, capacity)?;
    let Dealt {
        shares,
        owners: _,
        skeleton,
    } = dealt;
    gather_graph(alloc, shares, skeleton, nodes, share)
}

// Whether the graph without nodes is dealt to each of three shares, none of which is pumped yet.
fn is_dealt(alloc: Global) -> Result<bool, AllocError> {
    let builder: GraphBuilder<Source> = GraphBuilder::new(alloc);
    let dealt: Dealt<Source, Boxes> = deal(alloc, builder.build(), 3, &[0u8, 2], 4)?;
    Ok(are_bare(&dealt))
}

// Whether these are three shares of a graph without nodes, none of which is pumped yet.
fn are_bare<T: Transducer, E: Opening>(dealt: &Dealt<T, E>) -> bool {
    dealt.shares.len() == 3
        && dealt.shares[2].number() == 2
        && dealt.owners.is_empty()
        && dealt.skeleton.edges().is_empty()
        && are_fed(&dealt.shares)
        && are_calm(&dealt.shares)
}

// How many nodes the graph without nodes has, dealt to three shares and gathered again, and how many shares have ends.
fn gathered_again(alloc: Global) -> Result<(usize, usize), AllocError> {
    let builder: GraphBuilder<Source> = GraphBuilder::new(alloc);
    let (graph, ends): (Graph<Source>, Vec<Rings>) = deal_and_gather(
        alloc,
        builder.build(),
        3,
        &[0u8, 2],
        4,
    )?;
    Ok((graph.nodes(), ends.len()))
}

// The shares of five nodes, by a list of three.
fn shares_of_five() -> [usize; 5] {
    let share = [1u8, 0, 2];
    [
        share_of(&share, 0),
        share_of(&share, 1),
        share_of(&share, 2),
        share_of(&share, 3),
        share_of(&share, 7),
    ]
}

#[test]
fn dealing_and_gathering(rt: HostRuntime) -> Result<(), Fail> {
    let told = (
        is_dealt(rt.alloc())?,
        gathered_again(rt.alloc())?,
        shares_of_five(),
    );
    assert_eq!(rt; told, (true, (0, 3), [1, 0, 2, 1, 0]));
    Ok(())
}
