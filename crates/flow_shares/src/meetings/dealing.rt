// Graphs are dealt out.
ghost use Rattle.std.specs.Prelude.{◌≡◌, ◌<◌, ◌≤◌, length, map, IfOk};
ghost use Rattle.std.specs.List.{All, AllZip};
ghost use Rattle.flow_messages.specs.Limits.{greatest_capacity};
ghost use Rattle.flow_networks.specs.Graphs.{states_of};
ghost use Rattle.flow_networks.specs.Networks.{AreOpened};
ghost use Rattle.flow_shares.specs.Deals.{lists_in};
ghost use Rattle.flow_shares.specs.meetings.Deals.{MakeAShare, nodes_in, ends_in, AreNew, IsDealt};

use crate::meetings::dealt::Dealt;
use crate::meetings::opening::Opening;
use crate::meetings::opening_everywhere::open_all;
use crate::meetings::owners::owners_of;
use crate::{Share, deal_nodes};
use flow_base::Transducer;
use flow_messages::Ends;
use flow_networks::{Graph, Placed, kinds_of};
use std::alloc::{AllocError, Global};

/// Deals a graph out to so many shares: node `k` goes to the share that `share` names for it, with the ends of the edges
/// at its ports. All edges are fresh, take the items of their writers' ports, and hold at most `capacity` messages.
///
/// Its only error is that memory was refused.
pub fn deal<T: Transducer + Drop, E: Opening + Drop>(
    alloc: Global,
    graph: Graph<T>,
    threads: usize,
    share: &[u8],
    capacity: usize,
) -> Result<Dealt<T, E>, AllocError>
    requires opened { AreOpened T.behaviour (states_of graph) }
    requires named { 0 < length share.now }
    requires shares { All (λ s. s < threads) share.now }
    requires some { 0 < capacity }
    requires limit { capacity ≤ greatest_capacity }
    ensures { IfOk result (λ dealt.
        IsDealt E.joins E.slots graph threads share.now capacity dealt) }
{
    let kinds = kinds_of(alloc, &graph)?;
    let (nodes, skeleton) = graph.take_apart();
    let owners = owners_of(alloc, skeleton.edges(), share)?;
    let ends = open_all(alloc, threads, &owners, &kinds, capacity)?;
    let nodes = deal_nodes(alloc, nodes, threads, share)?;
    let shares = make_shares(alloc, nodes, ends)?;
    Ok(Dealt {
        shares,
        owners,
        skeleton,
    })
}

// Shares of these nodes and these ends, by their numbers.
fn make_shares<T: Transducer + Drop, E: Ends + Drop>(
    alloc: Global,
    nodes: Vec<Vec<Placed<T>>>,
    ends: Vec<E>,
) -> Result<Vec<Share<T, E>>, AllocError>
    requires { AllZip (λ nodes ends. MakeAShare (E.view ends) nodes.items) nodes.items ends.items }
    ensures nodes { IfOk result (λ shares. nodes_in shares.items ≡ lists_in nodes.items) }
    ensures ends { IfOk result (λ shares. ends_in shares.items ≡ ends.items) }
    ensures new { IfOk result (λ shares. AreNew shares.items) }
{
    let mut shares = Vec::with_capacity(alloc, nodes.len())?;
    let mut ends = ends.into_iter();
    for nodes in nodes {
        match ends.next() {
            Some(ends) => {
                let number = shares.len();
                shares.push(Share::new(number, nodes, ends))?;
            }
            None => unreachable!(),
        }
    }
    Ok(shares)
}
