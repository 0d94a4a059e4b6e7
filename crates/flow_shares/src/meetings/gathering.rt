// Shares gathered into a graph again.
ghost use Rattle.std.specs.Prelude.{◌≡◌, ◌<◌, length, IfOk};
ghost use Rattle.flow_shares.specs.Deals.{lists_in, AreDealt};
ghost use Rattle.flow_networks.specs.Skeletons.{edges_in};
ghost use Rattle.flow_shares.specs.meetings.Deals.{nodes_in, ends_in};
ghost use Rattle.flow_shares.specs.meetings.SharedNetworks.{SharedNetwork, IsGraphOf, HasStatesOf};

use crate::{Share, gather};
use flow_base::Transducer;
use flow_messages::Ends;
use flow_networks::{Graph, Placed, Skeleton};
use std::alloc::{AllocError, Global};

/// Gathers the nodes of shares, `count` in all, into a graph again, and gives the ends of each share, in order.
///
/// Each node of the graph has the state in which its share left it. The only error is that memory was refused; then the
/// nodes and the ends are let go.
pub fn gather_graph<T: Transducer + Drop, E: Ends + Drop>(
    alloc: Global,
    shares: Vec<Share<T, E>>,
    skeleton: Skeleton,
    count: usize,
    share: &[u8],
) -> Result<(Graph<T>, Vec<E>), AllocError>
    ghost network: { SharedNetwork ⟦<T as Transducer>⟧ }
    requires some { 0 < length share.now }
    requires count { count ≡ length network.nodes }
    requires share { share.now ≡ network.share }
    requires edges { edges_in skeleton ≡ network.edges }
    requires deals { AreDealt network.share network.nodes (nodes_in shares.items) }
    ensures ends { IfOk result (λ made. made.1.items ≡ ends_in shares.items) }
    ensures network { IfOk result (λ made. IsGraphOf network made.0) }
    ensures states { IfOk result (λ made. HasStatesOf network (nodes_in shares.items) made.0) }
{
    let (lists, ends) = split(alloc, shares)?;
    let nodes = gather(alloc, lists, count, share)?;
    Ok((skeleton.put_together(nodes), ends))
}

// The nodes of each share, and its ends, in order.
fn split<T: Transducer + Drop, E: Ends + Drop>(
    alloc: Global,
    shares: Vec<Share<T, E>>,
) -> Result<(Vec<Vec<Placed<T>>>, Vec<E>), AllocError>
    ensures nodes { IfOk result (λ made. lists_in made.0.items ≡ nodes_in shares.items) }
    ensures ends { IfOk result (λ made. made.1.items ≡ ends_in shares.items) }
{
    let mut lists = Vec::with_capacity(alloc, shares.len())?;
    let mut ends = Vec::with_capacity(alloc, shares.len())?;
    for share in shares {
        let (nodes, own) = share.into_parts();
        lists.push_reserved(nodes);
        ends.push_reserved(own);
    }
    Ok((lists, ends))
}
