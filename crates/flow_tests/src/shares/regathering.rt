// Dealing out and gathering again. It stands outside of what is compiled for tests alone, so that its contract and its edit are
// checked.

ghost use Rattle.std.specs.Prelude.{◌≡◌, ◌<◌, length, IfOk};
ghost use Rattle.std.specs.List.{All};
ghost use Rattle.flow_networks.specs.Graphs.{states_of, edges_of};

use flow_base::Transducer;
use flow_networks::{Graph, Placed};
use flow_shares::{deal_nodes, gather};
use std::alloc::{AllocError, Global};

// How many nodes each of three shares has.
fn counts_in<T: Transducer>(dealt: &[Vec<Placed<T>>]) -> [usize; 3] {
    match dealt {
        [first, second, third] => [first.len(), second.len(), third.len()],
        _ => [0; 3],
    }
}

/// The graph, whose nodes were dealt out to three shares and gathered again, and how many each share had. Its only error is that
/// memory was refused.
pub fn dealt_and_gathered<T: Transducer + Drop>(
    alloc: Global,
    graph: Graph<T>,
    share: &[u8],
) -> Result<(Graph<T>, [usize; 3]), AllocError>
    requires named { 0 < length share.now }
    requires shares { All (λ s. s < 3) share.now }
    ensures states { IfOk result (λ made. states_of made.0 ≡ states_of graph) }
    ensures edges { IfOk result (λ made. edges_of made.0 ≡ edges_of graph) }
{
    let (nodes, skeleton) = graph.take_apart();
    let count = nodes.len();
    let dealt = deal_nodes(alloc, nodes, 3, share)?;
    let counts = counts_in(&dealt);
    let nodes = gather(alloc, dealt, count, share)?;
    Ok((skeleton.put_together(nodes), counts))
}
