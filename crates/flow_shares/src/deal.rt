// Dealing nodes out.
ghost use Rattle.std.specs.Prelude.{◌≡◌, ◌<◌, [], length, replicate, IfOk};
ghost use Rattle.std.specs.List.{All};
ghost use Rattle.flow_shares.specs.Deals.{lists_in, AreNumbered, AreJustDealt};

use crate::entry::share_of;
use flow_base::Transducer;
use flow_networks::Placed;
use std::alloc::{AllocError, Global};

/// Deals nodes out to so many shares: node `k` goes to the share that `share` names for it, after the nodes of smaller
/// numbers.
///
/// Its only error is that memory was refused.
pub fn deal_nodes<T: Transducer + Drop>(
    alloc: Global,
    nodes: Vec<Placed<T>>,
    threads: usize,
    share: &[u8],
) -> Result<Vec<Vec<Placed<T>>>, AllocError>
    requires numbered { AreNumbered nodes.items }
    requires some { 0 < length share.now }
    requires shares { All (λ s. s < threads) share.now }
    ensures count { IfOk result (λ dealt. length dealt.items ≡ threads) }
    ensures dealt { IfOk result (λ dealt. AreJustDealt share.now nodes.items
        (lists_in dealt.items)) }
{
    let mut dealt = empty_lists(alloc, threads)?;
    for node in nodes {
        let s = share_of(share, node.number());
        dealt[s].push(node)?;
    }
    Ok(dealt)
}

/// So many empty lists.
fn empty_lists<T: Transducer + Drop>(
    alloc: Global,
    count: usize,
) -> Result<Vec<Vec<Placed<T>>>, AllocError>
    ensures { IfOk result (λ lists. lists_in lists.items ≡ replicate count []) }
{
    let mut lists = Vec::with_capacity(alloc, count)?;
    for _ in 0..count {
        lists.push(Vec::new(alloc))?;
    }
    Ok(lists)
}
