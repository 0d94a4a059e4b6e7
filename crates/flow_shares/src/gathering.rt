// Gathering nodes again.
ghost use Rattle.std.specs.Prelude.{◌≡◌, ◌<◌, length, IfOk};
ghost use Rattle.flow_shares.specs.Deals.{lists_in, AreSomeDealt, AreJustDealt, AreSameAsDealt, AreJustAsDealt};

use crate::entry::share_of;
use flow_base::Transducer;
use flow_networks::Placed;
use std::alloc::{AllocError, Global};

/// Gathers so many nodes that were dealt out by `share`, in the order of their numbers.
///
/// Its only error is that memory was refused.
pub fn gather<T: Transducer + Drop>(
    alloc: Global,
    mut dealt: Vec<Vec<Placed<T>>>,
    count: usize,
    share: &[u8],
) -> Result<Vec<Placed<T>>, AllocError>
    requires some { 0 < length share.now }
    requires dealt { AreSomeDealt share.now count (lists_in dealt.items) }
    ensures count { IfOk result (λ made. length made.items ≡ count) }
    ensures nodes { IfOk result (λ made. AreJustDealt share.now made.items (lists_in dealt.items)) }
    ensures places { IfOk result (λ made. AreSameAsDealt share.now
        (lists_in dealt.items) made.items) }
    ensures same { IfOk result (λ made. AreJustAsDealt share.now
        (lists_in dealt.items) made.items) }
{
    let mut nodes = Vec::with_capacity(alloc, count)?;
    // The last of the nodes that are left ends its share.
    for k in (0..count).rev() {
        let s = share_of(share, k);
        let node = dealt[s].pop().unwrap();
        nodes.push(node)?;
    }
    nodes.reverse();
    Ok(nodes)
}
