// The ends of every edge meet.
ghost use Rattle.std.specs.Prelude.{IfOk};
ghost use Rattle.flow_shares.specs.meetings.Open.{AreOwners};
ghost use Rattle.flow_shares.specs.meetings.SharedNetworks.{SharedNetwork};
ghost use Rattle.flow_drives.specs.loops.Epochs.{AreOfOneGraph, HaveMetSince};

use crate::loops::epoch_parts::{put_together, take_apart};
use flow_base::Transducer;
use flow_edges::lanes::Rings;
use flow_shares::Share;
use flow_shares::meetings::{EdgeOwners, meet_all};
use std::alloc::{AllocError, Global};

/// The ends of every edge meet. Its only error is that memory was refused; then the shares are let go.
pub(crate) fn meet<T: Transducer + Drop>(
    alloc: Global,
    shares: Vec<Share<T, Rings>>,
    owners: &[EdgeOwners],
) -> Result<Vec<Share<T, Rings>>, AllocError>
    ghost network: { SharedNetwork ⟦<T as Transducer>⟧ }
    requires owners { AreOwners network.share network.edges owners.now }
    requires graph { AreOfOneGraph network shares.items }
    ensures { IfOk result (λ met. HaveMetSince network shares.items met.items) }
{
    let (lenders, mut ends) = take_apart(alloc, shares)?;
    meet_all(&mut ends, owners);
    put_together(alloc, lenders, ends)
}
