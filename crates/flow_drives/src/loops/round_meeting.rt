// Between two rounds.
ghost use Rattle.std.specs.Prelude.{◌≡◌, IfOk};
ghost use Rattle.flow_shares.specs.meetings.Open.{AreOwners};
ghost use Rattle.flow_shares.specs.meetings.SharedNetworks.{SharedNetwork, AreFed};
ghost use Rattle.flow_drives.specs.loops.Standing.{AreLinked, boxes_of, HaveMetSince};

use crate::loops::round_parts::{put_together, take_apart};
use flow_base::Transducer;
use flow_boxes::Boxes;
use flow_shares::Share;
use flow_shares::meetings::{EdgeOwners, meet_all};
use std::alloc::{AllocError, Global};

/// The ends of all edges meet. Its only error is that memory was refused; then the shares are let go.
pub(crate) fn meet<T: Transducer + Drop>(
    alloc: Global,
    shares: Vec<Share<T, Boxes>>,
    owners: &[EdgeOwners],
) -> Result<Vec<Share<T, Boxes>>, AllocError>
    ghost network: { SharedNetwork ⟦<T as Transducer>⟧ }
    requires owners { AreOwners network.share network.edges owners.now }
    requires linked { AreLinked network.share network.edges
        (boxes_of shares.items) network.capacity }
    requires fed { AreFed shares.items }
    ensures { IfOk result (λ met. HaveMetSince network shares.items met.items) }
{
    let (parts, mut boxes) = take_apart(alloc, shares)?;
    meet_all(&mut boxes, owners);
    put_together(alloc, parts, boxes)
}
