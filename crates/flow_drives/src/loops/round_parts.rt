// Shares without their boxes, while these meet.
ghost use Rattle.std.specs.Prelude.{◌≡◌, false, map, IfOk};
ghost use Rattle.std.specs.List.{All};
ghost use Rattle.flow_drives.specs.loops.Lent.{part_numbers, part_nodes, KeepBoxes};
ghost use Rattle.flow_shares.specs.meetings.SharedNetworks.{numbers_of};
ghost use Rattle.flow_shares.specs.meetings.Deals.{nodes_in};

use crate::loops::part::Part;
use flow_base::Transducer;
use flow_boxes::Boxes;
use flow_shares::Share;
use std::alloc::{AllocError, Global};
use std::snapshot::Snapshot;

/// Takes shares apart, in order.
pub(crate) fn take_apart<T: Transducer + Drop>(
    alloc: Global,
    shares: Vec<Share<T, Boxes>>,
) -> Result<(Vec<Part<T>>, Vec<Boxes>), AllocError>
    requires fed { All (λ share. share.starved ≡ false) shares.items }
    ensures parts { IfOk result (λ made. map (λ part. part.share.value) made.0.items ≡
        shares.items) }
    ensures boxes { IfOk result (λ made. made.1.items ≡ map (λ share. share.ends) shares.items) }
{
    let mut parts = Vec::with_capacity(alloc, shares.len())?;
    let mut boxes = Vec::with_capacity(alloc, shares.len())?;
    for share in shares {
        let number = share.number();
        let given = Snapshot::of(&share);
        let (nodes, ends) = share.into_parts();
        parts.push_reserved(Part {
            number,
            nodes,
            share: given,
        });
        boxes.push_reserved(ends);
    }
    Ok((parts, boxes))
}

/// Puts shares together, in order, each with boxes that are just as its own were, or are certain of more.
pub(crate) fn put_together<T: Transducer + Drop>(
    alloc: Global,
    parts: Vec<Part<T>>,
    boxes: Vec<Boxes>,
) -> Result<Vec<Share<T, Boxes>>, AllocError>
    requires kept { KeepBoxes parts.items boxes.items }
    ensures numbers { IfOk result (λ shares. numbers_of shares.items ≡ part_numbers parts.items) }
    ensures nodes { IfOk result (λ shares. nodes_in shares.items ≡ part_nodes parts.items) }
    ensures boxes { IfOk result (λ shares. map (λ share. share.ends) shares.items ≡ boxes.items) }
    ensures fed { IfOk result (λ shares. All (λ share. share.starved ≡ false) shares.items) }
{
    let mut shares = Vec::with_capacity(alloc, parts.len())?;
    let mut boxes = boxes.into_iter();
    for part in parts {
        match boxes.next() {
            Some(ends) => shares.push_reserved(Share::new(part.number, part.nodes, ends)),
            None => unreachable!(),
        }
    }
    Ok(shares)
}
