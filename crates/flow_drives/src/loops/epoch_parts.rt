// Shares without their ends, while these meet.
ghost use Rattle.std.specs.Prelude.{◌≡◌, IfOk};
ghost use Rattle.flow_shares.specs.meetings.Deals.{ends_in};
ghost use Rattle.flow_drives.specs.loops.Lent.{share_bodies, lent_shares, lent_bodies, AreOwnRings, KeepRings};

use flow_base::Transducer;
use flow_edges::lanes::Rings;
use flow_shares::{Lender, Share};
use std::alloc::{AllocError, Global};

/// Takes shares apart, in order.
pub(crate) fn take_apart<T: Transducer + Drop>(
    alloc: Global,
    shares: Vec<Share<T, Rings>>,
) -> Result<(Vec<Lender<T, Rings>>, Vec<Rings>), AllocError>
    ensures lenders { IfOk result (λ made. lent_shares made.0.items ≡ shares.items) }
    ensures ends { IfOk result (λ made. made.1.items ≡ ends_in shares.items) }
{
    let mut lenders = Vec::with_capacity(alloc, shares.len())?;
    let mut ends = Vec::with_capacity(alloc, shares.len())?;
    for share in shares {
        let (lender, lent) = share.lend();
        lenders.push_reserved(lender);
        ends.push_reserved(lent);
    }
    Ok((lenders, ends))
}

/// Puts shares together, in order, each with its own ends, which may be certain of more.
pub(crate) fn put_together<T: Transducer + Drop>(
    alloc: Global,
    lenders: Vec<Lender<T, Rings>>,
    ends: Vec<Rings>,
) -> Result<Vec<Share<T, Rings>>, AllocError>
    requires same { AreOwnRings lenders.items ends.items }
    requires kept { KeepRings lenders.items ends.items }
    ensures bodies { IfOk result (λ shares. share_bodies shares.items ≡ lent_bodies lenders.items) }
    ensures ends { IfOk result (λ shares. ends_in shares.items ≡ ends.items) }
{
    let mut shares = Vec::with_capacity(alloc, lenders.len())?;
    let mut ends = ends.into_iter();
    for lender in lenders {
        match ends.next() {
            Some(own) => shares.push_reserved(lender.take_back(own)),
            None => unreachable!(),
        }
    }
    Ok(shares)
}
