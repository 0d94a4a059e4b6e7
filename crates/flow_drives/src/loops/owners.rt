// The owners of shares, as their ends tell them.
ghost use Rattle.std.specs.Prelude.{IfOk, IfSome, IfNone};
ghost use Rattle.flow_shares.specs.meetings.Open.{AreOwners};
ghost use Rattle.flow_shares.specs.meetings.SharedNetworks.{SharedNetwork};
ghost use Rattle.flow_drives.specs.loops.Epochs.{AreOfOneGraph};
ghost use Rattle.flow_drives.specs.loops.Owners.{HasWriter, HasReader, HasBoth, NoneWrites, NoneReads, LacksAnEnd};

use flow_base::Transducer;
use flow_edges::lanes::Rings;
use flow_messages::Ends;
use flow_shares::Share;
use flow_shares::meetings::EdgeOwners;
use std::alloc::{AllocError, Global};

/// Of each edge of the graph of these shares, by its number, which share has its writer's end and which its reader's.
///
/// Its only error is that memory was refused.
pub fn owners_of_shares<T: Transducer>(
    alloc: Global,
    shares: &[Share<T, Rings>],
) -> Result<Vec<EdgeOwners>, AllocError>
    ghost network: { SharedNetwork ⟦<T as Transducer>⟧ }
    requires { AreOfOneGraph network shares.now }
    ensures { IfOk result (λ owners. AreOwners network.share network.edges owners.items) }
{
    let mut owners = Vec::new(alloc);
    while let Some(owner) = owners_at(shares, owners.len()) {
        owners.push(owner)?;
    }
    Ok(owners)
}

// The shares that have the two ends of this edge. There is none after the last edge.
fn owners_at<T: Transducer>(shares: &[Share<T, Rings>], edge: usize) -> Option<EdgeOwners>
    ensures both { IfSome result (HasBoth shares.now edge) }
    ensures none { IfNone result (LacksAnEnd shares.now edge) }
{
    let writer = writer_of(shares, edge)?;
    let reader = reader_of(shares, edge)?;
    Some(EdgeOwners { writer, reader })
}

// The first share that has the writer's end of this edge.
fn writer_of<T: Transducer>(shares: &[Share<T, Rings>], edge: usize) -> Option<usize>
    ensures here { IfSome result (HasWriter shares.now edge) }
    ensures none { IfNone result (NoneWrites shares.now edge) }
{
    for (number, share) in shares.iter().enumerate() {
        if share.ends().has_writer(edge) {
            return Some(number);
        }
    }
    None
}

// The first share that has the reader's end of this edge.
fn reader_of<T: Transducer>(shares: &[Share<T, Rings>], edge: usize) -> Option<usize>
    ensures here { IfSome result (HasReader shares.now edge) }
    ensures none { IfNone result (NoneReads shares.now edge) }
{
    for (number, share) in shares.iter().enumerate() {
        if share.ends().has_reader(edge) {
            return Some(number);
        }
    }
    None
}
