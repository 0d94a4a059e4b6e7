// The owners of a graph.
ghost use Rattle.std.specs.Prelude.{◌<◌, length, IfOk};
ghost use Rattle.flow_shares.specs.meetings.Open.{AreOwners};

use crate::share_of;
use flow_networks::Edge;
use std::alloc::{AllocError, Global};

/// Of an edge, which share has its writer and which its reader.
#[derive(Debug, Clone, Copy, PartialEq, Eq)]
pub struct EdgeOwners {
    pub writer: usize,
    pub reader: usize,
}

/// The owners of these edges, where `share` names the shares of their nodes.
///
/// Its only error is that memory was refused.
pub fn owners_of(alloc: Global, edges: &[Edge], share: &[u8]) -> Result<Vec<EdgeOwners>, AllocError>
    requires { 0 < length share.now }
    ensures { IfOk result (λ owners. AreOwners share.now edges.now owners.items) }
{
    let mut owners = Vec::with_capacity(alloc, edges.len())?;
    for &edge in edges {
        owners.push(EdgeOwners {
            writer: share_of(share, edge.writer),
            reader: share_of(share, edge.reader),
        })?;
    }
    Ok(owners)
}
