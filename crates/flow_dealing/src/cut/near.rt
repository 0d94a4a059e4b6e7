// The neighbours of nodes.
ghost use Rattle.std.specs.Prelude.{IfOk};
ghost use Rattle.flow_dealing.specs.cut.Loads.{AreBetween};
ghost use Rattle.flow_dealing.specs.cut.Near.{AreNear};

use crate::cut::link::Link;
use std::alloc::{AllocError, Global};

/// The node at the other end of a link, and what the link costs.
#[derive(Clone, Copy, Debug, PartialEq, Eq)]
pub struct Near {
    pub node: usize,
    pub cost: u64,
}

/// The neighbours of each node.
pub fn neighbours(alloc: Global, nodes: usize, links: &[Link]) -> Result<Vec<Vec<Near>>, AllocError>
    requires { AreBetween nodes links.now }
    ensures { IfOk result (λ near. AreNear nodes near.items) }
{
    let mut near = no_neighbours(alloc, nodes)?;
    for &Link {
        writer,
        reader,
        cost,
    } in links {
        if writer != reader {
            near[writer].push(Near { node: reader, cost })?;
            near[reader].push(Near { node: writer, cost })?;
        }
    }
    Ok(near)
}

// An empty list for each node.
fn no_neighbours(alloc: Global, nodes: usize) -> Result<Vec<Vec<Near>>, AllocError>
    ensures { IfOk result (λ near. AreNear nodes near.items) }
{
    let mut near = Vec::with_capacity(alloc, nodes)?;
    for _ in 0..nodes {
        near.push(Vec::new(alloc))?;
    }
    Ok(near)
}
