// A source and a sink, each in a share of its own.
ghost use Rattle.std.specs.Prelude.{◌≡◌, false, IfOk};
ghost use Rattle.std.specs.List.{All};

use flow_edges::lanes::Rings;
use flow_nodes::StreamNode;
use flow_samples::graph_of;
use flow_shares::Share;
use flow_shares::meetings::{Dealt, deal};
use std::alloc::Global;
use std::test::Fail;

/// The second node of a sketch in share 0, and the first in share 1. Each edge holds one message.
pub fn second_and_first(alloc: Global, sketch: &str) -> Result<Vec<Share<StreamNode, Rings>>, Fail>
    ensures { IfOk result (λ shares. All (λ share. share.starved ≡ false) shares.items) }
{
    let graph = graph_of(alloc, sketch)?;
    let dealt: Dealt<StreamNode, Rings> = deal(alloc, graph, 2, &[1u8, 0], 1)?;
    Ok(dealt.shares)
}
