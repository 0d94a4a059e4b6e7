// Dealing by a cut.
ghost use Rattle.std.specs.Prelude.{◌<◌, ◌≤◌, IfOk, length};
ghost use Rattle.flow_dealing.specs.cut.Loads.{AreBetween, IsDealing, LoadsNoMore, LoadsNoMoreThanTurns};
ghost use Rattle.flow_dealing.specs.cut.Near.{CanSearch};

use crate::cut::link::Link;
use crate::cut::loads::{greatest_load, load};
use crate::cut::near::{Near, neighbours};
use crate::cut::search::improve;
use crate::cut::starts::{by_turns, in_runs};
use std::alloc::{AllocError, Global};

/// Deals nodes to so many threads: the share of each. The greatest load is at most that of the dealing by turns, where node
/// `k` has share `k` modulo how many there are; a search makes it less where it can.
///
/// Its only error is that memory was refused.
pub fn deal_by_cut(
    alloc: Global,
    work: &[u64],
    links: &[Link],
    threads: usize,
) -> Result<Vec<u8>, AllocError>
    requires links { AreBetween (length work.now) links.now }
    requires some { 0 < threads }
    requires limit { threads ≤ 256 }
    ensures dealing { IfOk result (λ share. IsDealing (length work.now) threads share.items) }
    ensures load { IfOk result (λ share.
        LoadsNoMoreThanTurns work.now links.now threads share.items) }
{
    let near = neighbours(alloc, work.len(), links)?;
    let turns = by_turns(alloc, work.len(), threads)?;
    let from_turns = by_turns(alloc, work.len(), threads)?;
    let from_turns = improved(alloc, work, links, &near, threads, from_turns)?;
    let from_runs = in_runs(alloc, work, threads)?;
    let from_runs = improved(alloc, work, links, &near, threads, from_runs)?;
    let found = lighter(work, links, threads, turns, from_turns);
    Ok(lighter(work, links, threads, found, from_runs))
}

// The dealing to which a search from another one leads.
fn improved(
    alloc: Global,
    work: &[u64],
    links: &[Link],
    near: &[Vec<Near>],
    threads: usize,
    share: Vec<u8>,
) -> Result<Vec<u8>, AllocError>
    requires links { AreBetween (length work.now) links.now }
    requires search { CanSearch (length work.now) threads near.now share.items }
    ensures { IfOk result (λ share. IsDealing (length work.now) threads share.items) }
{
    let mut share = share;
    let mut loads = Vec::with_capacity(alloc, threads)?;
    for s in 0..threads {
        loads.push(load(work, links, &share, s))?;
    }
    improve(work, links, near, &mut share, &mut loads);
    Ok(share)
}

// The second dealing where its greatest load is less, and else the first. Both are weighed anew, so nothing rests on the search.
fn lighter(work: &[u64], links: &[Link], threads: usize, first: Vec<u8>, second: Vec<u8>) -> Vec<u8>
    requires links { AreBetween (length work.now) links.now }
    requires first { IsDealing (length work.now) threads first.items }
    requires second { IsDealing (length work.now) threads second.items }
    ensures dealing { IsDealing (length work.now) threads result.items }
    ensures load { LoadsNoMore work.now links.now threads result.items first.items }
{
    let most = greatest_load(work, links, &first, threads);
    if greatest_load(work, links, &second, threads) < most {
        second
    } else {
        first
    }
}
