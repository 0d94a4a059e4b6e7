// Dealings from which a search begins.
ghost use Rattle.std.specs.Prelude.{◌≡◌, ◌<◌, ◌≤◌, IfOk, length};
ghost use Rattle.flow_dealing.specs.cut.Loads.{IsDealing, by_turns};

use std::alloc::{AllocError, Global};

/// The dealing by turns: node `k` has share `k` modulo how many there are.
pub fn by_turns(alloc: Global, nodes: usize, threads: usize) -> Result<Vec<u8>, AllocError>
    requires some { 0 < threads }
    requires limit { threads ≤ 256 }
    ensures is { IfOk result (λ share. share.items ≡ by_turns threads nodes) }
    ensures dealing { IfOk result (λ share. IsDealing nodes threads share.items) }
{
    let mut share = Vec::with_capacity(alloc, nodes)?;
    for node in 0..nodes {
        share.push((node % threads) as u8)?;
    }
    Ok(share)
}

/// The dealing in runs: the nodes in order, cut where each share has its part of the work.
pub fn in_runs(alloc: Global, work: &[u64], threads: usize) -> Result<Vec<u8>, AllocError>
    requires some { 0 < threads }
    requires limit { threads ≤ 256 }
    ensures { IfOk result (λ share. IsDealing (length work.now) threads share.items) }
{
    let mut all: u64 = 0;
    for &own in work {
        all = all.saturating_add(own);
    }
    let part = (all / threads as u64).max(1);
    let mut share = Vec::with_capacity(alloc, work.len())?;
    let mut before: u64 = 0;
    for &own in work {
        share.push((before / part).min(threads as u64 - 1) as u8)?;
        before = before.saturating_add(own);
    }
    Ok(share)
}
