// How long rounds take in which nothing is to do.

ghost use Rattle.std.specs.Prelude.{◌≡◌, false, IfOk};
ghost use Rattle.std.specs.List.{All};

use anyhow::Result;
use flow_boxes::Boxes;
use flow_drives::NoGate;
use flow_scalar::Iota;
use flow_shares::{AlwaysStart, Share, run_all};
use std::alloc::{AllocError, Global};
use std::rt::Clock;
use std::sync::Arc;
use std::thread::Threads;
use std::time::{Duration, Instant};

/// How long so many rounds take of so many shares without nodes.
pub fn idle_rounds<R: Clock + AllocGlobal + Threads>(
    rt: &R,
    threads: usize,
    rounds: u64,
) -> Result<Duration> {
    let alloc = rt.alloc();
    let gate = Arc::new(alloc, NoGate)?;
    let start = Instant::now(rt)?;
    for _ in 0..rounds {
        let shares = bare_shares(alloc, threads)?;
        run_all(rt, alloc, shares, 1, 1, &gate, &mut AlwaysStart::new())?;
    }
    Ok(start.elapsed(rt)?)
}

// So many shares without nodes.
fn bare_shares(alloc: Global, count: usize) -> Result<Vec<Share<Iota, Boxes>>, AllocError>
    ensures { IfOk result (λ shares. All (λ share. share.starved ≡ false) shares.items) }
{
    let mut shares = Vec::new(alloc);
    for number in 0..count {
        let none = Boxes::new(alloc, &[], 1)?;
        shares.push(Share::new(number, Vec::new(alloc), none))?;
    }
    Ok(shares)
}
