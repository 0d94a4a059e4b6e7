// Shares without nodes that are run in threads, and in epochs.
ghost use Rattle.std.specs.Prelude.{◌≡◌, false, length, IfOk};
ghost use Rattle.std.specs.List.{All};
ghost use Rattle.flow_edges.specs.lanes.Rings.{ends_of};
ghost use Rattle.flow_part_tests.specs.NoEnds.{HasNoEnds};

use crate::shares::{numbers_of, two_bare};
use flow_base::Transducer;
use flow_drives::loops::run_epochs;
use flow_edges::lanes::Rings;
use flow_shares::{AlwaysStart, Gate, NoGate, Share, WorkError, run_all};
use std::alloc::Global;
use std::sync::Arc;
use std::test::Fail;
use std::thread::Threads;

// Shares of the graph without nodes, run in epochs.
fn run_bare<
    R: Threads,
    T: Transducer + Send + Drop + 'static,
    G: Gate + Send + Sync + Drop + 'static,
>(
    rt: &R,
    alloc: Global,
    shares: Vec<Share<T, Rings>>,
    gate: &Arc<G, Global>,
) -> Result<(Vec<Share<T, Rings>>, u64), WorkError>
    requires none { All (λ share. length share.nodes.items ≡ 0) shares.items }
    requires fed { All (λ share. share.starved ≡ false) shares.items }
    requires ends { All (λ share. HasNoEnds (ends_of share.ends)) shares.items }
    ensures { IfOk result (λ made. length made.0.items ≡ length shares.items) }
{
    run_epochs(rt, alloc, shares, &[], 1, 1, gate, &mut AlwaysStart::new())
}

// The numbers of two shares that are pumped once, in threads.
fn run_once<
    R: Threads,
    T: Transducer + Send + Drop + 'static,
    G: Gate + Send + Sync + Drop + 'static,
>(
    rt: &R,
    alloc: Global,
    shares: Vec<Share<T, Rings>>,
    gate: &Arc<G, Global>,
) -> Result<Option<(usize, usize)>, WorkError>
    requires { All (λ share. share.starved ≡ false) shares.items }
{
    let back = run_all(rt, alloc, shares, 1, 1, gate, &mut AlwaysStart::new())?;
    Ok(numbers_of(&back))
}

#[test]
fn shares_without_nodes_come_back_in_order(rt: HostRuntime) -> Result<(), Fail> {
    let alloc = rt.alloc();
    let gate = Arc::new(alloc, NoGate)?;
    let pumped = run_once(&rt, alloc, two_bare(alloc)?, &gate)?;
    // They rest without an epoch.
    let (back, count) = run_bare(&rt, alloc, two_bare(alloc)?, &gate)?;
    assert_eq!(rt;
        (pumped, numbers_of(&back), count),
        (Some((7, 3)), Some((7, 3)), 0)
    );
    Ok(())
}
