// Runs in threads of their own, side by side, and how many rounds and epochs there are. What several threads make of
// programs stands in the tables of `tool_runs`.

use crate::limping::{LimpingWriter, SOUND};
use crate::running::{Ran, ran_over};
use flow_drives::{Config, Drive, Gate, Outcome};
use snesl_data::Counted;
use snesl_run::run;
use snesl_trials::in_threads;
use std::alloc::{AllocError, Global};
use std::process::Abort;
use std::sync::Arc;
use std::sync::atomic::{AtomicU64, Ordering};
use std::test::Fail;
use std::thread;
use std::thread::Threads;

// Two gates look for one another: each share marks its first turn, and then looks for the mark of the other.
#[derive(Drop)]
struct SideBySide {
    first: Mark,
    second: Mark,
}

// Whether a share has come to its first turn, and whether it then saw the other there.
#[derive(Drop)]
struct Mark {
    came: AtomicU64,
    saw: AtomicU64,
}

// How often a gate looks.
const LOOKS: usize = 1_000_000;

impl SideBySide {
    fn new() -> SideBySide {
        SideBySide {
            first: Mark::new(),
            second: Mark::new(),
        }
    }
}

impl Mark {
    fn new() -> Mark {
        Mark {
            came: AtomicU64::new(0),
            saw: AtomicU64::new(0),
        }
    }

    // Marks the first turn, and looks for that of the other share. Where it never comes, all looks are in vain.
    fn look_for(&self, other: &Mark) {
        if self.came.fetch_add(1, Ordering::SeqCst) > 0 {
            return;
        }
        for _ in 0..LOOKS {
            if other.came.load(Ordering::SeqCst) > 0 {
                self.saw.store(1, Ordering::SeqCst);
                return;
            }
            thread::yield_now();
        }
    }

    fn saw(&self) -> bool {
        self.saw.load(Ordering::SeqCst) > 0
    }
}

impl Gate for SideBySide {
    fn turn(&self, share: usize, _: usize) {
        if share == 0 {
            self.first.look_for(&self.second);
        } else {
            self.second.look_for(&self.first);
        }
    }
}

// Counts the first turns of share 0, of which a round or an epoch has one. If it is to yield at all, share 1 is late: before each
// first turn of its own it looks for that of share 0, and then yields so often.
#[derive(Drop)]
struct Counting {
    count: AtomicU64,
    late: AtomicU64,
    yields: usize,
}

impl Counting {
    fn new(yields: usize) -> Counting {
        Counting {
            count: AtomicU64::new(0),
            late: AtomicU64::new(0),
            yields,
        }
    }

    // Looks for the first turn of share 0 in the same round or epoch. Where it never comes, all looks are in vain.
    fn look_for_the_other(&self) {
        let before = self.late.fetch_add(1, Ordering::SeqCst);
        for _ in 0..LOOKS {
            if self.count.load(Ordering::SeqCst) > before {
                return;
            }
            thread::yield_now();
        }
    }
}

impl Gate for Counting {
    fn turn(&self, share: usize, turn: usize) {
        if turn == 0 && share == 0 {
            self.count.fetch_add(1, Ordering::SeqCst);
        }
        if turn == 0 && share == 1 && self.yields > 0 {
            self.look_for_the_other();
            for _ in 0..self.yields {
                thread::yield_now();
            }
        }
    }
}

// Counts the first turns of shares 0 and 1, and those of all others.
#[derive(Drop)]
struct Shares {
    first: AtomicU64,
    second: AtomicU64,
    others: AtomicU64,
}

impl Shares {
    fn new() -> Shares {
        Shares {
            first: AtomicU64::new(0),
            second: AtomicU64::new(0),
            others: AtomicU64::new(0),
        }
    }

    // How often each came to a first turn.
    fn counts(&self) -> (u64, u64, u64) {
        (
            self.first.load(Ordering::SeqCst),
            self.second.load(Ordering::SeqCst),
            self.others.load(Ordering::SeqCst),
        )
    }
}

impl Gate for Shares {
    fn turn(&self, share: usize, turn: usize) {
        if turn > 0 {
            return;
        }
        let counter = match share {
            0 => &self.first,
            1 => &self.second,
            _ => &self.others,
        };
        counter.fetch_add(1, Ordering::SeqCst);
    }
}

// The drives of several threads.
const THREADED: [Drive; 2] = [Drive::Rounds, Drive::Rings];

// Runs a program without inputs, and keeps its gate.
fn ran<G: Gate + Send + Sync + Drop + 'static>(
    rt: &impl Threads,
    alloc: Global,
    program: &[u8],
    config: &Config,
    gate: &Arc<G, Global>,
) -> Result<Ran, AllocError> {
    Ok(ran_over(rt, alloc, program, config, Arc::try_clone(gate)?, SOUND))
}

// Asserts that a run ended in a value, and wrote this line.
fn assert_line(rt: &impl Abort, ran: &Ran, line: &[u8]) {
    assert_eq!(rt;
        (ran.ending, ran.written.as_slice()),
        (Ok(Outcome::Value), line)
    );
}

// Asserts that each of two threads sees the other come.
fn assert_side_by_side<R: Abort + Threads>(
    rt: &R,
    alloc: Global,
    config: &Config,
) -> Result<(), Fail> {
    let gate = Arc::new(alloc, SideBySide::new())?;
    let program = b"{reduce_add({x + y : y in iota(x)}) : x in iota(4)}";
    assert_line(
        rt,
        &ran(rt, alloc, program, config, &gate)?,
        b"{0,1,5,12}\n",
    );
    // On one thread the share that is pumped first never sees the other.
    assert!(rt; gate.first.saw() && gate.second.saw());
    Ok(())
}

#[test]
fn threads_run_side_by_side(rt: HostRuntime) -> Result<(), Fail> {
    for drive in THREADED {
        let config = in_threads(rt.alloc(), drive, 256, 2, &[0, 1])?;
        assert_side_by_side(&rt, rt.alloc(), &config)?;
    }
    Ok(())
}

// Asserts that a run took as many rounds, or else epochs, as its gate has counted; it was not refused, so it has some.
fn assert_counted(rt: &impl Abort, ran: &Ran, gate: &Counting, (least, most): (u64, u64)) {
    let counted = gate.count.load(Ordering::SeqCst);
    let turns = if ran.turns.1 == 0 {
        (counted, 0)
    } else {
        (0, counted)
    };
    let is_within = counted >= least && counted <= most;
    assert_eq!(rt; (ran.turns, is_within), (turns, true));
}

// Runs a program over a gate that counts, and asserts that there are so many rounds or epochs.
fn counted<R: Abort + Threads>(
    rt: &R,
    alloc: Global,
    program: &[u8],
    config: &Config,
    gate: Counting,
    range: (u64, u64),
) -> Result<Ran, AllocError> {
    let gate = Arc::new(alloc, gate)?;
    let ran = ran(rt, alloc, program, config, &gate)?;
    assert_counted(rt, &ran, &gate, range);
    Ok(ran)
}

// Share 0 waits for what the first node writes, which comes late in share 1: it ends its epoch with nothing moved, and has another.
#[test]
fn a_late_share_is_waited_for(rt: HostRuntime) -> Result<(), Fail> {
    let share = [1u8, 0, 0, 0, 0, 0, 0, 0, 0, 0, 0, 0, 0, 0, 0, 0];
    let config = in_threads(rt.alloc(), Drive::Rings, 256, 2, &share)?;
    let program = b"let s = iota(100) in s ++ s";
    let late = Counting::new(100_000);
    let ran = counted(&rt, rt.alloc(), program, &config, late, (2, u64::MAX))?;
    assert_eq!(rt; (ran.ending, ran.written.len()), (Ok(Outcome::Value), 582));
    Ok(())
}

// Each round or epoch moves a message at least, of nineteen that are sent and received.
#[test]
fn rounds_and_epochs_are_counted(rt: HostRuntime) -> Result<(), Fail> {
    let share = [0u8, 1, 2, 3, 4, 5, 6, 7, 8, 9, 10, 11, 12, 13, 14, 15];
    let program = b"reduce_add(iota(5))";
    for drive in THREADED {
        let config = in_threads(rt.alloc(), drive, 1, 16, &share)?;
        let ran = counted(&rt, rt.alloc(), program, &config, Counting::new(0), (1, 38))?;
        assert_line(&rt, &ran, b"10\n");
    }
    Ok(())
}

// Runs a program by `run` itself: each round or epoch has a first turn of each of the two shares, and of no other.
fn assert_dealt_to_two<R: Abort + Threads>(
    rt: &R,
    alloc: Global,
    config: &Config,
) -> Result<(), Fail> {
    let gate = Arc::new(alloc, Shares::new())?;
    let mut out = Counted::new(LimpingWriter::new(alloc, SOUND));
    let program = b"reduce_add(iota(5))";
    let called = Arc::try_clone(&gate)?;
    let ran = match run(rt, alloc, program, b"", config, called, &mut out) {
        Ok(report) => {
            let rested = report.rested();
            let turns = rested.rounds().saturating_add(rested.epochs());
            Some((report.outcome(), turns))
        }
        Err(_) => None,
    };
    let (first, second, others) = gate.counts();
    assert!(rt; first > 0);
    assert_eq!(rt;
        (ran, second, others),
        (Some((Outcome::Value, first)), first, 0)
    );
    Ok(())
}

#[test]
fn run_deals_nodes_to_the_configured_threads(rt: HostRuntime) -> Result<(), Fail> {
    for drive in THREADED {
        let config = in_threads(rt.alloc(), drive, 256, 2, &[0, 1])?;
        assert_dealt_to_two(&rt, rt.alloc(), &config)?;
    }
    Ok(())
}
