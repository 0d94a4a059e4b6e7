// Runs of which one start of a thread is refused: each start of the first two rounds or epochs in turn.

use crate::limping::SOUND;
use crate::running::{Ran, ran_with};
use flow_drives::{Drive, Gate, History, Outcome};
use snesl_data::Refusal;
use snesl_run::Start;
use snesl_trials::in_threads;
use std::alloc::{AllocError, Global};
use std::process::Abort;
use std::sync::Arc;
use std::sync::atomic::{AtomicU64, Ordering};
use std::test::Fail;
use std::thread;
use std::thread::Threads;

// How many threads a round or an epoch starts.
const THREADS: usize = 3;

// Says no to one start, after so many.
#[derive(Drop)]
struct Refusing {
    behind: usize,
    questions: usize,
    // Whether each question was for the thread whose turn it was.
    in_turn: bool,
    said_no: bool,
    asked: History<usize>,
}

impl Refusing {
    fn new(behind: usize) -> Refusing {
        Refusing {
            behind,
            questions: 0,
            in_turn: true,
            said_no: false,
            asked: History::new(),
        }
    }
}

impl Start for Refusing {
    ghost use Rattle.std.specs.Prelude.{◌≡◌, true};

    ghost refused = { λ start. start.said_no ≡ true };

    ghost asked = { λ start. start.asked.items };

    fn may_start(&mut self, thread: usize) -> bool {
        self.asked = self.asked.with(&thread);
        let number = self.questions;
        self.questions = number.saturating_add(1);
        self.in_turn = self.in_turn && thread == number % THREADS;
        if number == self.behind {
            self.said_no = true;
            return false;
        }
        true
    }
}

// Counts the first turns of threads, each of which takes a while.
#[derive(Drop)]
struct Slow {
    first_turns: AtomicU64,
}

impl Gate for Slow {
    fn turn(&self, _: usize, turn: usize) {
        for _ in 0..1_000 {
            thread::yield_now();
        }
        if turn == 0 {
            self.first_turns.fetch_add(1, Ordering::SeqCst);
        }
    }
}

// Runs a program in three threads, of which one start may be refused.
fn ran_by(
    rt: &impl Threads,
    alloc: Global,
    drive: Drive,
    gate: &Arc<Slow, Global>,
    start: &mut Refusing,
) -> Result<Ran, AllocError> {
    let config = in_threads(alloc, drive, 1, THREADS, &[0, 1, 2])?;
    let program = b"reduce_add(iota(5))";
    let shared = Arc::try_clone(gate)?;
    Ok(ran_with(rt, alloc, program, &config, shared, SOUND, start))
}

// Asserts what a run in three threads answers whose start is refused after so many: no thread and an empty writer, or the value
// where it makes no such start. Each thread that was started has made its first turn and has let the gate go, so it was joined.
fn assert_refused<R: Abort + Threads>(
    rt: &R,
    alloc: Global,
    drive: Drive,
    behind: usize,
) -> Result<(), AllocError> {
    let mut start = Refusing::new(behind);
    let gate = Arc::new(
        alloc,
        Slow {
            first_turns: AtomicU64::new(0),
        },
    )?;
    let ran = ran_by(rt, alloc, drive, &gate, &mut start)?;
    // One thread waits for another at an edge that holds one message, so there are two rounds at least. An epoch may be the last.
    let must_come = behind < THREADS || drive == Drive::Rounds;
    assert!(rt; start.in_turn && (start.said_no || !must_come));
    let wanted: (Result<Outcome, Refusal>, &[u8]) = if start.said_no {
        (Err(Refusal::NoThread), b"")
    } else {
        (Ok(Outcome::Value), b"10\n")
    };
    assert_eq!(rt; (ran.ending, ran.written.as_slice()), wanted);
    let started = if start.said_no {
        behind
    } else {
        start.questions
    };
    assert_eq!(rt; gate.first_turns.load(Ordering::SeqCst), started as u64);
    assert_eq!(rt; Arc::strong_count(&gate), 1);
    Ok(())
}

#[test]
fn each_start_is_refused_in_turn(rt: HostRuntime) -> Result<(), Fail> {
    for drive in [Drive::Rounds, Drive::Rings] {
        for behind in 0..2 * THREADS {
            assert_refused(&rt, rt.alloc(), drive, behind)?;
        }
    }
    Ok(())
}
