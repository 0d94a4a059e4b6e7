// Jobs over readers and writers of which some calls go wrong: no call is made after such a one, whether or not it would work.

use crate::answering::{Wanted, assert_answer};
use crate::limping::{SOUND, Stop, Trouble};
use std::alloc::Global;
use std::process::Abort;
use std::thread::Threads;

// A job is not read where the words are refused; what each word is answered stands in the tables of `tool_runs`.
#[test]
fn words(rt: HostRuntime) {
    let wanted = Wanted {
        reads: 0,
        printed: b"refused 10\n",
        complaint: b"",
        status: 1,
        failures: [0; 3],
    };
    for word in ["--help", "--capacity", "1", ""] {
        assert_answer(&rt, rt.alloc(), &["snesl", word], b"1", [SOUND; 3], wanted);
    }
}

// How many calls go wrong, one or all from there on, and how. A reader goes wrong in the first four ways.
const WRONG: [(u64, Stop); 6] = [
    (1, Stop::Fails),
    (1, Stop::IsInterrupted),
    (u64::MAX, Stop::Fails),
    (u64::MAX, Stop::IsInterrupted),
    (1, Stop::MovesNothing),
    (u64::MAX, Stop::MovesNothing),
];

// Asserts that the line of a job is cut short where its writer goes wrong, wherever that is.
fn assert_cut<R: Abort + Threads>(rt: &R, alloc: Global, job: &[u8], line: &[u8]) {
    for written in 0..line.len() {
        let wanted = Wanted {
            reads: job.len().wrapping_add(1),
            printed: &line[..written],
            complaint: b"refused 12\n",
            status: 4,
            failures: [0, 1, 0],
        };
        for (fails, stop) in WRONG {
            let trouble = Trouble {
                works: written as u64,
                fails,
                stop,
            };
            assert_answer(rt, alloc, &["snesl"], job, [SOUND, trouble, SOUND], wanted);
        }
    }
}

// A job, its line and its exit status.
const LINES: [(&[u8], &[u8], u8); 3] = [
    (b"iota(12)", b"{0,1,2,3,4,5,6,7,8,9,10,11}\n", 0),
    (b"iota(0 - 1)", b"fault 3 at 0\n", 2),
    (b"1 # 2", b"refused 2 at 2\n", 1),
];

#[test]
fn writers_that_go_wrong(rt: HostRuntime) {
    for (job, line, status) in LINES {
        assert_cut(&rt, rt.alloc(), job, line);
        // Just enough calls work, and none that would say what is wrong.
        let troubles = [SOUND, Trouble::behind(line.len()), Trouble::behind(0)];
        let wanted = Wanted {
            reads: job.len().wrapping_add(1),
            printed: line,
            complaint: b"",
            status,
            failures: [0; 3],
        };
        assert_answer(&rt, rt.alloc(), &["snesl"], job, troubles, wanted);
    }
}

const SUM: &[u8] = b"reduce_add(iota(5))\n---\n ";

// Asserts that a job that cannot be read to its end is refused, wherever its reader goes wrong.
fn assert_unread<R: Abort + Threads>(rt: &R, alloc: Global, fails: u64, stop: Stop) {
    // The last read is the one that finds the end.
    for reads in 0..=SUM.len() {
        let trouble = Trouble {
            works: reads as u64,
            fails,
            stop,
        };
        let wanted = Wanted {
            reads: reads.wrapping_add(1),
            printed: b"",
            complaint: b"refused 14\n",
            status: 4,
            failures: [1, 0, 0],
        };
        assert_answer(rt, alloc, &["snesl"], SUM, [trouble, SOUND, SOUND], wanted);
    }
}

#[test]
fn readers_that_go_wrong(rt: HostRuntime) {
    for (fails, stop) in &WRONG[..4] {
        assert_unread(&rt, rt.alloc(), *fails, *stop);
    }
    let reads = SUM.len().wrapping_add(1);
    let wanted = Wanted {
        reads,
        printed: b"10\n",
        complaint: b"",
        status: 0,
        failures: [0; 3],
    };
    let troubles = [Trouble::behind(reads), SOUND, SOUND];
    assert_answer(&rt, rt.alloc(), &["snesl"], SUM, troubles, wanted);
}

// Asserts that where nothing can be printed, what says so is cut short where its writer goes wrong too.
fn assert_silent<R: Abort + Threads>(rt: &R, alloc: Global, printing: Trouble) {
    for written in 0..12usize {
        let said = written.min(11);
        let fails_then = if written < 11 { 1 } else { 0 };
        let wanted = Wanted {
            reads: 2,
            printed: b"",
            complaint: &b"refused 12\n"[..said],
            status: 4,
            failures: [0, 1, fails_then],
        };
        for (fails, stop) in WRONG {
            let complaining = Trouble {
                works: written as u64,
                fails,
                stop,
            };
            let troubles = [SOUND, printing, complaining];
            assert_answer(rt, alloc, &["snesl"], b"1", troubles, wanted);
        }
    }
}

#[test]
fn no_writer_works(rt: HostRuntime) {
    for (fails, stop) in WRONG {
        let works = 0;
        assert_silent(&rt, rt.alloc(), Trouble { works, fails, stop });
    }
}
