// How runs end where the edges are small, and under configurations that are not lawful. What is printed
// under lawful ones stands in the tables of `tool_runs`.

use crate::running::assert_done;
use flow_drives::Outcome;
use snesl_data::Refusal;
use snesl_trials::{Done, ran_in_one_thread};
use std::alloc::{AllocError, Global};
use std::process::Abort;
use std::test::Fail;
use std::thread::Threads;

// How many messages wait on the edge that is full, where the network has stalled and nothing was written.
fn held_by_full_edge(done: &Done) -> Option<u64> {
    match done.ending {
        Ok(Outcome::Stalled { edge }) if done.written.is_empty() => {
            let (sent, received) = *done.counts.get(edge)?;
            sent.checked_sub(received)
        }
        _ => None,
    }
}

// A sequence appended to itself is read twice.
#[test]
fn stalls_where_edges_are_small(rt: HostRuntime) -> Result<(), Fail> {
    let twice = b"let s = iota(100) in s ++ s".as_slice();
    for chunk in [1, 16] {
        let small = ran_in_one_thread(&rt, rt.alloc(), twice, b"", 4, chunk)?;
        assert_eq!(rt; held_by_full_edge(&small), Some(4));
    }
    Ok(())
}

// Asserts that a program is not run over edges of this capacity, with visits of so many steps.
fn assert_unlawful<R: Abort + Threads>(
    rt: &R,
    alloc: Global,
    program: &[u8],
    (capacity, chunk): (usize, usize),
) -> Result<(), AllocError> {
    let done = ran_in_one_thread(rt, alloc, program, b"", capacity, chunk)?;
    assert_done(rt, &done, Err(Refusal::BadConfig), b"");
    Ok(())
}

// The configuration is refused before the program is read: one that has a value, one that faults, three that are refused, and
// one whose input text is.
#[test]
fn unlawful_configurations(rt: HostRuntime) -> Result<(), Fail> {
    let programs: [&[u8]; 6] = [
        b"1 + 2",
        b"1 / 0",
        b"1 # 2",
        b"1 +",
        b"1 + true",
        b"input n : int; n",
    ];
    for program in programs {
        for numbers in [(0, 16), (65_537, 16), (256, 0), (256, 1_025)] {
            assert_unlawful(&rt, rt.alloc(), program, numbers)?;
        }
    }
    Ok(())
}
