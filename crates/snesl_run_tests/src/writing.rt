// Runs over writers that stop working.

use crate::limping::{Stop, Trouble};
use crate::running::{Ran, ran_over};
use flow_drives::{NoGate, Outcome};
use snesl_data::{Fault, FaultKind, Refusal};
use snesl_trials::in_one_thread;
use std::alloc::{AllocError, Global};
use std::process::Abort;
use std::sync::Arc;
use std::test::Fail;
use std::thread::Threads;

// Runs a program over edges that hold so many messages, and such a writer.
fn ran(
    rt: &impl Threads,
    alloc: Global,
    (program, capacity): (&[u8], usize),
    trouble: Trouble,
) -> Result<Ran, AllocError> {
    let gate = Arc::new(alloc, NoGate)?;
    let config = in_one_thread(alloc, capacity, 16)?;
    Ok(ran_over(rt, alloc, program, &config, gate, trouble))
}

// Asserts how a run ends, what its writer has taken, and how many calls of it failed.
fn assert_ran<R: Abort + Threads>(
    rt: &R,
    alloc: Global,
    program: (&[u8], usize),
    trouble: Trouble,
    wanted: (Result<Outcome, Refusal>, &[u8], u64),
) -> Result<(), AllocError> {
    let ran = ran(rt, alloc, program, trouble)?;
    assert_eq!(rt; (ran.ending, ran.written.as_slice(), ran.failures), wanted);
    Ok(())
}

// Asserts that a writer that stops, wherever in the line, has taken a beginning of it, and was called no more once a call had
// failed.
fn assert_cut<R: Abort + Threads>(
    rt: &R,
    alloc: Global,
    program: (&[u8], usize),
    line: &[u8],
) -> Result<(), AllocError> {
    for bytes in 0..line.len() {
        for stop in [Stop::Fails, Stop::MovesNothing] {
            let trouble = Trouble {
                stop,
                ..Trouble::behind(bytes)
            };
            let wanted = (Err(Refusal::Output), &line[..bytes], 1);
            assert_ran(rt, alloc, program, trouble, wanted)?;
        }
    }
    Ok(())
}

// A program of few elements, what its edges hold, and its line.
const FEW: (&[u8], usize) = (b"iota(4)", 4);

const LINE: &[u8] = b"{0,1,2,3}\n";

// A sequence appended to itself, over edges that hold it.
const TWICE: (&[u8], usize) = (b"let s = iota(100) in s ++ s", 256);

// The numbers below a hundred, twice, as a line of 582 bytes.
fn hundred_twice(alloc: Global) -> Result<String, AllocError> {
    let mut line = String::from_str(alloc, "{0")?;
    for number in 1..200u32 {
        let text = format!(in alloc; ",{}", number % 100)?;
        line.push_str(text.as_str())?;
    }
    line.push_str("}\n")?;
    Ok(line)
}

// Wherever in a short line and in a long one.
#[test]
fn writers_that_stop(rt: HostRuntime) -> Result<(), Fail> {
    assert_cut(&rt, rt.alloc(), FEW, LINE)?;
    let line = hundred_twice(rt.alloc())?;
    assert!(rt; line.len() == 582);
    assert_cut(&rt, rt.alloc(), TWICE, line.as_bytes())?;
    Ok(())
}

// How many calls failed of a writer that works at no call, where the network has stalled.
fn failed_in_stall(rt: &impl Threads, alloc: Global) -> Result<Option<u64>, AllocError> {
    let stalled = ran(rt, alloc, (TWICE.0, 4), Trouble::behind(0))?;
    match stalled.ending {
        Ok(Outcome::Stalled { .. }) => Ok(Some(stalled.failures)),
        _ => Ok(None),
    }
}

// A writer that works for just the line, and where there is no value, one that works at no call, which is not called.
#[test]
fn writers_that_are_enough(rt: HostRuntime) -> Result<(), Fail> {
    let whole = (Ok(Outcome::Value), LINE, 0);
    let trouble = Trouble::behind(LINE.len());
    assert_ran(&rt, rt.alloc(), FEW, trouble, whole)?;
    let division = Fault {
        kind: FaultKind::Divide,
        at: 2,
    };
    let fault = (Ok(Outcome::Fault(division)), b"".as_slice(), 0);
    assert_ran(&rt, rt.alloc(), (b"1 / 0", 4), Trouble::behind(0), fault)?;
    assert_eq!(rt; failed_in_stall(&rt, rt.alloc())?, Some(0));
    Ok(())
}
