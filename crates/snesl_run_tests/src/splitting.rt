// How much of a job is read, and what is cut off its parts.

use crate::answering::{Wanted, assert_answer};
use crate::limping::{SOUND, Trouble};
use snesl_data::Counted;
use snesl_run::{JobError, split_job};
use std::alloc::{AllocError, Global};
use std::process::Abort;
use std::test::Fail;
use std::thread::Threads;

// The greatest length of a program.
const PROGRAM: usize = 65_536;

// The first byte of an input text that is too many stands here.
const INPUT: usize = 16_777_216;

// Asserts that a job is refused over a reader that gives one byte a call, with this line. One more call would fail.
fn assert_refused<R: Abort + Threads>(
    rt: &R,
    alloc: Global,
    job: &[u8],
    reads: usize,
    line: &[u8],
) {
    let wanted = Wanted {
        reads,
        printed: line,
        complaint: b"",
        status: 1,
        failures: [0; 3],
    };
    let troubles = [Trouble::behind(reads), SOUND, SOUND];
    assert_answer(rt, alloc, &["snesl"], job, troubles, wanted);
}

// Asserts that a job is not read, since the call after so many fails.
fn assert_unread<R: Abort + Threads>(rt: &R, alloc: Global, job: &[u8], reads: usize) {
    let wanted = Wanted {
        reads: reads.wrapping_add(1),
        printed: b"",
        complaint: b"refused 14\n",
        status: 4,
        failures: [1, 0, 0],
    };
    let troubles = [Trouble::behind(reads), SOUND, SOUND];
    assert_answer(rt, alloc, &["snesl"], job, troubles, wanted);
}

// So many blanks, and then these bytes.
fn after_blanks(alloc: Global, blanks: usize, bytes: &[u8]) -> Result<Vec<u8>, AllocError> {
    let mut job = vec![in alloc; b' '; blanks]?;
    job.extend_from_slice(bytes)?;
    Ok(job)
}

// Programs that are too long: so many blanks and these bytes, and how many bytes are read. The answer comes with the byte that
// decides it, while more of the job is to come.
const LONG: [(usize, &[u8], usize); 6] = [
    (PROGRAM + 10, b"", PROGRAM + 1),
    (PROGRAM + 1, b"\n---\n1", PROGRAM + 1),
    // A separator may begin at the limit, or a byte after it, until another byte shows that none does.
    (PROGRAM - 1, b"\n--x---\n1", PROGRAM + 3),
    (PROGRAM - 1, b"\n---x\n1", PROGRAM + 4),
    (PROGRAM - 1, b"\n---\rx", PROGRAM + 5),
    (PROGRAM, b"\n---\rx", PROGRAM + 6),
];

// Programs at their limit, with a separator or without. They are read whole.
const AT_LIMIT: [(usize, &[u8]); 4] = [
    (PROGRAM, b""),
    (PROGRAM - 1, b"\n---\n1"),
    (PROGRAM - 1, b"\n---\r\n1"),
    (PROGRAM - 1, b"\n---"),
];

#[test]
fn programs_about_their_limit(rt: HostRuntime) -> Result<(), Fail> {
    for (blanks, bytes, reads) in LONG {
        let job = after_blanks(rt.alloc(), blanks, bytes)?;
        assert_refused(&rt, rt.alloc(), &job, reads, b"refused 1\n");
        assert_unread(&rt, rt.alloc(), &job, reads - 1);
    }
    for (blanks, bytes) in AT_LIMIT {
        let job = after_blanks(rt.alloc(), blanks, bytes)?;
        let reads = job.len().wrapping_add(1);
        assert_refused(&rt, rt.alloc(), &job, reads, b"refused 3 at 65536\n");
    }
    Ok(())
}

// A read that fails, the last one too, which tells the end, is said, and no other answer.
#[test]
fn each_read_fails_in_turn(rt: HostRuntime) {
    let job = b"x : int; x + 1\n---\r\nx = 2";
    for reads in 0..=job.len() {
        assert_unread(&rt, rt.alloc(), job, reads);
    }
}

// How long the program and the input text of a job are, where they end in these bytes, and these are left of the job.
fn parted(
    alloc: Global,
    job: &[u8],
    (program, input, rest): (&[u8], &[u8], &[u8]),
) -> Result<Option<(usize, usize)>, JobError> {
    let mut reader = Counted::new(job);
    let parts = split_job(alloc, &mut reader)?;
    let ends = parts.0.ends_with(program) && parts.1.ends_with(input);
    if !ends || reader.into_inner() != rest {
        return Ok(None);
    }
    Ok(Some((parts.0.len(), parts.1.len())))
}

// A program of one byte too many is not cut, so its input text is read.
#[test]
fn a_program_one_byte_over_its_limit_is_whole(rt: HostRuntime) -> Result<(), Fail> {
    let job = after_blanks(rt.alloc(), PROGRAM, b"\n---\nx = 1")?;
    let reads = job.len().wrapping_add(1);
    assert_refused(&rt, rt.alloc(), &job, reads, b"refused 1\n");
    let parts = parted(rt.alloc(), &job, (b" \n", b"x = 1", b""))?;
    assert_eq!(rt; parts, Some((PROGRAM + 1, 5)));
    Ok(())
}

// After an input text that is too long nothing is read.
#[test]
fn a_long_input_is_cut(rt: HostRuntime) -> Result<(), Fail> {
    let mut job = Vec::from_slice(rt.alloc(), b"1\n---\n")?;
    job.extend_from_slice(&after_blanks(rt.alloc(), INPUT, b"abc")?)?;
    let parts = parted(rt.alloc(), &job, (b"1\n", b" a", b"bc"))?;
    assert_eq!(rt; parts, Some((2, INPUT + 1)));
    Ok(())
}
