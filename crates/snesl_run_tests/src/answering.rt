// One job, answered over a reader and writers of which some calls go wrong.

use crate::limping::{LimpingReader, LimpingWriter, Trouble};
use snesl_data::Counted;
use snesl_run::answer;
use std::alloc::Global;
use std::process::Abort;
use std::thread::Threads;

// What a job was answered.
#[derive(Drop)]
struct Reply {
    // What was printed.
    printed: Vec<u8>,
    // What was said on standard error.
    complaint: Vec<u8>,
    // The exit status.
    status: u8,
    // How often the reader of the job, the writer of what is printed and that of what is said were called.
    calls: [u64; 3],
    // How many of these calls were counted as failures.
    failures: [u64; 3],
}

// Answers a job with these words of the command line. The troubles are those of reading it, of printing and of saying what is
// wrong.
fn answered(
    rt: &impl Threads,
    alloc: Global,
    words: &[&str],
    job: &[u8],
    troubles: [Trouble; 3],
) -> Reply {
    let mut job = Counted::new(LimpingReader::new(job, troubles[0]));
    let mut printed = Counted::new(LimpingWriter::new(alloc, troubles[1]));
    let mut complaint = Counted::new(LimpingWriter::new(alloc, troubles[2]));
    let status = answer(rt, alloc, words, &mut job, &mut printed, &mut complaint);
    let failures = [job.failures(), printed.failures(), complaint.failures()];
    let (printed, complaint) = (printed.into_inner(), complaint.into_inner());
    Reply {
        calls: [job.into_inner().calls, printed.calls, complaint.calls],
        failures,
        printed: printed.taken,
        complaint: complaint.taken,
        status,
    }
}

/// What a job is to be answered.
#[derive(Clone, Copy)]
pub struct Wanted<'a> {
    /// How often its reader is called.
    pub reads: usize,
    pub printed: &'a [u8],
    pub complaint: &'a [u8],
    pub status: u8,
    /// How many calls of its reader and of the two writers fail.
    pub failures: [u64; 3],
}

/// Asserts what a job is answered, with these words and these troubles. A call of a writer takes a byte, or fails.
pub fn assert_answer<R: Abort + Threads>(
    rt: &R,
    alloc: Global,
    words: &[&str],
    job: &[u8],
    troubles: [Trouble; 3],
    wanted: Wanted<'_>,
) {
    let reply = answered(rt, alloc, words, job, troubles);
    let told = (
        reply.printed.as_slice(),
        reply.complaint.as_slice(),
        reply.status,
        reply.calls,
        reply.failures,
    );
    let calls = [
        wanted.reads as u64,
        (wanted.printed.len() as u64).wrapping_add(wanted.failures[1]),
        (wanted.complaint.len() as u64).wrapping_add(wanted.failures[2]),
    ];
    assert_eq!(rt;
        told,
        (
            wanted.printed,
            wanted.complaint,
            wanted.status,
            calls,
            wanted.failures
        )
    );
}
