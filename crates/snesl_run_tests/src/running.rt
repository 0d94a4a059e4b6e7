// Runs of programs over memory, and what is asserted of them.

use crate::limping::{LimpingWriter, Trouble};
use flow_drives::{Config, Gate, Outcome};
use snesl_data::{Counted, Refusal};
use snesl_run::{AlwaysStart, Report, RunError, Start, run_with};
use snesl_trials::Done;
use std::alloc::Global;
use std::process::Abort;
use std::sync::Arc;
use std::thread::Threads;

/// What a run wrote, how many calls of its writer failed, how it ended, and how many rounds and epochs it had: none where it
/// was refused.
#[derive(Drop)]
pub struct Ran {
    pub written: Vec<u8>,
    pub failures: u64,
    pub ending: Result<Outcome, Refusal>,
    pub turns: (u64, u64),
}

/// Runs a program without inputs, over a writer of which some calls may go wrong.
pub fn ran_over<G: Gate + Send + Sync + Drop + 'static>(
    rt: &impl Threads,
    alloc: Global,
    program: &[u8],
    config: &Config,
    gate: Arc<G, Global>,
    trouble: Trouble,
) -> Ran {
    ran_with(
        rt,
        alloc,
        program,
        config,
        gate,
        trouble,
        &mut AlwaysStart::new(),
    )
}

/// The same, where starts of threads may be refused.
pub fn ran_with<G: Gate + Send + Sync + Drop + 'static, S: Start>(
    rt: &impl Threads,
    alloc: Global,
    program: &[u8],
    config: &Config,
    gate: Arc<G, Global>,
    trouble: Trouble,
    start: &mut S,
) -> Ran {
    let mut out = Counted::new(LimpingWriter::new(alloc, trouble));
    let answer = run_with(rt, alloc, program, b"", config, gate, &mut out, start);
    let (ending, turns) = ended(answer);
    Ran {
        failures: out.failures(),
        written: out.into_inner().taken,
        ending,
        turns,
    }
}

// How a run ended, and how many rounds and epochs it had.
fn ended(answer: Result<Report, RunError>) -> (Result<Outcome, Refusal>, (u64, u64)) {
    match answer {
        Ok(report) => {
            let rested = report.rested();
            (Ok(report.outcome()), (rested.rounds(), rested.epochs()))
        }
        Err(error) => (Err(error.refusal()), (0, 0)),
    }
}

/// Asserts how a run ended, and what it wrote.
pub fn assert_done(rt: &impl Abort, done: &Done, ending: Result<Outcome, Refusal>, written: &[u8]) {
    assert_eq!(rt; (done.ending, done.written.as_slice()), (ending, written));
}
