// Running a job.

use crate::choosing::{GREATER, explain, gives_capacity};
use crate::command_line::config_of;
use crate::dealing::deal_out;
use crate::foretelling::foretell;
use crate::reading::{Job, read_job};
use crate::saying::{say_fault, say_plainly, say_refused};
use crate::stalling::{say_again, say_stall};
use crate::voice::Voice;
use crate::watching::{is_watched, run_watched};
use clap::ArgMatches;
use snesl_data::{Counted, Refusal};
use snesl_run::{Config, NoGate, Outcome, Report, RunError, run};
use std::alloc::Global;
use std::io::{Read, Write};
use std::rt::{Clock, Files};
use std::sync::Arc;
use std::thread::Threads;

// Runs the job of the file that the words name, or of standard input, under the settings that they say. The value goes to `out`,
// and what went wrong to `err`. Gives the exit status.
pub(crate) fn run_file<
    H: AllocGlobal + Files + Threads + Clock + Eprint + Clone + Drop + Send + Sync + 'static,
    R: Read + Drop,
    W: Write,
    E: Write,
>(rt: &H, matches: &ArgMatches<'_>, stdin: R, out: &mut Counted<W>, err: &mut Voice<'_, E>) -> u8 {
    let mut config = match config_of(rt.alloc(), matches) {
        Ok(config) => config,
        Err(refusal) => return say_refused(rt.alloc(), refusal, &Job::none(rt.alloc()), err),
    };
    let job = match read_job(rt, matches, stdin, err) {
        Ok(job) => job,
        Err(status) => return status,
    };
    let foretold = foretell(rt, rt.alloc(), matches, &job, &mut config);
    if explain(rt.alloc(), matches, foretold.as_ref(), err).is_err()
        || deal_out(rt.alloc(), matches, &job, &mut config, err).is_err()
    {
        return say_plainly(Refusal::NoMemory, err);
    }
    let (ended, chunk) = ended_by_growth(rt, matches, &job, config, out, err);
    match ended {
        Ok(outcome) => say_outcome(rt, outcome, &job, chunk, err),
        Err(refusal) => say_refused(rt.alloc(), refusal, &job, err),
    }
}

// How a run came out. Where no capacity is given, and the program stalls, greater ones are tried. Gives the chunk too, unless the
// greatest capacity was tried.
fn ended_by_growth<
    H: AllocGlobal + Threads + Clock + Eprint + Clone + Drop + Send + Sync + 'static,
    W: Write,
    E: Write,
>(
    rt: &H,
    matches: &ArgMatches<'_>,
    job: &Job<'_>,
    mut config: Config,
    out: &mut Counted<W>,
    err: &mut Voice<'_, E>,
) -> (Result<Outcome, Refusal>, Option<usize>) {
    let on_terminal = err.on_terminal();
    let mut outcome = ended_under(rt, matches, job, &config, on_terminal, out);
    if gives_capacity(matches) {
        return (outcome, Some(config.chunk));
    }
    for capacity in GREATER {
        if !has_stalled(&outcome) {
            return (outcome, None);
        }
        if capacity <= config.capacity {
            continue;
        }
        say_again(rt.alloc(), config.capacity, capacity, err);
        config.capacity = capacity;
        outcome = ended_under(rt, matches, job, &config, on_terminal, out);
    }
    (outcome, None)
}

// Whether the program has stalled.
fn has_stalled(outcome: &Result<Outcome, Refusal>) -> bool {
    matches!(outcome, Ok(Outcome::Stalled { .. }))
}

// How a run came out under a configuration.
fn ended_under<
    H: AllocGlobal + Threads + Clock + Eprint + Clone + Drop + Send + Sync + 'static,
    W: Write,
>(
    rt: &H,
    matches: &ArgMatches<'_>,
    job: &Job<'_>,
    config: &Config,
    on_terminal: bool,
    out: &mut Counted<W>,
) -> Result<Outcome, Refusal> {
    if is_watched(matches) {
        ended(run_watched(
            rt,
            rt.alloc(),
            &job.program,
            &job.input,
            config,
            on_terminal,
            out,
        ))
    } else {
        ended(run_alone(rt, rt.alloc(), &job.program, &job.input, config, out))
    }
}

// How a run came out, or why it was refused.
fn ended(run: Result<Report, RunError>) -> Result<Outcome, Refusal> {
    match run {
        Ok(report) => Ok(report.outcome()),
        Err(error) => Err(error.refusal()),
    }
}

// Says how a program came out, where that is not a value, and gives the exit status. The chunk is that of the run; there is none
// where the greatest capacity was tried.
pub(crate) fn say_outcome<H: AllocGlobal + Threads, E: Write>(
    rt: &H,
    outcome: Outcome,
    job: &Job<'_>,
    chunk: Option<usize>,
    err: &mut Voice<'_, E>,
) -> u8 {
    match outcome {
        Outcome::Value => 0,
        Outcome::Fault(fault) => say_fault(rt.alloc(), fault, job, err),
        Outcome::Stalled { edge } => { say_stall(rt, rt.alloc(), job, chunk, edge, err) }
    }
}

// Runs a program with a gate that does nothing.
pub(crate) fn run_alone<W: Write>(
    rt: &impl Threads,
    alloc: Global,
    program: &[u8],
    input: &[u8],
    config: &Config,
    out: &mut Counted<W>,
) -> Result<Report, RunError> {
    match Arc::new(alloc, NoGate) {
        Ok(gate) => run(rt, alloc, program, input, config, gate, out),
        Err(_) => Err(RunError::from(Refusal::NoMemory)),
    }
}
