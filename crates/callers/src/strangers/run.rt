// Programs that are run, and jobs that are answered.
use flow_drive::Rested;
use snesl_run::{
    Config, Counted, Gate, JobError, Refusal, Report, RunError, Start, answer, run, run_with,
    settings, split_job,
};
use std::alloc::Global;
use std::io::{Read, Write};
use std::sync::Arc;
use std::thread::Threads;

/// Runs a program.
pub fn ran<W: Write, G: Gate + Send + Sync + Drop + 'static>(
    rt: &impl Threads,
    alloc: Global,
    program: &[u8],
    input: &[u8],
    config: &Config,
    gate: Arc<G, Global>,
    out: &mut Counted<W>,
) -> Result<Report, RunError> {
    run(rt, alloc, program, input, config, gate, out)
}

/// The same, where each start is asked for.
pub fn ran_with<W: Write, G: Gate + Send + Sync + Drop + 'static, S: Start>(
    rt: &impl Threads,
    alloc: Global,
    program: &[u8],
    input: &[u8],
    config: &Config,
    gate: Arc<G, Global>,
    out: &mut Counted<W>,
    start: &mut S,
) -> Result<Report, RunError> {
    run_with(rt, alloc, program, input, config, gate, out, start)
}

/// The network of a run at rest.
pub fn rested(report: &Report) -> &Rested {
    report.rested()
}

/// The configuration that words say.
pub fn configured(alloc: Global, words: &[&str]) -> Result<Config, Refusal> {
    settings(alloc, words)
}

/// Answers a job, and gives the exit status.
pub fn answered<R: Read, W: Write, E: Write>(
    rt: &impl Threads,
    alloc: Global,
    words: &[&str],
    job: &mut Counted<R>,
    out: &mut Counted<W>,
    err: &mut Counted<E>,
) -> u8 {
    answer(rt, alloc, words, job, out, err)
}

/// The program and the input text of a job.
pub fn parts<R: Read>(alloc: Global, job: &mut Counted<R>) -> Result<(Vec<u8>, Vec<u8>), JobError> {
    split_job(alloc, job)
}
