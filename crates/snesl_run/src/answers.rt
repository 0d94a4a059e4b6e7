// Answering a job.

ghost use Rattle.std.specs.Prelude.{◌≡◌, ◌⊎◌};
ghost use Rattle.clap.specs.Walk.{texts};
ghost use Rattle.snesl_run.specs.Prints.{AnswersWords, AnswersJob, PrintsAnswer};
ghost use Rattle.snesl_run.specs.Prints.{PrintsMade, PrintsRefusal};
ghost use Rattle.snesl_run.specs.Runs.{HasRun};
ghost use Rattle.snesl_data.specs.declared.refusal.Refusal.TheVariants.{BadConfig, NoMemory};

use crate::command_line::settings;
use crate::console::{
    BAD_CONFIG_LINE, STALLED_LINE, complain, fault_line, print, refusal_line, split_job,
};
use crate::report::{Report, RunError};
use crate::runs::run;
use flow_drives::{Config, NoGate, Outcome};
use snesl_data::{Counted, Refusal};
use snesl_syntax::one_answer;
use snesl_values::one_input_meaning;
use std::alloc::{AllocError, Global};
use std::io::{Read, Write};
use std::sync::Arc;
use std::thread::Threads;

/// Answers the job that a reader gives, and returns the exit status. `words` are those of a command
/// line, the first of which is the program's name; `settings` tells what they set.
///
/// A job is a program, and after the first line `---` its input text; without such a line all of it
/// is the program ([`split_job`] says what of it is read). One line is printed on `out`: the value (status 0), `fault N at K` (2), `stalled` (3), or
/// `refused N at K` or `refused N` (1). Where the words are refused, that is `refused 10` (1), and
/// then the job is not read.
///
/// A refusal of the system goes to `err` as `refused N`, where that can be written, with status 4:
/// memory was refused (11), `out` could not be written (12), a thread could not be started (13, only by
/// drives that start threads) or `job` could not be read (14). No call of a reader or a writer that
/// failed is tried again: of each of the three at most one call failed, of `job` only where 14 is said,
/// and of `out` only where 12 is.
///
/// What is printed is the answer of each job that begins with what was read, or of just that where the reader has ended. No
/// byte is read that does not decide the parts of the job: where the program is too long nothing after it is, and else
/// no more than one byte over the input text's limit.
pub fn answer<R: Read, W: Write, E: Write>(
    rt: &impl Threads,
    alloc: Global,
    words: &[&str],
    job: &mut Counted<R>,
    out: &mut Counted<W>,
    err: &mut Counted<E>,
) -> u8
    ensures { AnswersWords W.contents E.contents out err R.remaining job (texts words.now) result }
{
    match settings(alloc, words) {
        Ok(config) => answer_job(rt, alloc, &config, job, out, err),
        Err(refusal) => refuse_words(refusal, out, err),
    }
}

// Prints that the words are refused, or says that memory was refused to them.
fn refuse_words<W: Write, E: Write>(
    refusal: Refusal,
    out: &mut Counted<W>,
    err: &mut Counted<E>,
) -> u8
    requires { (refusal ≡ BadConfig) ⊎ (refusal ≡ NoMemory) }
    ensures { PrintsRefusal W.contents E.contents out.old out.new err.old err.new refusal result }
{
    if refusal.is_of_the_system() {
        complain(refusal, err)
    } else {
        print(BAD_CONFIG_LINE, refusal.status(), out, err)
    }
}

// Reads the job and prints its answer.
fn answer_job<R: Read, W: Write, E: Write>(
    rt: &impl Threads,
    alloc: Global,
    config: &Config,
    job: &mut Counted<R>,
    out: &mut Counted<W>,
    err: &mut Counted<E>,
) -> u8
    ensures { AnswersJob W.contents E.contents out err R.remaining job config.now result }
{
    one_answer();
    one_input_meaning();
    match split_job(alloc, job) {
        Ok((program, input)) => print_answer(rt, alloc, config, &program, &input, out, err),
        Err(error) => complain(Refusal::from(error), err),
    }
}

// Prints the answer of a program with its input text.
fn print_answer<W: Write, E: Write>(
    rt: &impl Threads,
    alloc: Global,
    config: &Config,
    program: &[u8],
    input: &[u8],
    out: &mut Counted<W>,
    err: &mut Counted<E>,
) -> u8
    ensures { PrintsAnswer W.contents E.contents out err config.now program.now input.now result }
{
    match run_alone(rt, alloc, program, input, config, out) {
        Ok(report) => match report.outcome() {
            Outcome::Value => 0,
            Outcome::Fault(fault) => print_made(fault_line(alloc, fault), 2, out, err),
            Outcome::Stalled { .. } => print(STALLED_LINE, 3, out, err),
        },
        Err(error) => {
            let refusal = error.refusal();
            if refusal.is_of_the_system() {
                complain(refusal, err)
            } else {
                print_made(refusal_line(alloc, refusal), refusal.status(), out, err)
            }
        }
    }
}

// Runs a program with a gate that does nothing.
fn run_alone<W: Write>(
    rt: &impl Threads,
    alloc: Global,
    program: &[u8],
    input: &[u8],
    config: &Config,
    out: &mut Counted<W>,
) -> Result<Report, RunError>
    ensures { HasRun W.contents program.now input.now config.now out.old out.new result }
{
    match Arc::new(alloc, NoGate) {
        Ok(gate) => run(rt, alloc, program, input, config, gate, out),
        Err(_) => Err(RunError {
            refusal: Refusal::NoMemory,
        }),
    }
}

// Prints a line, unless memory was refused to it.
fn print_made<W: Write, E: Write>(
    line: Result<Vec<u8>, AllocError>,
    status: u8,
    out: &mut Counted<W>,
    err: &mut Counted<E>,
) -> u8
    ensures { PrintsMade W.contents E.contents out.old out.new err.old err.new line status result }
{
    match line {
        Ok(line) => print(&line, status, out, err),
        Err(_) => complain(Refusal::NoMemory, err),
    }
}
