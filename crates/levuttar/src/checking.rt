// Checking a job, of which nothing is run.

use crate::command_line::file_word;
use crate::reading::{Job, read_job};
use crate::saying::{print, say_refused};
use crate::voice::Voice;
use clap::{Arg, ArgAction, ArgMatches, Command};
use snesl_advice::{Advice, advice_on};
use snesl_data::{Counted, Refusal};
use snesl_flatten::flatten;
use snesl_look::findings::{finding_of, object_line};
use snesl_syntax::parse;
use snesl_types::check;
use snesl_values::read_inputs;
use std::alloc::{AllocError, Global};
use std::io::{Read, Write};
use std::rt::Files;

const CHECKS: &str =
    "A job is a program, a line `---`, and its input text. Without an input text the
program is checked alone, where `run` asks for each input that it declares. No
fault is looked for, since nothing is run.

Example: levuttar check --json examples/primes.snesl";

// The subcommand `check`.
pub(crate) fn check_command<'a>(alloc: Global) -> Result<Command<'a>, AllocError> {
    Command::new(alloc, "check")
        .about("Checks a job: says what `run` would refuse, and runs nothing")
        .after_help(CHECKS)
        .arg(
            Arg::new(alloc, "json")
                .long("json")
                .action(ArgAction::SetTrue)
                .help("Prints what is wrong as an object of JSON in a line"),
        )?
        .arg(file_word(alloc))
}

// Checks the job of the file that the words name, or of standard input. What is wrong goes to `err` in words, or to `out` as an
// object of JSON. Gives the exit status.
pub(crate) fn check_file<H: AllocGlobal + Files, R: Read + Drop, W: Write, E: Write>(
    rt: &H,
    matches: &ArgMatches<'_>,
    stdin: R,
    out: &mut Counted<W>,
    err: &mut Voice<'_, E>,
) -> u8 {
    let alloc = rt.alloc();
    let job = match read_job(rt, matches, stdin, err) {
        Ok(job) => job,
        Err(status) => return status,
    };
    match checked(alloc, &job) {
        Ok(()) => 0,
        // What the system refuses is no finding.
        Err(refusal) if matches.get_flag("json") && !refusal.is_of_the_system() => {
            print(
                finding_line(alloc, refusal, &job),
                refusal.status(),
                out,
                err,
            )
        }
        Err(refusal) => say_refused(alloc, refusal, &job, err),
    }
}

// Why a job is refused before it is run, if it is. Where it has no input text, none is asked for.
fn checked(alloc: Global, job: &Job<'_>) -> Result<(), Refusal> {
    let parsed = parse(alloc, &job.program)?;
    let typed = check(alloc, &parsed)?;
    if !job.input.is_empty() {
        read_inputs(typed.dialect(), alloc, typed.decls(), &job.input)?;
    }
    flatten(alloc, &typed)?;
    Ok(())
}

// A refusal as an object of JSON, in a line, with the place that is shown in words.
fn finding_line(alloc: Global, refusal: Refusal, job: &Job<'_>) -> Result<Vec<u8>, AllocError> {
    let Advice { message, shown } = advice_on(alloc, refusal, &job.program, &job.input)?;
    let finding = finding_of(job.file, shown, &job.program, &job.input, &message);
    object_line(alloc, &finding)
}
