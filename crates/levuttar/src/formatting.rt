// Laying out programs.

use crate::command_line::file_word;
use crate::placing::say_place_in_program;
use crate::reading::{Job, file_of, read_bytes};
use crate::rewriting::rewrite;
use crate::saying::{file_message, say, say_plainly, say_refused};
use crate::voice::Voice;
use clap::{Arg, ArgAction, ArgMatches, Command};
use snesl_data::{Counted, Refusal};
use snesl_layout::{LayoutError, first_difference, laid_out};
use snesl_run::console::send;
use snesl_run::split_job;
use std::alloc::{AllocError, Global};
use std::io::{Read, Write};
use std::rt::Files;

const FORMATS: &str =
    "A job is a program, a line `---`, and its input text, which stays as it is. The
program keeps its words, and means the same.

Example: levuttar fmt examples/primes.snesl";

const UNLAID: &[u8] = b"error: `levuttar fmt` lays this out otherwise\n";

const NO_FILE: &[u8] = b"error: `--write` wants the name of a file\n";

const TOO_LONG: &[u8] = b"error: the layout of this program is longer than 65,536 bytes\n";

const DIFFERS: &[u8] = b"error: the layout of this program is not the same program\n";

// The status where a program is not laid out, or cannot be.
const UNLIKE: u8 = 1;

// The subcommand `fmt`.
pub(crate) fn fmt_command<'a>(alloc: Global) -> Result<Command<'a>, AllocError> {
    Command::new(alloc, "fmt")
        .about("Lays out a program: prints the job with blanks and lines anew")
        .after_help(FORMATS)
        .arg(
            Arg::new(alloc, "check")
                .long("check")
                .action(ArgAction::SetTrue)
                .help("Prints nothing; the status is 1 where it is laid\nout otherwise"),
        )?
        .arg(
            Arg::new(alloc, "write")
                .long("write")
                .action(ArgAction::SetTrue)
                .conflicts_with("check")?
                .requires_arg("file")?
                .help("Writes it into FILE, where it is laid out\notherwise"),
        )?
        .arg(file_word(alloc))
}

// A job whole: its program as a job with no input text, and all bytes.
#[derive(Drop)]
struct Whole<'a> {
    job: Job<'a>,
    bytes: Vec<u8>,
}

impl Whole<'_> {
    // What stands behind the program: the line `---` and the input text, or nothing.
    fn rest(&self) -> &[u8] {
        &self.bytes[self.job.program.len().min(self.bytes.len())..]
    }
}

// The job of these bytes.
fn whole_of<'a>(
    alloc: Global,
    bytes: Vec<u8>,
    file: Option<&'a str>,
) -> Result<Whole<'a>, Refusal> {
    let (program, _) = split_job(alloc, &mut Counted::new(bytes.as_slice()))?;
    let job = Job {
        program,
        file,
        ..Job::none(alloc)
    };
    Ok(Whole { job, bytes })
}

// Lays out the program of the file that the words name, or of standard input. The job goes to `out`, or into its file, and what went
// wrong to `err`. Gives the exit status.
pub(crate) fn format_file<H: AllocGlobal + Files, R: Read + Drop, W: Write, E: Write>(
    rt: &H,
    matches: &ArgMatches<'_>,
    stdin: R,
    out: &mut Counted<W>,
    err: &mut Voice<'_, E>,
) -> u8 {
    let bytes = match read_bytes(rt, matches, stdin, err) {
        Ok(bytes) => bytes,
        Err(status) => return status,
    };
    let whole = match whole_of(rt.alloc(), bytes, file_of(matches)) {
        Ok(whole) => whole,
        Err(refusal) => return say_plainly(refusal, err),
    };
    match laid_out(rt.alloc(), &whole.job.program) {
        Ok(laid) => hand_out(rt, matches, &whole, &laid, out, err),
        Err(error) => say_no_layout(rt.alloc(), error, &whole.job, err),
    }
}

// Gives the program as it is laid out to where the words say, and gives the exit status.
fn hand_out<H: AllocGlobal + Files, W: Write, E: Write>(
    rt: &H,
    matches: &ArgMatches<'_>,
    whole: &Whole<'_>,
    laid: &[u8],
    out: &mut Counted<W>,
    err: &mut Voice<'_, E>,
) -> u8 {
    let checks = matches.get_flag("check");
    let writes = matches.get_flag("write");
    if (checks || writes) && whole.job.program.as_slice() == laid {
        return 0;
    }
    if checks {
        say_unlaid(rt.alloc(), &whole.job, laid, err)
    } else if writes {
        write_back(rt, whole, laid, err)
    } else if send(out, laid) && send(out, whole.rest()) {
        0
    } else {
        say_plainly(Refusal::Output, err)
    }
}

// Writes it into its file, and gives the exit status.
fn write_back<H: AllocGlobal + Files, E: Write>(
    rt: &H,
    whole: &Whole<'_>,
    laid: &[u8],
    err: &mut Voice<'_, E>,
) -> u8 {
    let Some(path) = whole.job.file else {
        let _ = err.say(NO_FILE);
        return Refusal::BadConfig.status();
    };
    match rewrite(rt, path, &[laid, whole.rest()]) {
        Ok(()) => 0,
        Err(_) => say(
            file_message(rt.alloc(), path, b"could not be written"),
            Refusal::Output.status(),
            err,
        ),
    }
}

// Says that a program is laid out otherwise, and where that begins.
fn say_unlaid<E: Write>(alloc: Global, job: &Job<'_>, laid: &[u8], err: &mut Voice<'_, E>) -> u8 {
    let at = first_difference(&job.program, laid);
    if say_place_in_program(alloc, job, at, err).is_err() {
        return say_plainly(Refusal::NoMemory, err);
    }
    let _ = err.say(UNLAID);
    UNLIKE
}

// Says why a text has no layout, and gives the exit status.
fn say_no_layout<E: Write>(
    alloc: Global,
    error: LayoutError,
    job: &Job<'_>,
    err: &mut Voice<'_, E>,
) -> u8 {
    let message = match error {
        LayoutError::Refused(refusal) => return say_refused(alloc, refusal, job, err),
        LayoutError::TooLong => TOO_LONG,
        LayoutError::Differs => DIFFERS,
    };
    let _ = err.say(message);
    UNLIKE
}
