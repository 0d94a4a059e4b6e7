// How much the edges of a program must hold: `levuttar size`, and what `levuttar run` tells of a stall.

use crate::command_line::{config_of, file_word};
use crate::reading::{Job, read_job};
use crate::saying::{print, say, say_fault, say_refused};
use crate::voice::Voice;
use clap::{Arg, ArgMatches, Command};
use snesl_data::{Counted, Refusal};
use snesl_look::{Enough, stalled_message};
use snesl_size::{Size, least_capacity, size_table};
use std::alloc::{AllocError, Global};
use std::io::{Read, Write};
use std::rt::Files;
use std::thread::Threads;

const SIZES: &str = "A job is a program, a line `---`, and its input text. It is driven in one
thread, at capacities up to 65536.

Example: levuttar size examples/primes.snesl";

// The subcommand `size`.
pub(crate) fn size_command<'a>(alloc: Global) -> Result<Command<'a>, AllocError> {
    Command::new(alloc, "size")
        .about("Tells the least capacity at which a job ends, and its network's size")
        .after_help(SIZES)
        .arg(
            Arg::new(alloc, "chunk")
                .long("chunk")
                .value_name("STEPS")
                .help("How many steps a visit of a node has, 1 to 1024"),
        )?
        .arg(file_word(alloc))
}

// Tells the size of the job of the file that the words name, or of standard input. The table goes to `out`, and what went wrong
// to `err`. Gives the exit status.
pub(crate) fn size_file<H: AllocGlobal + Files + Threads, R: Read + Drop, W: Write, E: Write>(
    rt: &H,
    matches: &ArgMatches<'_>,
    stdin: R,
    out: &mut Counted<W>,
    err: &mut Voice<'_, E>,
) -> u8 {
    let alloc = rt.alloc();
    let chunk = match config_of(alloc, matches) {
        Ok(config) => config.chunk,
        Err(refusal) => return say_refused(alloc, refusal, &Job::none(alloc), err),
    };
    let job = match read_job(rt, matches, stdin, err) {
        Ok(job) => job,
        Err(status) => return status,
    };
    match least_capacity(rt, alloc, &job.program, &job.input, chunk) {
        Ok(
            Size::Ends {
                least,
                full,
                rested,
            },
        ) => print(size_table(alloc, least, full, &rested), 0, out, err),
        Ok(Size::Faults(fault)) => say_fault(alloc, fault, &job, err),
        Ok(Size::NeverEnds) => say(
            stalled_message(alloc, &job.program, None, Enough::Nothing),
            3,
            err,
        ),
        Err(refusal) => say_refused(alloc, refusal, &job, err),
    }
}

// What is known of how many messages are enough for a program that has stalled.
pub(crate) fn enough(
    rt: &impl Threads,
    alloc: Global,
    program: &[u8],
    input: &[u8],
    chunk: usize,
) -> Enough {
    match least_capacity(rt, alloc, program, input, chunk) {
        Ok(Size::Ends { least, .. }) => Enough::Messages(least),
        Ok(Size::Faults(_)) => Enough::Fault,
        Ok(Size::NeverEnds) => Enough::Nothing,
        Err(_) => Enough::Unknown,
    }
}
