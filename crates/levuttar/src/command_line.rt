// The command line, by clap.

use crate::checking::check_command;
use crate::choosing::{choice_of, explain_word};
use crate::drawing::draw_command;
use crate::formatting::fmt_command;
use crate::sizing::size_command;
use crate::watching::watch_word;
use clap::{Arg, ArgMatches, Command};
use snesl_data::Refusal;
use snesl_run::{Config, settings};
use std::alloc::{AllocError, Global};

// The options that say settings. Each has a name, the word before its value, what that is, and a line of help.
pub(crate) const OPTIONS: [(&str, &str, &str, &str); 6] = [
    (
        "capacity",
        "--capacity",
        "MESSAGES",
        "How many messages an edge holds, 1 to 65536",
    ),
    (
        "chunk",
        "--chunk",
        "STEPS",
        "How many steps a visit of a node has, 1 to 1024",
    ),
    (
        "threads",
        "--threads",
        "THREADS",
        "How many threads there are, 1 to 16",
    ),
    (
        "idle",
        "--idle",
        "TURNS",
        "After how many turns without a step a thread\nends, 1 to 1000000",
    ),
    (
        "drive",
        "--drive",
        "DRIVE",
        "serial: in one thread; rounds: in threads,\nround after round; rings: in threads, over\nrings between them",
    ),
    (
        "deal",
        "--deal",
        "DIGITS",
        "Which thread has each node, in turn: 1 to 64\ndigits of 0..9 and a..f",
    ),
];

const VERSION: &str = "1.0";

// The command of the program, with its subcommands.
pub(crate) fn command<'a>(alloc: Global) -> Result<Command<'a>, AllocError> {
    Command::new(alloc, "levuttar")
        .bin_name("levuttar")?
        .about("Runs programs of Streaming NESL, and says in words what goes wrong")
        .version(VERSION)
        .after_help("Example: echo 'reduce_add({x * x : x in iota(4)})' | levuttar run")
        .subcommand_required(true)
        .arg_required_else_help(true)
        .subcommand(run_command(alloc)?)?
        .subcommand(check_command(alloc)?)?
        .subcommand(fmt_command(alloc)?)?
        .subcommand(size_command(alloc)?)?
        .subcommand(draw_command(alloc)?)
}

const RUNS: &str = "A job is a program, a line `---`, and its input text. What no option says is
chosen: two or four threads where a short run foretells that they pay, and else
one; 1024 steps a visit; 1024 messages an edge, 4096 where several threads run,
and more of them where the program stalls.

Example: levuttar run --explain examples/primes.snesl";

// The subcommand `run`.
fn run_command<'a>(alloc: Global) -> Result<Command<'a>, AllocError> {
    let run = Command::new(alloc, "run")
        .about("Runs a job: prints its value, or says what went wrong and where")
        .after_help(RUNS);
    with_settings(alloc, run)?
        .arg(explain_word(alloc))?
        .arg(watch_word(alloc))?
        .arg(file_word(alloc))
}

// The command with the options that say settings.
pub(crate) fn with_settings<'a>(
    alloc: Global,
    command: Command<'a>,
) -> Result<Command<'a>, AllocError> {
    let mut command = command;
    for (name, _, value, help) in OPTIONS {
        command = command.arg(
            Arg::new(alloc, name)
                .long(name)
                .value_name(value)
                .help(help),
        )?;
    }
    Ok(command)
}

// The word that names the file of a job.
pub(crate) fn file_word<'a>(alloc: Global) -> Arg<'a> {
    Arg::new(alloc, "file")
        .value_name("FILE")
        .help("The job; without it or for `-`, standard input")
}

// The configuration that the words say. What they do not say is chosen.
pub(crate) fn config_of(alloc: Global, matches: &ArgMatches<'_>) -> Result<Config, Refusal> {
    let mut words = vec![in alloc; "levuttar"]?;
    for (name, word, _, _) in OPTIONS {
        if let Some(value) = value_of(name, matches) {
            words.push(word)?;
            words.push(value)?;
        }
    }
    settings(alloc, &words)
}

// The value that an option has, by a word or by choice.
fn value_of<'a>(name: &str, matches: &ArgMatches<'a>) -> Option<&'a str> {
    match matches.get_str(name) {
        Some(value) => Some(value),
        None => choice_of(name, matches),
    }
}
