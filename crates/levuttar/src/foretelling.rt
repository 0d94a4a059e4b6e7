// Threads, where no option speaks of them and a short run foretells that they pay.

use crate::choosing::{FOR_THREADS, REASON_FOR_THREADS, gives_capacity, speaks_of_threads};
use crate::dealing::say_shares;
use crate::reading::Job;
use crate::voice::Voice;
use crate::watching::is_watched;
use clap::ArgMatches;
use flow_dealing::{Choice, LONG, SHORT, choose_threads, is_sooner, try_out};
use snesl_data::Refusal;
use snesl_flatten::flatten;
use snesl_run::{Config, Drive};
use snesl_syntax::parse;
use snesl_types::check;
use snesl_values::read_inputs;
use std::alloc::{AllocError, Global};
use std::io::Write;
use std::thread::{self, Threads};

// How many threads are thought to run side by side where the system does not tell.
const UNTOLD: usize = 4;

// The longest input text, in bytes, that is read once more for a short run: to read a longer one takes more than threads save.
const LONGEST_INPUT: usize = 1_048_576;

// What a short run foretells.
#[derive(Drop)]
pub(crate) struct Foretold {
    // How many messages it counted.
    messages: u64,
    // What is chosen by them; nothing where the job ended with so few that one thread takes under ten milliseconds.
    choice: Option<Choice>,
}

// Whether no option says how the nodes are driven, so that a short run does.
pub(crate) fn is_foretold(matches: &ArgMatches<'_>) -> bool {
    !matches.contains_id("drive") && !speaks_of_threads(matches) && !is_watched(matches)
}

// Lets threads run the job where no option says how, and a short run foretells that they pay. What is wrong with the job, or
// refused by the system, is left for the run to say.
pub(crate) fn foretell(
    rt: &impl Threads,
    alloc: Global,
    matches: &ArgMatches<'_>,
    job: &Job<'_>,
    config: &mut Config,
) -> Option<Foretold> {
    if !is_foretold(matches) || job.input.len() > LONGEST_INPUT {
        return None;
    }
    let most = match thread::available_parallelism(rt) {
        Ok(most) => most.get(),
        Err(_) => UNTOLD,
    };
    let foretold = foretold_of(alloc, job, config, most).ok()?;
    if let Some(choice) = &foretold.choice
        && choice.threads > 1
    {
        config.share = choice.share.clone().ok()?;
        config.threads = choice.threads;
        config.drive = Drive::Rings;
        if !gives_capacity(matches) {
            config.capacity = FOR_THREADS;
        }
    }
    Some(foretold)
}

// What short runs foretell. A second one goes on until it is known whether the job takes long; it is made only where threads would be
// sooner.
fn foretold_of(
    alloc: Global,
    job: &Job<'_>,
    config: &Config,
    most: usize,
) -> Result<Foretold, Refusal> {
    let first = foretold_by(alloc, job, config, most, SHORT)?;
    let times = match &first.choice {
        Some(choice) if would_be_sooner(choice) => LONG / choice.alone.max(1),
        _ => 0,
    };
    if times == 0 {
        return Ok(first);
    }
    // As many messages as take a quarter longer, if all are like the first ones.
    let times = times.saturating_add(times / 4).saturating_add(1);
    let messages = first.messages.saturating_mul(times);
    foretold_by(alloc, job, config, most, messages)
}

// Whether two threads or four take so little time that they pay, where the job takes long.
fn would_be_sooner(choice: &Choice) -> bool {
    is_sooner(choice.alone, choice.two) || is_sooner(choice.alone, choice.four)
}

// What a run foretells that is left after so many messages.
fn foretold_by(
    alloc: Global,
    job: &Job<'_>,
    config: &Config,
    most: usize,
    messages: u64,
) -> Result<Foretold, Refusal> {
    if !config.lawful() {
        return Err(Refusal::BadConfig);
    }
    let program = parse(alloc, &job.program)?;
    let typed = check(alloc, &program)?;
    let inputs = read_inputs(typed.dialect(), alloc, typed.decls(), &job.input)?;
    let plan = flatten(alloc, &typed)?;
    let graph = plan.with(inputs)?;
    let tried = try_out(alloc, graph, config.capacity, messages)?;
    let choice = if tried.messages < SHORT {
        None
    } else {
        Some(choose_threads(alloc, &tried, most)?)
    };
    Ok(Foretold {
        messages: tried.messages,
        choice,
    })
}

// Whether a short run foretells something of this option.
pub(crate) fn tells(name: &str, foretold: &Foretold) -> bool {
    match (name, &foretold.choice) {
        ("capacity", Some(choice)) => choice.threads > 1,
        _ => matches!(name, "drive" | "threads" | "idle" | "deal"),
    }
}

// Tells what a short run foretells of an option, where it does.
pub(crate) fn explain_foretold<E: Write>(
    alloc: Global,
    name: &str,
    foretold: &Foretold,
    err: &mut Voice<'_, E>,
) -> Result<(), AllocError> {
    let messages = foretold.messages;
    match &foretold.choice {
        Some(choice) if name == "drive" => explain_drive(alloc, messages, choice, err),
        Some(choice) if choice.threads > 1 => explain_threads(alloc, name, choice, err),
        None if name == "drive" => {
            let line = format!(in alloc;
                "drive serial: chosen; a short run ended with the job after {messages} messages, too few for threads\n"
            )?;
            let _ = err.say(line.as_bytes());
            Ok(())
        }
        _ => Ok(()),
    }
}

// Tells how many threads are chosen, and the share of each node.
fn explain_threads<E: Write>(
    alloc: Global,
    name: &str,
    choice: &Choice,
    err: &mut Voice<'_, E>,
) -> Result<(), AllocError> {
    let threads = choice.threads;
    if name == "threads" {
        let line = format!(in alloc;
            "threads {threads}: chosen, since least is foretold of them\n"
        )?;
        let _ = err.say(line.as_bytes());
    }
    if name == "capacity" {
        let line = format!(in alloc; "capacity {FOR_THREADS}: {REASON_FOR_THREADS}\n")?;
        let _ = err.say(line.as_bytes());
    }
    if name == "deal" {
        let reason = b": chosen, so that the busiest thread has little to do\n";
        say_shares(alloc, &choice.share, reason, err)?;
    }
    Ok(())
}

// Tells the drive that is chosen, and why.
fn explain_drive<E: Write>(
    alloc: Global,
    messages: u64,
    choice: &Choice,
    err: &mut Voice<'_, E>,
) -> Result<(), AllocError> {
    let drive = if choice.threads > 1 {
        "rings"
    } else {
        "serial"
    };
    let of_two = ratio(alloc, choice.two, choice.alone)?;
    let of_four = ratio(alloc, choice.four, choice.alone)?;
    let but = reason_against(choice);
    let line = format!(in alloc;
        "drive {drive}: chosen; by {messages} messages of a short run 2 threads take {of_two} times as long as one, 4 threads {of_four}{but}\n"
    )?;
    let _ = err.say(line.as_bytes());
    Ok(())
}

// Why there is one thread though several would be sooner.
fn reason_against(choice: &Choice) -> &'static str {
    if choice.threads > 1 || !would_be_sooner(choice) {
        ""
    } else if choice.alone <= LONG {
        "; but one takes under 10 milliseconds"
    } else {
        "; but so many do not run side by side here"
    }
}

// How many times as long it takes, with two digits behind the point.
fn ratio(alloc: Global, beside: u64, alone: u64) -> Result<String, AllocError> {
    let hundredths = beside.saturating_mul(100) / alone.max(1);
    let (whole, part) = (hundredths / 100, hundredths % 100);
    format!(in alloc; "{whole}.{part:02}")
}
