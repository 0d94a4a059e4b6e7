// What is chosen where no option says it.

use crate::foretelling::{Foretold, explain_foretold, tells};
use crate::voice::Voice;
use crate::watching::is_watched;
use clap::{Arg, ArgAction, ArgMatches};
use std::alloc::{AllocError, Global};
use std::io::Write;

// What is told of the options, in this order: each has a name.
const TOLD: [&str; 6] = ["drive", "threads", "chunk", "capacity", "idle", "deal"];

// The capacities that are tried where none is given, while the program stalls. The first is in `choice_of`.
pub(crate) const GREATER: [usize; 3] = [4096, 16384, 65536];

// The first capacity where several threads run. They wait for one another less often over longer rings.
pub(crate) const FOR_THREADS: usize = 4096;

// Why it is chosen.
pub(crate) const REASON_FOR_THREADS: &str =
    "chosen, for threads; where the program stalls, 16384 and 65536 are tried";

// The option that asks what was chosen.
pub(crate) fn explain_word<'a>(alloc: Global) -> Arg<'a> {
    Arg::new(alloc, "explain")
        .long("explain")
        .action(ArgAction::SetTrue)
        .help("Says first what the job runs under, and why")
}

// Whether a capacity is given, so that no other is tried.
pub(crate) fn gives_capacity(matches: &ArgMatches<'_>) -> bool {
    matches.contains_id("capacity")
}

// What is chosen for an option that is not given. Where nothing is, it is as for `snesl`.
pub(crate) fn choice_of(name: &str, matches: &ArgMatches<'_>) -> Option<&'static str> {
    match name {
        "capacity" if asks_for_threads(matches) => Some("4096"),
        "capacity" => Some("1024"),
        "chunk" => Some("1024"),
        "drive" if speaks_of_threads(matches) || is_watched(matches) => Some("rings"),
        "drive" => Some("serial"),
        "threads" if is_watched(matches) && !speaks_of_threads(matches) => Some("1"),
        _ => None,
    }
}

// Whether an option is given that is for several threads alone.
pub(crate) fn speaks_of_threads(matches: &ArgMatches<'_>) -> bool {
    matches.contains_id("threads") || matches.contains_id("idle") || matches.contains_id("deal")
}

// Whether an option asks for several threads.
fn asks_for_threads(matches: &ArgMatches<'_>) -> bool {
    speaks_of_threads(matches) && matches.get_str("threads") != Some("1")
}

// Why that is chosen.
fn reason_of(name: &str, matches: &ArgMatches<'_>) -> &'static str {
    match name {
        "capacity" if asks_for_threads(matches) => REASON_FOR_THREADS,
        "capacity" => "chosen; where the program stalls, 4096, 16384 and 65536 are tried",
        "chunk" => "chosen; long visits of a node take the least time for each element",
        "drive" if speaks_of_threads(matches) => "chosen, since an option speaks of threads",
        "drive" if is_watched(matches) => "chosen, since `--watch` tells of turns of threads",
        "drive" => "chosen; no short run foretells that threads pay",
        _ => "chosen; one thread is faster than several that wait for one another",
    }
}

// Says what the job runs under, where that is asked for: each option that has a value, and whether it was given or foretold.
pub(crate) fn explain<E: Write>(
    alloc: Global,
    matches: &ArgMatches<'_>,
    foretold: Option<&Foretold>,
    err: &mut Voice<'_, E>,
) -> Result<(), AllocError> {
    if matches.get_flag("explain") {
        for name in TOLD {
            if let Some(value) = matches.get_str(name) {
                explain_one(alloc, name, value, "as given", err)?;
            } else if let Some(foretold) = foretold
                && tells(name, foretold)
            {
                explain_foretold(alloc, name, foretold, err)?;
            } else if let Some(value) = choice_of(name, matches) {
                explain_one(alloc, name, value, reason_of(name, matches), err)?;
            }
        }
    }
    Ok(())
}

// Says a line of it.
fn explain_one<E: Write>(
    alloc: Global,
    name: &str,
    value: &str,
    reason: &str,
    err: &mut Voice<'_, E>,
) -> Result<(), AllocError> {
    let mut line = Vec::from_slice(alloc, name.as_bytes())?;
    line.extend_from_slice(b" ")?;
    line.extend_from_slice(value.as_bytes())?;
    line.extend_from_slice(b": ")?;
    line.extend_from_slice(reason.as_bytes())?;
    line.extend_from_slice(b"\n")?;
    let _ = err.say(&line);
    Ok(())
}
