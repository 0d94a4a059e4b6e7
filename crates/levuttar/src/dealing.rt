// Dealing the nodes of a job's network to threads.

use crate::foretelling::is_foretold;
use crate::reading::Job;
use crate::voice::Voice;
use clap::ArgMatches;
use flow_dealing::{Dealing, deal_by_trial};
use snesl_data::Refusal;
use snesl_flatten::flatten;
use snesl_run::{Config, Drive};
use snesl_syntax::parse;
use snesl_types::check;
use snesl_values::read_inputs;
use std::alloc::{AllocError, Global};
use std::io::Write;

// The digits that name shares. An option can name so many of them, and no more are told.
const DIGITS: &[u8; 16] = b"0123456789abcdef";

const MOST_DIGITS: usize = 64;

// Deals the nodes by a cut, where an option has several threads run and none deals them, and tells of it where that is asked for.
// What is wrong with the job, or refused by the system, is left for the run to say.
pub(crate) fn deal_out<E: Write>(
    alloc: Global,
    matches: &ArgMatches<'_>,
    job: &Job<'_>,
    config: &mut Config,
    err: &mut Voice<'_, E>,
) -> Result<(), AllocError> {
    if matches.contains_id("deal")
        || config.drive == Drive::Serial
        || config.threads == 1
        || is_foretold(matches)
    {
        return Ok(());
    }
    let Ok(dealing) = dealing_of(alloc, job, config) else {
        return Ok(());
    };
    if matches.get_flag("explain") {
        explain_dealing(alloc, &dealing, err)?;
    }
    config.share = dealing.share;
    Ok(())
}

// The dealing of the network of a job.
fn dealing_of(alloc: Global, job: &Job<'_>, config: &Config) -> Result<Dealing, Refusal> {
    if !config.lawful() {
        return Err(Refusal::BadConfig);
    }
    let program = parse(alloc, &job.program)?;
    let typed = check(alloc, &program)?;
    let inputs = read_inputs(typed.dialect(), alloc, typed.decls(), &job.input)?;
    let plan = flatten(alloc, &typed)?;
    let graph = plan.with(inputs)?;
    Ok(deal_by_trial(alloc, graph, config.capacity, config.threads)?)
}

// Tells the share of each node, and how much of the work a thread has.
fn explain_dealing<E: Write>(
    alloc: Global,
    dealing: &Dealing,
    err: &mut Voice<'_, E>,
) -> Result<(), AllocError> {
    let most = in_hundred(dealing.load, dealing.work);
    let most_by_turns = in_hundred(dealing.by_turns, dealing.work);
    let reason = format!(in alloc;
        ": chosen by a short run; the busiest thread has {most} in 100 of the work, {most_by_turns} by turns\n"
    )?;
    say_shares(alloc, &dealing.share, reason.as_bytes(), err)
}

// Tells the share of each node, and why.
pub(crate) fn say_shares<E: Write>(
    alloc: Global,
    shares: &[u8],
    reason: &[u8],
    err: &mut Voice<'_, E>,
) -> Result<(), AllocError> {
    let mut line = Vec::from_slice(alloc, b"deal ")?;
    for &share in shares.iter().take(MOST_DIGITS) {
        line.push(DIGITS[share as usize % 16])?;
    }
    if shares.len() > MOST_DIGITS {
        line.extend_from_slice(b"..")?;
    }
    line.extend_from_slice(reason)?;
    let _ = err.say(&line);
    Ok(())
}

// How many of a hundred parts of the work this is.
fn in_hundred(load: u64, work: u64) -> u64 {
    load.saturating_mul(100) / work.max(1)
}
