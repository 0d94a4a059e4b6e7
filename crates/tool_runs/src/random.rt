// Makes random programs, and runs each by plain evaluation, by the drives and by schedules, which are to agree.
//
// With no further word on the command line the programs are those of a fixed seed, few enough to be quick, and each build
// prints the same line. `--seconds N` goes on for so many seconds, from the seed that the clock gives or that `--seed S` tells.
// The first program of which a run ends otherwise is printed with its seed, and then the status is 1. Program number k of
// a seed S is the first of the seed S + k.

mod replays;
mod runs;

use anyhow::{Result, bail};
use runs::{Failure, Totals};
use snesl_generator::dice::Dice;
use snesl_generator::random_job;
use std::alloc::Global;
use std::rt::Clock;
use std::thread::Threads;
use std::time::{Instant, SystemTime, UNIX_EPOCH};

// The seed with no word, and how many programs there are then.
const SEED: u64 = 1;

const PROGRAMS: u64 = 40;

/// For how many seconds programs are run, and from which seed.
#[derive(Clone, Copy)]
pub struct Wish {
    pub seconds: Option<u64>,
    pub seed: Option<u64>,
}

impl Wish {
    /// What no word says.
    pub fn usual() -> Wish {
        Wish {
            seconds: None,
            seed: None,
        }
    }
}

/// Tries programs as is wished.
pub fn try_programs<R: Print + Clock + AllocGlobal + Threads>(rt: &R, wish: Wish) -> Result<()> {
    match wish.seconds {
        None => try_some(rt, wish.seed.unwrap_or(SEED)),
        Some(seconds) => {
            let seed = match wish.seed {
                Some(seed) => seed,
                None => clock_seed(rt)?,
            };
            try_for(rt, seed, seconds)
        }
    }
}

/// Prints the job of a seed, or nothing where it would be too long.
pub fn print_job<R: Print + AllocGlobal>(rt: &R, seed: u64) -> Result<()> {
    if let Some(text) = random_job(rt.alloc(), seed)? {
        print!(rt; "{text}")?;
    }
    Ok(())
}

// Tries so many programs as are quick.
fn try_some<R: Print + AllocGlobal + Threads>(rt: &R, seed: u64) -> Result<()> {
    let mut totals = Totals::none();
    for number in 0..PROGRAMS {
        try_one(rt, &mut totals, seed.wrapping_add(number))?;
    }
    println!(rt; "{totals}, none differs")?;
    Ok(())
}

// Tries programs until so many seconds have passed.
fn try_for<R: Print + Clock + AllocGlobal + Threads>(
    rt: &R,
    seed: u64,
    seconds: u64,
) -> Result<()> {
    let mut totals = Totals::none();
    let start = Instant::now(rt)?;
    for number in 0..u64::MAX {
        if start.elapsed(rt)?.as_secs() >= seconds {
            break;
        }
        try_one(rt, &mut totals, seed.wrapping_add(number))?;
    }
    let passed = u64::try_from(start.elapsed(rt)?.as_millis()).unwrap_or(u64::MAX);
    let programs = totals.programs as u64;
    let rate = programs.saturating_mul(60_000) / passed.max(1);
    println!(rt; "{totals}, none differs; {rate} programs a minute from seed {seed}")?;
    Ok(())
}

// Tries the program of a seed. Where a run ends otherwise than it is to, it is said which, and that is an error.
fn try_one<R: Print + AllocGlobal + Threads>(rt: &R, totals: &mut Totals, seed: u64) -> Result<()> {
    let Some(text) = random_job(rt.alloc(), seed)? else {
        return Ok(());
    };
    match tried(rt, rt.alloc(), totals, seed, text.as_str()) {
        Ok(()) => Ok(()),
        Err(Failure::NoMemory) => bail!("out of memory"),
        Err(Failure::Differs(difference)) => {
            println!(rt; "the job of seed {seed}:\n{text}\n{difference}")?;
            bail!("a run differs")
        }
    }
}

// Tries a job, under configurations that are random too.
fn tried(
    rt: &impl Threads,
    alloc: Global,
    totals: &mut Totals,
    seed: u64,
    job: &str,
) -> Result<(), Failure> {
    let mut dice = Dice::new(seed.wrapping_add(u64::MAX / 2));
    totals.add(rt, alloc, &mut dice, job)
}

// The seconds since 1970.
fn clock_seed(rt: &impl Clock) -> Result<u64> {
    match SystemTime::now(rt)?.duration_since(UNIX_EPOCH) {
        Ok(passed) => Ok(passed.as_secs()),
        Err(_) => bail!("the clock stands before 1970"),
    }
}
