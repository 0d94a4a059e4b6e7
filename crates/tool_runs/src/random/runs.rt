// Programs by plain evaluation, by the drives of several threads and by schedules.

ghost use Rattle.std.specs.Prelude.{◌<◌, ◌≤◌};
ghost use Rattle.flow_messages.specs.Limits.{greatest_capacity};

use crate::endings::Endings;
use crate::random::replays::{Replay, random_schedule};
use flow_drives::{Config, Drive, Outcome};
use snesl_data::{Counted, Refusal};
use snesl_generator::dice::Dice;
use snesl_run::console::split_job;
use snesl_trials::{Done, Expected, in_one_thread, ran};
use std::alloc::{AllocError, Global};
use std::fmt;
use std::thread::Threads;

// The drives that are compared.
const DRIVES: [Drive; 2] = [Drive::Rounds, Drive::Rings];

// How many configurations a program is run under, by each drive.
const CONFIGS: usize = 3;

// How many messages the widest edges hold, which most programs do not fill.
const WIDE: usize = 256;

// The most steps of a visit in one thread.
const CHUNK: usize = 16;

// A program that sends more messages in all is run no further.
const MANY: u64 = 3_000;

/// Why the trial of a program ended early.
#[derive(Drop)]
pub enum Failure {
    /// A run ended otherwise than it is to; what is said of it.
    Differs(String),
    /// Memory was refused.
    NoMemory,
}

impl From<AllocError> for Failure {
    fn from(_: AllocError) -> Failure {
        Failure::NoMemory
    }
}

/// How many programs were run, and how their runs ended.
#[derive(Clone, Copy, Debug)]
pub struct Totals {
    /// How many programs were run.
    pub programs: usize,
    second: usize,
    endings: Endings,
    long: usize,
    replays: usize,
}

impl fmt::Display for Totals {
    fn fmt<W: fmt::Write>(&self, f: &mut fmt::Formatter<W>) -> fmt::Result {
        let (programs, second) = (self.programs, self.second);
        let (endings, long, replays) = (self.endings, self.long, self.replays);
        write!(
            f,
            "{programs} programs, {second} of the second dialect, in {endings}, {long} run once for their length, {replays} replays by schedules"
        )
    }
}

// A program, and what it evaluates to.
#[derive(Clone, Copy)]
struct Case<'a> {
    program: &'a [u8],
    input: &'a [u8],
    expected: &'a Expected,
}

impl Totals {
    /// No run.
    pub fn none() -> Totals {
        Totals {
            programs: 0,
            second: 0,
            endings: Endings::none(),
            long: 0,
            replays: 0,
        }
    }

    /// Runs the program of a job by plain evaluation, by one thread, by the drives of several threads under random
    /// configurations, and by random schedules. The error is that a run ends otherwise than it is to, or that memory was
    /// refused.
    pub fn add(
        &mut self,
        rt: &impl Threads,
        alloc: Global,
        dice: &mut Dice,
        job: &str,
    ) -> Result<(), Failure> {
        let (program, input) = split_job(alloc, &mut Counted::new(job.as_bytes())).map_err(
            |_| Failure::NoMemory,
        )?;
        self.programs = self.programs.saturating_add(1);
        if job.starts_with("dialect 2;") {
            self.second = self.second.saturating_add(1);
        }
        match Expected::of(alloc, &program, &input) {
            Ok(expected) => {
                let case = Case {
                    program: &program,
                    input: &input,
                    expected: &expected,
                };
                self.add_case(rt, alloc, dice, case)
            }
            Err(refusal) => Err(refused(alloc, refusal)),
        }
    }

    // Runs a program over wide edges, in one thread and by a schedule, and then by the drives of several threads if it is
    // not too long.
    fn add_case(
        &mut self,
        rt: &impl Threads,
        alloc: Global,
        dice: &mut Dice,
        case: Case<'_>,
    ) -> Result<(), Failure> {
        let config = in_one_thread(alloc, WIDE, CHUNK)?;
        let wide = self.ran(rt, alloc, case, &config)?;
        if wide.ending == Err(Refusal::TooBig) && wide.written.is_empty() {
            return Ok(());
        }
        check(alloc, case, &wide, &config, &wide)?;
        self.replay(alloc, dice, case, WIDE, &wide)?;
        if wide.messages() > MANY {
            self.long = self.long.saturating_add(1);
            return Ok(());
        }
        for _ in 0..CONFIGS {
            self.compare(rt, alloc, dice, case, &wide)?;
        }
        Ok(())
    }

    // Runs a program over edges of some capacity, by one thread, by a schedule and by the drives of several threads.
    fn compare(
        &mut self,
        rt: &impl Threads,
        alloc: Global,
        dice: &mut Dice,
        case: Case<'_>,
        wide: &Done,
    ) -> Result<(), Failure> {
        let capacity = random_capacity(dice);
        let config = in_one_thread(alloc, capacity, CHUNK)?;
        let first = self.ran(rt, alloc, case, &config)?;
        check(alloc, case, wide, &config, &first)?;
        self.replay(alloc, dice, case, capacity, &first)?;
        for drive in &DRIVES {
            let config = random_config(alloc, dice, *drive, capacity)?;
            let done = self.ran(rt, alloc, case, &config)?;
            if done != first {
                return Err(difference(alloc, case, wide, &config, &done));
            }
        }
        Ok(())
    }

    // Settles the network of a program by a random schedule, which is to end as one thread did over edges of the same
    // capacity.
    fn replay(
        &mut self,
        alloc: Global,
        dice: &mut Dice,
        case: Case<'_>,
        capacity: usize,
        first: &Done,
    ) -> Result<(), Failure>
        requires some { 0 < capacity }
        requires limit { capacity ≤ greatest_capacity }
    {
        self.replays = self.replays.saturating_add(1);
        let schedule = random_schedule(alloc, dice, first.nodes)?;
        match Replay::of(alloc, case.program, case.input, capacity, &schedule) {
            Ok(replay) if replay.is_as(first) => Ok(()),
            Ok(replay) => Err(unlike(alloc, capacity, first, &schedule, &replay)),
            Err(refusal) => Err(refused(alloc, refusal)),
        }
    }

    // Runs a program, and counts the run.
    fn ran(
        &mut self,
        rt: &impl Threads,
        alloc: Global,
        case: Case<'_>,
        config: &Config,
    ) -> Result<Done, AllocError> {
        let done = ran(rt, alloc, case.program, case.input, config)?;
        self.endings.count(&done);
        Ok(done)
    }
}

// Whether a run in one thread ends as it may: as evaluation allows, and in a stall only where some edge cannot hold all.
fn check(
    alloc: Global,
    case: Case<'_>,
    wide: &Done,
    config: &Config,
    done: &Done,
) -> Result<(), Failure> {
    let answered = match done.ending {
        Ok(Outcome::Stalled { .. }) => may_stall(wide, config.capacity),
        Ok(_) => true,
        Err(_) => false,
    };
    if answered && case.expected.allows(done) {
        Ok(())
    } else {
        Err(difference(alloc, case, wide, config, done))
    }
}

// Whether more goes over some edge than it can hold. Over the widest edges no more is seen than these hold.
fn may_stall(wide: &Done, capacity: usize) -> bool {
    let most = wide.most();
    most > capacity as u64 || most >= WIDE as u64
}

// What is said of a program that is refused, unless memory was.
fn refused(alloc: Global, refusal: Refusal) -> Failure {
    if refusal == Refusal::NoMemory {
        return Failure::NoMemory;
    }
    match format!(in alloc; "refused: {refusal:?}") {
        Ok(text) => Failure::Differs(text),
        Err(_) => Failure::NoMemory,
    }
}

// What is said of a run that ends otherwise.
fn difference(alloc: Global, case: Case<'_>, wide: &Done, config: &Config, done: &Done) -> Failure {
    let expected = case.expected;
    let text = format!(in alloc;
        "evaluation gives {expected}\none thread over edges of {WIDE} gives {wide}\n{config:?}\ngives {done}"
    );
    match text {
        Ok(text) => Failure::Differs(text),
        Err(_) => Failure::NoMemory,
    }
}

// What is said of a schedule that ends otherwise than one thread did.
fn unlike(
    alloc: Global,
    capacity: usize,
    first: &Done,
    schedule: &[usize],
    replay: &Replay,
) -> Failure {
    let (nodes, counts) = (first.nodes, &first.counts);
    let text = format!(in alloc;
        "over edges of {capacity} one thread gives {first}, {nodes} nodes, {counts:?}\nthe schedule {schedule:?}\ngives {replay}"
    );
    match text {
        Ok(text) => Failure::Differs(text),
        Err(_) => Failure::NoMemory,
    }
}

// A capacity from 1 to 8, or a wide one.
fn random_capacity(dice: &mut Dice) -> usize
    ensures some { 0 < result }
    ensures limit { result ≤ greatest_capacity }
{
    match dice.below(9) {
        0 => WIDE,
        small => small,
    }
}

// A drive of one to four threads over edges of this capacity, with a random list of one to eight shares.
fn random_config(
    alloc: Global,
    dice: &mut Dice,
    drive: Drive,
    capacity: usize,
) -> Result<Config, AllocError> {
    let chunk = if dice.once_in(2) { 1 } else { 16 };
    let idle = if dice.once_in(2) { 1 } else { 64 };
    let threads = dice.below(4).saturating_add(1);
    Ok(Config {
        capacity,
        chunk,
        threads,
        idle,
        share: random_shares(alloc, dice, threads)?,
        drive,
    })
}

// A list of one to eight shares of so many.
fn random_shares(alloc: Global, dice: &mut Dice, threads: usize) -> Result<Vec<u8>, AllocError> {
    let mut share = Vec::new(alloc);
    for _ in 0..dice.below(8).saturating_add(1) {
        let thread = u8::try_from(dice.below(threads)).unwrap_or(0);
        share.push(thread)?;
    }
    Ok(share)
}
