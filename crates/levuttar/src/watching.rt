// A line that says that a run goes on.

use clap::{Arg, ArgAction, ArgMatches};
use snesl_data::{Counted, Refusal};
use snesl_run::console::send;
use snesl_run::{Config, Gate, Report, RunError, run};
use std::alloc::Global;
use std::io::Write;
use std::rt::Clock;
use std::sync::Arc;
use std::sync::atomic::{AtomicU64, Ordering};
use std::thread::Threads;

// The clock is read before each turn that has a multiple of this number.
const BETWEEN_LOOKS: u64 = 64;

// What a gate that watches keeps: how many turns all threads made, and the second in which it last wrote.
#[derive(Drop)]
pub(crate) struct Watch<R> {
    rt: R,
    // Whether standard error is a terminal, where the line can be written anew.
    on_terminal: bool,
    turns: AtomicU64,
    second: AtomicU64,
    lines: AtomicU64,
}

// The option that asks for it.
pub(crate) fn watch_word<'a>(alloc: Global) -> Arg<'a> {
    Arg::new(alloc, "watch")
        .long("watch")
        .action(ArgAction::SetTrue)
        .help("Says each second how many turns the threads\nhave made")
}

// Whether it is asked for.
pub(crate) fn is_watched(matches: &ArgMatches<'_>) -> bool {
    matches.get_flag("watch")
}

impl<R: Clock + Eprint> Watch<R> {
    // A gate that has seen no turn. It writes nothing in the second in which it is made.
    fn new(rt: R, on_terminal: bool) -> Watch<R> {
        let second = second_of(&rt);
        Watch {
            rt,
            on_terminal,
            turns: AtomicU64::new(0),
            second: AtomicU64::new(second),
            lines: AtomicU64::new(0),
        }
    }

    // Writes the line, on a terminal anew, where another second has begun.
    fn look(&self, turns: u64) {
        let second = second_of(&self.rt);
        if self.second.swap(second, Ordering::SeqCst) != second {
            self.lines.fetch_add(1, Ordering::SeqCst);
            let _ = if self.on_terminal {
                eprint!(self.rt; "\rturns: {turns}")
            } else {
                eprintln!(self.rt; "turns: {turns}")
            };
        }
    }

    // Ends the line, where one was written and is not ended.
    fn end(&self) {
        if self.on_terminal && self.lines.load(Ordering::SeqCst) > 0 {
            let _ = eprintln!(self.rt);
        }
    }
}

impl<R: Clock + Eprint> Gate for Watch<R> {
    fn turn(&self, _: usize, _: usize) {
        let turns = self.turns.fetch_add(1, Ordering::SeqCst);
        if turns % BETWEEN_LOOKS == 0 {
            self.look(turns);
        }
    }
}

// The second that the clock shows; 0 where it shows none.
fn second_of(rt: &impl Clock) -> u64 {
    match rt.monotonic() {
        Ok(time) => time.as_secs(),
        Err(_) => 0,
    }
}

// Runs a program with a gate that watches. The value is written after the end of its line.
pub(crate) fn run_watched<
    H: Threads + Clock + Eprint + Clone + Drop + Send + Sync + 'static,
    W: Write,
>(
    rt: &H,
    alloc: Global,
    program: &[u8],
    input: &[u8],
    config: &Config,
    on_terminal: bool,
    out: &mut Counted<W>,
) -> Result<Report, RunError> {
    let Ok(own) = rt.clone() else {
        return Err(RunError::from(Refusal::NoMemory));
    };
    let Ok(gate) = Arc::new(alloc, Watch::new(own, on_terminal)) else {
        return Err(RunError::from(Refusal::NoMemory));
    };
    let Ok(watch) = Arc::try_clone(&gate) else {
        return Err(RunError::from(Refusal::NoMemory));
    };
    let mut line = Counted::new(Vec::new(alloc));
    let report = run(rt, alloc, program, input, config, gate, &mut line);
    watch.end();
    let report = report?;
    if send(out, &line.into_inner()) {
        Ok(report)
    } else {
        Err(RunError::from(Refusal::Output))
    }
}
