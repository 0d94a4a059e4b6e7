// Programs by each drive, at several numbers of threads and capacities. A line for each run goes to standard error: what an element
// takes, how many rounds or epochs the run had, and how long the threads of so many take that have nothing to do. What the programs
// print goes to standard output.

use crate::figures::programs::{Program, deep, squares, wide};
use crate::figures::rounds::idle_rounds;
use anyhow::{Result, bail, ensure};
use flow_drives::{Config, Drive, NoGate};
use snesl_data::Counted;
use snesl_run::{Report, RunError, run};
use std::alloc::{AllocError, Global};
use std::rt::Clock;
use std::sync::Arc;
use std::thread::Threads;
use std::time::{Duration, Instant};

/// Runs each program over so many elements by each drive.
pub fn time_drives<R: Print + Eprint + Clock + AllocGlobal + Threads>(
    rt: &R,
    count: u64,
) -> Result<()> {
    time_program(rt, &squares(rt.alloc(), count)?)?;
    time_program(rt, &wide(rt.alloc(), count)?)?;
    time_program(rt, &deep(rt.alloc(), count)?)
}

// Runs a program by each drive, and prints what it wrote.
fn time_program<R: Print + Eprint + Clock + AllocGlobal + Threads>(
    rt: &R,
    program: &Program,
) -> Result<()> {
    for capacity in [256, 4_096] {
        let line = line_at(rt, program, capacity)?;
        let value = line.as_slice().trim_ascii_end();
        println!(rt;
            "{}, capacity {capacity}: {}",
            program.name,
            value.escape_ascii()
        )?;
    }
    Ok(())
}

// Runs a program by each drive over edges of this capacity. The line that it wrote, which is to be the same each time.
fn line_at<R: Eprint + Clock + AllocGlobal + Threads>(
    rt: &R,
    program: &Program,
    capacity: usize,
) -> Result<Vec<u8>> {
    let line = measured(rt, program, Drive::Serial, 1, capacity)?;
    for threads in [1, 2, 4] {
        for drive in [Drive::Rounds, Drive::Rings] {
            let same = measured(rt, program, drive, threads, capacity)?;
            ensure!(same == line, "drives differ");
        }
    }
    Ok(line)
}

// Runs a program once, says what it took, and gives the line that it wrote.
fn measured<R: Eprint + Clock + AllocGlobal + Threads>(
    rt: &R,
    program: &Program,
    drive: Drive,
    threads: u8,
    capacity: usize,
) -> Result<Vec<u8>> {
    let config = config(rt.alloc(), drive, threads, capacity)?;
    let mut out = Counted::new(Vec::new(rt.alloc()));
    let (time, turns) = timed(rt, program, &config, &mut out)?;
    report(rt, program, &config, time, turns)?;
    Ok(out.into_inner())
}

// Neighbours go to different shares, as without an option.
fn config(alloc: Global, drive: Drive, threads: u8, capacity: usize) -> Result<Config, AllocError> {
    let mut share = Vec::new(alloc);
    for thread in 0..threads {
        share.push(thread)?;
    }
    Ok(Config {
        capacity,
        chunk: 256,
        threads: usize::from(threads),
        idle: 64,
        share,
        drive,
    })
}

// How long a run takes, and how many rounds or epochs it has.
fn timed<R: Clock + AllocGlobal + Threads>(
    rt: &R,
    program: &Program,
    config: &Config,
    out: &mut Counted<Vec<u8>>,
) -> Result<(Duration, u64)> {
    let alloc = rt.alloc();
    let gate = Arc::new(alloc, NoGate)?;
    let start = Instant::now(rt)?;
    let answer = run(rt, alloc, program.text.as_bytes(), b"", config, gate, out);
    let time = start.elapsed(rt);
    match turns_of(answer) {
        Some(turns) => Ok((time?, turns)),
        None => bail!("a program is refused"),
    }
}

// How many rounds or epochs a run had, if it was not refused.
fn turns_of(answer: Result<Report, RunError>) -> Option<u64> {
    match answer {
        Ok(done) => Some(done.rested().rounds().max(done.rested().epochs())),
        Err(_) => None,
    }
}

// Says what a run took.
fn report<R: Eprint + Clock + AllocGlobal + Threads>(
    rt: &R,
    program: &Program,
    config: &Config,
    time: Duration,
    turns: u64,
) -> Result<()> {
    let (name, capacity, threads) = (program.name, config.capacity, config.threads);
    let (drive, each) = match config.drive {
        Drive::Serial => ("serial", "rounds"),
        Drive::Rounds => ("rounds", "rounds"),
        Drive::Rings => ("rings", "epochs"),
    };
    let count = u128::from(program.count.max(1));
    let per_element = time.as_nanos() / count;
    let idle = idle_rounds(rt, threads, turns)?.as_nanos() / count;
    eprintln!(rt;
        "{name}, capacity {capacity}, {drive}, {threads} threads: {per_element} ns an element, {turns} {each}, of which threads alone take {idle} ns an element"
    )?;
    Ok(())
}
