// The drive of one thread on the network of `reduce_add({x * x : x in iota(n)})`. The outcome and the number of messages go to standard
// output, the times to standard error.

use crate::figures::plan::squares;
use anyhow::Result;
use flow_drives::{Config, MAX_CHUNK, NoGate, Outcome, Rested, drive};
use flow_nodes::StreamNode;
use snesl_trials::in_one_thread;
use std::rt::Clock;
use std::sync::Arc;
use std::thread::Threads;
use std::time::{Duration, Instant};

// The capacity of the edges.
const CAPACITY: usize = 256;

/// Drives the network over so many elements, at several chunks.
pub fn time_graph<R: Print + Eprint + Clock + AllocGlobal + Threads>(
    rt: &R,
    count: u64,
) -> Result<()> {
    for chunk in [16, 256, MAX_CHUNK] {
        measure(rt, count, &in_one_thread(rt.alloc(), CAPACITY, chunk)?)?;
    }
    Ok(())
}

// Drives the network once.
fn measure<R: Print + Eprint + Clock + AllocGlobal + Threads>(
    rt: &R,
    count: u64,
    config: &Config,
) -> Result<()> {
    let alloc = rt.alloc();
    let gate = Arc::new(alloc, NoGate)?;
    let graph = squares(alloc, count)?;
    let start = Instant::now(rt)?;
    let rested = drive(rt, alloc, graph, config, gate)?;
    let time = start.elapsed(rt)?;
    report(rt, &rested, count, config.chunk, time)
}

// Prints the outcome and the messages, and the times.
fn report<R: Print + Eprint>(
    rt: &R,
    rested: &Rested<StreamNode>,
    count: u64,
    chunk: usize,
    time: Duration,
) -> Result<()> {
    let sent = messages(rested);
    let end = match rested.outcome() {
        Outcome::Value => "value",
        Outcome::Fault(_) => "fault",
        Outcome::Stalled { .. } => "stalled",
    };
    println!(rt; "chunk {chunk}: {end}, {sent} messages")?;
    let nanos = time.as_nanos();
    let per_element = nanos / u128::from(count.max(1));
    let per_message = nanos / u128::from(sent.max(1));
    eprintln!(rt; "chunk {chunk}: {per_element} ns an element, {per_message} ns a message")?;
    Ok(())
}

// How many messages were sent, all edges together.
fn messages(rested: &Rested<StreamNode>) -> u64 {
    let mut sent: u64 = 0;
    for edge in 0..rested.edges() {
        sent = sent.saturating_add(rested.counts(edge).0);
    }
    sent
}
