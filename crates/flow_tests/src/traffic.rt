// Much traffic between threads, which is that of one thread: many messages between sixteen, and threads that come late at random.

ghost use Rattle.flow_networks.specs.Graphs.{states_of};
ghost use Rattle.flow_networks.specs.Networks.{AreOpened};

use crate::driving::{Told, driven_under, told_at_last};
use flow_base::{Printing, Transducer};
use flow_drives::{Config, Drive, DriveError, Gate, Outcome, drive};
use flow_networks::Graph;
use flow_samples::{LONG_CHAIN, MANY_UNITS, SCAN_OF_NUMBERS, graph_of};
use std::alloc::{AllocError, Global};
use std::process::Abort;
use std::sync::Arc;
use std::sync::atomic::{AtomicU64, Ordering};
use std::test::Fail;
use std::thread;
use std::thread::Threads;

// Has threads yield before their turns, now and then and for a while, by numbers that a seed begins.
#[derive(Drop)]
struct Delays {
    last: AtomicU64,
}

impl Gate for Delays {
    fn turn(&self, _: usize, _: usize) {
        // The numbers of a linear congruence: their upper bits are as good as random.
        let last = self.last.load(Ordering::SeqCst);
        let next = last
            .wrapping_mul(6_364_136_223_846_793_005)
            .wrapping_add(1_442_695_040_888_963_407);
        self.last.store(next, Ordering::SeqCst);
        if next >> 61 == 0 {
            for _ in 0..next >> 54 & 127 {
                thread::yield_now();
            }
        }
    }
}

// Drives a graph with threads that come late.
fn driven_late<T: Transducer + Printing + Send + Drop + 'static>(
    rt: &impl Threads,
    alloc: Global,
    graph: Graph<T>,
    config: &Config,
    seed: u64,
) -> Result<Told, DriveError>
    requires { AreOpened T.behaviour (states_of graph) }
{
    let delays = Delays {
        last: AtomicU64::new(seed),
    };
    let gate = Arc::new(alloc, delays).map_err(AllocError::from)?;
    let rested = drive(rt, alloc, graph, config, gate)?;
    Ok(told_at_last(alloc, rested)?)
}

// The same of the graph of a sketch.
fn sketch_driven_late(
    rt: &impl Threads,
    alloc: Global,
    sketch: &str,
    config: &Config,
    seed: u64,
) -> Result<Told, Fail> {
    Ok(driven_late(rt, alloc, graph_of(alloc, sketch)?, config, seed)?)
}

fn sketch_driven(
    rt: &impl Threads,
    alloc: Global,
    sketch: &str,
    config: &Config,
) -> Result<Told, Fail> {
    Ok(driven_under(rt, alloc, graph_of(alloc, sketch)?, config)?)
}

// Asserts that a graph ended in a value, and as one thread ends it.
fn assert_alike(rt: &impl Abort, told: &Told, alone: &Told, config: &Config) {
    let (drive, capacity) = (config.drive, config.capacity);
    assert_eq!(rt;
        (told.outcome, told.counts.as_slice(), told.text.as_slice()),
        (
            Outcome::Value,
            alone.counts.as_slice(),
            alone.text.as_slice()
        ),
        "{drive:?}, capacity {capacity}"
    );
}

// The configuration of a drive in so many threads, each of which has the nodes of one number or of every so many.
fn config(
    alloc: Global,
    drive: Drive,
    threads: u8,
    (capacity, chunk, idle): (usize, usize, usize),
) -> Result<Config, AllocError> {
    let mut share = Vec::new(alloc);
    for entry in 0..threads {
        share.push(entry)?;
    }
    Ok(Config {
        capacity,
        chunk,
        threads: usize::from(threads),
        idle,
        share,
        drive,
    })
}

// How many messages were sent in all.
fn sent_in(told: &Told) -> u64 {
    let mut messages = 0u64;
    for &(sent, _) in &told.counts {
        messages = messages.saturating_add(sent);
    }
    messages
}

#[test]
fn many_messages_between_sixteen_threads(rt: HostRuntime) -> Result<(), Fail> {
    let alloc = rt.alloc();
    for capacity in [1_024, 4_096, 65_536] {
        let alone = config(alloc, Drive::Serial, 1, (capacity, 64, 1))?;
        let alone = sketch_driven(&rt, alloc, LONG_CHAIN, &alone)?;
        assert_eq!(rt;
            (sent_in(&alone), alone.text.as_slice()),
            (156_020, b"-71994000".as_slice())
        );
        for drive in [Drive::Rounds, Drive::Rings] {
            let config = config(alloc, drive, 16, (capacity, 64, 64))?;
            let told = sketch_driven(&rt, alloc, LONG_CHAIN, &config)?;
            assert_alike(&rt, &told, &alone, &config);
        }
    }
    Ok(())
}

// In each of 65,536 turns a unit moves, and the epoch ends with its share spent: so there are two.
#[test]
fn a_drive_goes_on_after_spent_shares(rt: HostRuntime) -> Result<(), Fail> {
    let alloc = rt.alloc();
    let alone = config(alloc, Drive::Serial, 1, (1, 1, 1))?;
    let alone = sketch_driven(&rt, alloc, MANY_UNITS, &alone)?;
    let config = config(alloc, Drive::Rings, 1, (1, 1, 1))?;
    let told = sketch_driven(&rt, alloc, MANY_UNITS, &config)?;
    assert_alike(&rt, &told, &alone, &config);
    assert_eq!(rt; (told.epochs, sent_in(&told)), (2, 66_001));
    Ok(())
}

#[test]
fn late_threads_end_as_one_does(rt: HostRuntime) -> Result<(), Fail> {
    let alloc = rt.alloc();
    for capacity in [1, 4] {
        let alone = config(alloc, Drive::Serial, 1, (capacity, 1, 1))?;
        let alone = sketch_driven(&rt, alloc, SCAN_OF_NUMBERS, &alone)?;
        for seed in 0..8u64 {
            let config = config(alloc, Drive::Rings, 6, (capacity, 1, 4))?;
            let told = sketch_driven_late(&rt, alloc, SCAN_OF_NUMBERS, &config, seed)?;
            assert_alike(&rt, &told, &alone, &config);
        }
    }
    Ok(())
}
