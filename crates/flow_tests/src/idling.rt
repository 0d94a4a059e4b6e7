// How many turns the shares of a graph make in rounds.

ghost use Rattle.flow_networks.specs.Graphs.{states_of};
ghost use Rattle.flow_networks.specs.Networks.{AreOpened};

use flow_base::Transducer;
use flow_drives::{Config, Drive, Gate, drive};
use flow_networks::Graph;
use flow_samples::{SUM_OF_FIVE, graph_of};
use std::alloc::Global;
use std::sync::Arc;
use std::sync::atomic::{AtomicU64, Ordering};
use std::test::Fail;
use std::thread::Threads;

// Counts the turns of all shares.
#[derive(Drop)]
struct Counting {
    turns: AtomicU64,
}

impl Gate for Counting {
    fn turn(&self, _: usize, _: usize) {
        self.turns.fetch_add(1, Ordering::SeqCst);
    }
}

// How many rounds two shares of a graph take, and how many turns.
fn counted<T: Transducer + Send + Drop + 'static>(
    rt: &impl Threads,
    alloc: Global,
    graph: Graph<T>,
    idle: usize,
) -> Result<(u64, u64), Fail>
    requires { AreOpened T.behaviour (states_of graph) }
{
    let config = Config {
        capacity: 1,
        chunk: 1,
        threads: 2,
        idle,
        share: vec![in alloc; 0u8, 1]?,
        drive: Drive::Rounds,
    };
    let counting = Counting {
        turns: AtomicU64::new(0),
    };
    let gate = Arc::new(alloc, counting)?;
    let rested = drive(rt, alloc, graph, &config, Arc::try_clone(&gate)?)?;
    Ok((rested.rounds(), gate.turns.load(Ordering::SeqCst)))
}

// The same of the sum of five.
fn counted_in_sum(rt: &impl Threads, alloc: Global, idle: usize) -> Result<(u64, u64), Fail> {
    counted(rt, alloc, graph_of(alloc, SUM_OF_FIVE)?, idle)
}

// Nothing comes to a share within a round: so with two idle turns more each share makes two turns more in each round, but where
// its nodes are all over and it leaves, which happens three times.
#[test]
fn idle_turns_in_rounds(rt: HostRuntime) -> Result<(), Fail> {
    let (rounds, turns) = counted_in_sum(&rt, rt.alloc(), 1)?;
    let counts = counted_in_sum(&rt, rt.alloc(), 3)?;
    let more = turns
        .saturating_add(rounds.saturating_mul(4))
        .saturating_sub(6);
    assert_eq!(rt; (rounds > 0, counts), (true, (rounds, more)));
    Ok(())
}
