// Networks that run in threads.
ghost use Rattle.std.specs.Prelude.{◌≡◌, ◌⊎◌, [], true, false, Err, IfErr, IfOk, OnOk};
ghost use Rattle.flow_drive.specs.DriveError.TheVariants.{NoMemory, NoThread};
ghost use Rattle.flow_drive.specs.StreamNodes.{node_behaviour};
ghost use Rattle.flow_graph.specs.Graphs.{states_of, edges_of};
ghost use Rattle.flow_graph.specs.Networks.{AreOpened};
ghost use Rattle.callers.specs.Drive.{AskedByRings, CameOutAs};

use flow_drive::{
    Config, Drive, DriveError, History, NoGate, Outcome, Start, drive, drive_with, rested_is_sound,
};
use flow_graph::Graph;
use std::alloc::{AllocError, Global};
use std::sync::Arc;
use std::thread::Threads;

/// How a network came out whose nodes two threads shared.
///
/// An error is `NoMemory` or `NoThread`.
pub fn outcome_on_two_threads(
    rt: &impl Threads,
    alloc: Global,
    graph: Graph,
) -> Result<Outcome, DriveError>
    requires { AreOpened node_behaviour (states_of graph) }
    ensures outcome { IfOk result (CameOutAs node_behaviour (states_of graph) (edges_of graph) 256) }
    ensures refused { IfErr result (λ error. (error ≡ NoMemory) ⊎ (error ≡ NoThread)) }
{
    let config = Config {
        capacity: 256,
        chunk: 16,
        threads: 2,
        idle: 64,
        share: Vec::from_slice(alloc, &[0, 1])?,
        drive: Drive::Rings,
    };
    let gate = Arc::new(alloc, NoGate).map_err(AllocError::from)?;
    let rested = drive(rt, alloc, graph, &config, gate)?;
    rested_is_sound(&rested);
    Ok(rested.outcome())
}

/// Lets some threads start, and no more after them.
#[derive(Drop)]
pub struct SomeStarts {
    left: usize,
    said_no: bool,
    // What it was asked, which only proofs keep.
    asked: History<usize>,
}

impl SomeStarts {
    /// It lets so many threads start.
    pub fn new(left: usize) -> SomeStarts
        ensures left { result.left ≡ left }
        ensures said { result.said_no ≡ false }
        ensures asked { result.asked.items ≡ [] }
    {
        SomeStarts {
            left,
            said_no: false,
            asked: History::new(),
        }
    }
}

impl Start for SomeStarts {
    ghost refused = { λ start. start.said_no ≡ true };

    ghost asked = { λ start. start.asked.items };

    fn may_start(&mut self, thread: usize) -> bool {
        self.asked = self.asked.with(&thread);
        if self.left == 0 {
            self.said_no = true;
            return false;
        }
        self.left -= 1;
        true
    }
}

/// How a network came out, where only some threads may be started.
///
/// Where one more was wanted, the error is `NoThread`.
pub fn outcome_of_some_starts(
    rt: &impl Threads,
    alloc: Global,
    graph: Graph,
    config: &Config,
    start: &mut SomeStarts,
) -> Result<Outcome, DriveError>
    requires { AreOpened node_behaviour (states_of graph) }
    ensures asked { OnOk result (AskedByRings config.now start.old.asked.items start.new.asked.items) }
    ensures refused { start.new.said_no ≡ true →
        (start.old.said_no ≡ true) ⊎ (result ≡ Err NoThread) }
{
    let gate = Arc::new(alloc, NoGate).map_err(AllocError::from)?;
    match drive_with(rt, alloc, graph, config, gate, start) {
        Ok(rested) => Ok(rested.outcome()),
        Err(error) => Err(error),
    }
}
