// Graphs of sketches, driven until they rest.

ghost use Rattle.flow_networks.specs.Graphs.{states_of};
ghost use Rattle.flow_networks.specs.Networks.{AreOpened};
ghost use Rattle.flow_nodes.specs.StreamNodes.{node_behaviour};

use flow_base::{Printing, Transducer};
use flow_drives::{Config, Drive, DriveError, NoGate, Outcome, Rested, deal, deal_rings, drive};
use flow_networks::Graph;
use flow_nodes::StreamNode;
use flow_samples::{
    ONE_UNIT, PRINTS_BELOW_FIVE, SCAN_OF_QUOTIENTS, SUM_OF_FIVE, SUM_OF_UNLIKE,
    WAITS_FOR_ITS_LENGTH, graph_of,
};
use snesl_data::{Fault, FaultKind};
use std::alloc::{AllocError, Global};
use std::process::Abort;
use std::sync::Arc;
use std::test::Fail;
use std::thread::Threads;

/// What a graph tells that came to rest. (A graph at rest costs much proof wherever it is let go, and this does not.)
#[derive(Drop)]
pub struct Told {
    pub outcome: Outcome,
    pub nodes: usize,
    /// How many messages were sent and how many received on each edge.
    pub counts: Vec<(u64, u64)>,
    pub rounds: u64,
    pub epochs: u64,
    pub text: Vec<u8>,
    /// How many nodes its shares have, where it was driven over rings.
    pub apart: Option<usize>,
}

// How many messages were sent and how many received on each edge.
fn counts_of<T: Transducer>(
    alloc: Global,
    rested: &Rested<T>,
) -> Result<Vec<(u64, u64)>, AllocError> {
    let mut counts = Vec::new(alloc);
    for edge in 0..rested.edges() {
        counts.push(rested.counts(edge))?;
    }
    Ok(counts)
}

// How many nodes its shares have, where it was driven over rings.
fn nodes_apart<T: Transducer>(rested: &Rested<T>) -> Option<usize> {
    let mut nodes: usize = 0;
    for share in rested.rings()? {
        nodes = nodes.saturating_add(share.nodes().len());
    }
    Some(nodes)
}

fn told_of<T: Transducer + Printing>(
    alloc: Global,
    rested: &Rested<T>,
) -> Result<Told, AllocError> {
    Ok(Told {
        outcome: rested.outcome(),
        nodes: rested.nodes(),
        counts: counts_of(alloc, rested)?,
        rounds: rested.rounds(),
        epochs: rested.epochs(),
        text: rested.text().to_vec(alloc)?,
        apart: nodes_apart(rested),
    })
}

/// The same, of a graph that is let go.
pub fn told_at_last<T: Transducer + Printing + Drop>(
    alloc: Global,
    rested: Rested<T>,
) -> Result<Told, AllocError> {
    told_of(alloc, &rested)
}

fn driven_any<T: Transducer + Printing + Send + Drop + 'static>(
    rt: &impl Threads,
    alloc: Global,
    graph: Graph<T>,
    config: &Config,
) -> Result<Told, DriveError>
    requires { AreOpened T.behaviour (states_of graph) }
{
    let gate = Arc::new(alloc, NoGate).map_err(AllocError::from)?;
    let rested = drive(rt, alloc, graph, config, gate)?;
    Ok(told_at_last(alloc, rested)?)
}

/// Drives the graph under this configuration.
pub fn driven_under(
    rt: &impl Threads,
    alloc: Global,
    graph: Graph<StreamNode>,
    config: &Config,
) -> Result<Told, DriveError>
    requires { AreOpened node_behaviour (states_of graph) }
{
    driven_any(rt, alloc, graph, config)
}

// A drive, how many steps a visit has, and how many threads there are.
type Way = (Drive, usize, usize);

// What one makes of a graph, each makes of it.
const WAYS: [Way; 8] = [
    (Drive::Serial, 1, 2),
    (Drive::Serial, 2, 2),
    (Drive::Serial, 16, 2),
    (Drive::Serial, 1_024, 2),
    (Drive::Rounds, 1, 2),
    (Drive::Rounds, 1_024, 2),
    (Drive::Rings, 1, 2),
    (Drive::Rings, 1_024, 2),
];

// The drives in steps, in one thread and in more of them than there are nodes.
const IN_STEPS: [Way; 8] = [
    (Drive::Serial, 1, 1),
    (Drive::Serial, 1, 16),
    (Drive::Serial, 1_024, 1),
    (Drive::Serial, 1_024, 16),
    (Drive::Rounds, 1, 1),
    (Drive::Rounds, 1, 16),
    (Drive::Rounds, 1_024, 1),
    (Drive::Rounds, 1_024, 16),
];

// The numbers of sixteen threads.
const EACH_ONCE: [u8; 16] = [0, 1, 2, 3, 4, 5, 6, 7, 8, 9, 10, 11, 12, 13, 14, 15];

// A lawful configuration, in which each thread has a node.
fn config(
    alloc: Global,
    capacity: usize,
    (drive, chunk, threads): Way,
) -> Result<Config, AllocError> {
    Ok(Config {
        capacity,
        chunk,
        threads,
        idle: 64,
        share: EACH_ONCE[..threads.min(16)].to_vec(alloc)?,
        drive,
    })
}

// Drives the graph of a sketch.
fn driven(
    rt: &impl Threads,
    alloc: Global,
    sketch: &str,
    capacity: usize,
    way: Way,
) -> Result<Told, Fail> {
    let config = config(alloc, capacity, way)?;
    Ok(driven_under(rt, alloc, graph_of(alloc, sketch)?, &config)?)
}

// How many messages were sent and received on all edges together.
fn moved_in(counts: &[(u64, u64)]) -> u64 {
    let mut moved = 0u64;
    for &(sent, received) in counts {
        moved = moved.saturating_add(sent).saturating_add(received);
    }
    moved
}

// Whether each round or epoch moved a message, and there were some by the drives that have them.
fn are_turns(told: &Told, drive: Drive) -> bool {
    let moved = moved_in(&told.counts);
    match drive {
        Drive::Serial => told.rounds == 0 && told.epochs == 0,
        Drive::Rounds => told.rounds > 0 && told.rounds <= moved && told.epochs == 0,
        Drive::Rings => told.epochs > 0 && told.epochs <= moved && told.rounds == 0,
    }
}

// What a graph comes to, whichever way it is driven.
#[derive(Clone, Copy)]
struct Ending {
    name: &'static str,
    sketch: &'static str,
    nodes: usize,
    capacity: usize,
    ways: &'static [Way],
    outcome: Outcome,
    // How many messages are sent and received on each edge.
    counts: &'static [(u64, u64)],
    text: &'static [u8],
}

// Nineteen messages are sent and received.
const SUM: Ending = Ending {
    name: "sum of five",
    sketch: SUM_OF_FIVE,
    nodes: 5,
    capacity: 1,
    ways: &WAYS,
    outcome: Outcome::Value,
    counts: &[(2, 2), (2, 2), (7, 7), (6, 6), (2, 2)],
    text: b"",
};

// The numbers and the end from the left, of which the end is not received; the number and the end from the right; the sum.
const UNLIKE: Ending = Ending {
    name: "a fault at seven",
    sketch: SUM_OF_UNLIKE,
    nodes: 4,
    capacity: 1,
    ways: &WAYS,
    outcome: Outcome::Fault(Fault {
        kind: FaultKind::Shape,
        at: 7,
    }),
    counts: &[(3, 2), (2, 2), (1, 1)],
    text: b"",
};

// At capacity 1 the fork has the end of the segment for an edge that holds its second flag.
const STALLED: Ending = Ending {
    name: "small edges stall",
    sketch: WAITS_FOR_ITS_LENGTH,
    nodes: 7,
    capacity: 1,
    ways: &WAYS,
    outcome: Outcome::Stalled { edge: 1 },
    counts: &[(4, 3), (2, 1), (2, 2), (0, 0), (0, 0), (0, 0), (0, 0)],
    text: b"",
};

// Prints the sequence of the numbers below five.
const PRINTED: Ending = Ending {
    name: "text of the value",
    sketch: PRINTS_BELOW_FIVE,
    nodes: 4,
    capacity: 1,
    ways: &WAYS,
    outcome: Outcome::Value,
    counts: &[(2, 2), (2, 2), (7, 7), (6, 6)],
    text: b"{0,1,2,3,4}",
};

// A scan adds with the element that the sum is written for, and not with its flag: so the fault of the element is named. The third
// flag is received, and no third quotient is there.
const OF_QUOTIENTS: Ending = Ending {
    name: "fault of the element",
    sketch: SCAN_OF_QUOTIENTS,
    nodes: 6,
    capacity: 1,
    ways: &WAYS,
    outcome: Outcome::Fault(Fault {
        kind: FaultKind::Divide,
        at: 35,
    }),
    counts: &[(4, 3), (4, 3), (4, 3), (2, 2), (2, 2)],
    text: b"",
};

const ENDINGS: [Ending; 12] = [
    SUM,
    Ending { capacity: 2, ..SUM },
    Ending {
        capacity: 256,
        ..SUM
    },
    UNLIKE,
    Ending {
        capacity: 4,
        ..UNLIKE
    },
    STALLED,
    Ending {
        name: "all name one stalled edge",
        ways: &IN_STEPS,
        ..STALLED
    },
    Ending {
        name: "edges of two do not stall",
        capacity: 2,
        outcome: Outcome::Value,
        counts: &[(4, 4), (4, 4), (4, 4), (2, 2), (4, 4), (3, 3), (2, 2)],
        ..STALLED
    },
    PRINTED,
    Ending {
        capacity: 256,
        ..PRINTED
    },
    OF_QUOTIENTS,
    Ending {
        capacity: 4,
        counts: &[(5, 3), (4, 3), (4, 3), (2, 2), (2, 2)],
        ..OF_QUOTIENTS
    },
];

// Asserts that what a graph tells that was driven this way is what it comes to.
fn assert_told(rt: &impl Abort, told: &Told, ending: &Ending, (drive, chunk, threads): Way) {
    // Over rings, and by no other drive, all nodes stay in shares.
    let apart = if drive == Drive::Rings {
        Some(ending.nodes)
    } else {
        None
    };
    let end = (
        (told.nodes, told.apart, are_turns(told, drive)),
        told.outcome,
        told.counts.as_slice(),
        told.text.as_slice(),
    );
    let wanted = (
        (ending.nodes, apart, true),
        ending.outcome,
        ending.counts,
        ending.text,
    );
    assert_eq!(rt; end, wanted, "{}: {drive:?} {chunk} {threads}", ending.name);
}

// Asserts that a graph comes to its end when it is driven this way.
fn assert_ends<R: Threads + Abort>(
    rt: &R,
    alloc: Global,
    ending: &Ending,
    way: Way,
) -> Result<(), Fail> {
    let told = driven(rt, alloc, ending.sketch, ending.capacity, way)?;
    assert_told(rt, &told, ending, way);
    Ok(())
}

#[test]
fn ends_alike_each_way(rt: HostRuntime) -> Result<(), Fail> {
    for ending in &ENDINGS {
        for &way in ending.ways {
            assert_ends(&rt, rt.alloc(), ending, way)?;
        }
    }
    Ok(())
}

// How a graph of one unit comes out. (By rounds its reader is idle for as many turns as are configured.)
fn outcome_under(
    rt: &impl Threads,
    alloc: Global,
    config: &Config,
) -> Result<Result<Outcome, DriveError>, Fail> {
    match driven_under(rt, alloc, graph_of(alloc, ONE_UNIT)?, config) {
        Ok(told) => Ok(Ok(told.outcome)),
        Err(error) => Ok(Err(error)),
    }
}

// Asserts whether this configuration is lawful, and that a drive refuses it just where it is not.
fn assert_lawful<R: Threads + Abort>(
    rt: &R,
    alloc: Global,
    config: &Config,
    lawful: bool,
) -> Result<(), Fail> {
    let wanted = if lawful {
        Ok(Outcome::Value)
    } else {
        Err(DriveError::BadConfig)
    };
    let outcome = outcome_under(rt, alloc, config)?;
    assert_eq!(rt; (config.lawful(), outcome), (lawful, wanted));
    Ok(())
}

// Capacity, chunk, threads, idle turns, how many entries, the entry, and whether this is lawful.
type Limits = (usize, usize, usize, usize, usize, u8, bool);

const LIMITS: [Limits; 14] = [
    (1, 1, 1, 1, 1, 0, true),
    (65_536, 1_024, 16, 1_000_000, 4_096, 15, true),
    (0, 1, 1, 1, 1, 0, false),
    (65_537, 1, 1, 1, 1, 0, false),
    (1, 0, 1, 1, 1, 0, false),
    (1, 1_025, 1, 1, 1, 0, false),
    (1, 1, 0, 1, 1, 0, false),
    (1, 1, 17, 1, 1, 0, false),
    (1, 1, 1, 0, 1, 0, false),
    (1, 1, 1, 1_000_001, 1, 0, false),
    (1, 1, 1, 1, 0, 0, false),
    (1, 1, 1, 1, 4_097, 0, false),
    (1, 1, 1, 1, 1, 1, false),
    (1, 1, 16, 1, 1, 16, false),
];

// The configuration of these limits.
fn limited(alloc: Global, limits: Limits, drive: Drive) -> Result<Config, AllocError> {
    let (capacity, chunk, threads, idle, entries, entry, _) = limits;
    Ok(Config {
        capacity,
        chunk,
        threads,
        idle,
        share: vec![in alloc; entry; entries]?,
        drive,
    })
}

#[test]
fn limits_of_configurations(rt: HostRuntime) -> Result<(), Fail> {
    for limits in LIMITS {
        for drive in [Drive::Serial, Drive::Rounds, Drive::Rings] {
            let config = limited(rt.alloc(), limits, drive)?;
            assert_lawful(&rt, rt.alloc(), &config, limits.6)?;
        }
    }
    Ok(())
}

// What a deal is refused for, if it is.
fn refusal_of<S: Drop>(dealt: Result<Vec<S>, DriveError>) -> Option<DriveError> {
    match dealt {
        Ok(_) => None,
        Err(error) => Some(error),
    }
}

// What dealing that graph out is refused for, over boxes and over rings.
fn refused_to_deal(
    alloc: Global,
    config: &Config,
) -> Result<(Option<DriveError>, Option<DriveError>), Fail> {
    let over_boxes = refusal_of(deal(alloc, graph_of(alloc, SUM_OF_FIVE)?, config));
    let over_rings = refusal_of(deal_rings(alloc, graph_of(alloc, SUM_OF_FIVE)?, config));
    Ok((over_boxes, over_rings))
}

#[test]
fn deals_have_the_same_limits(rt: HostRuntime) -> Result<(), Fail> {
    for limits in LIMITS {
        let config = limited(rt.alloc(), limits, Drive::Rings)?;
        let refused = if limits.6 {
            None
        } else {
            Some(DriveError::BadConfig)
        };
        assert_eq!(rt; refused_to_deal(rt.alloc(), &config)?, (refused, refused));
    }
    Ok(())
}
