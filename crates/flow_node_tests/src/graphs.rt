// Graphs of sketches, and their single steps.

ghost use Rattle.flow_networks.specs.Graphs.{states_so_far};
ghost use Rattle.flow_networks.specs.Networks.{AreOpened};

use flow_base::Transducer;
use flow_messages::{Ends, Item, Msg, Table};
use flow_networks::{Edge, Graph, GraphBuilder, Stepped, kinds_of, step_once};
use flow_samples::{SUM_OF_FIVE, SUM_OF_UNLIKE, drawn, graph_of, join};
use kahn::Want;
use snesl_data::{Fault, FaultKind};
use std::alloc::Global;
use std::process::Abort;
use std::test::Fail;

// One step of the node, if it can make one.
fn step<T: Transducer>(
    rt: &impl Abort,
    graph: &mut Graph<T>,
    table: &mut Table,
    node: usize,
) -> Result<Stepped, Fail> {
    assert!(rt; node < graph.nodes() && graph.may_step(table, node));
    Ok(step_once(graph, table, node)?)
}

fn wants<T: Transducer>(rt: &impl Abort, graph: &Graph<T>, node: usize) -> Want {
    assert!(rt; node < graph.nodes());
    graph.node(node).want()
}

// How many of the first five nodes have ended.
fn ended<T: Transducer>(rt: &impl Abort, graph: &Graph<T>) -> usize {
    let mut ended = 0usize;
    for node in 0..5 {
        if wants(rt, graph, node) == Want::Ended {
            ended = ended.saturating_add(1);
        }
    }
    ended
}

// Steps the nodes in this order, again and again, until none moves. Gives how many messages were sent, and how many
// received.
fn run_in_order<T: Transducer>(
    rt: &impl Abort,
    graph: &mut Graph<T>,
    table: &mut Table,
    order: &[usize],
) -> Result<(usize, usize), Fail> {
    let (mut sent, mut received) = (0usize, 0usize);
    for _ in 0..1_000 {
        let mut moved = false;
        for &node in order {
            let want = wants(rt, graph, node);
            if step(rt, graph, table, node)? == Stepped::Nothing {
                continue;
            }
            moved = true;
            match want {
                Want::Write(_) => sent = sent.wrapping_add(1),
                _ => received = received.wrapping_add(1),
            }
        }
        if !moved {
            break;
        }
    }
    Ok((sent, received))
}

// Asserts that nineteen messages go over edges of one message until each of five nodes has ended.
fn assert_nineteen<T: Transducer + Drop>(
    rt: &impl Abort,
    alloc: Global,
    mut graph: Graph<T>,
    order: &[usize],
) -> Result<(), Fail> {
    let mut table = Table::new(alloc, &kinds_of(alloc, &graph)?, 1)?;
    let counts = run_in_order(rt, &mut graph, &mut table, order)?;
    assert_eq!(rt; (counts, ended(rt, &graph)), ((19, 19), 5));
    Ok(())
}

#[test]
fn nineteen_messages_in_any_order(rt: HostRuntime) -> Result<(), Fail> {
    let orders = [
        [0, 1, 2, 3, 4],
        [4, 3, 2, 1, 0],
        [2, 0, 4, 1, 3],
        [3, 1, 4, 0, 2],
        [1, 4, 2, 0, 3],
        [0, 2, 4, 3, 1],
        [4, 0, 3, 1, 2],
        [2, 3, 0, 4, 1],
        [1, 0, 3, 2, 4],
        [3, 4, 1, 2, 0],
        [4, 2, 0, 3, 1],
        [0, 4, 1, 3, 2],
    ];
    for order in &orders {
        assert_nineteen(&rt, rt.alloc(), graph_of(rt.alloc(), SUM_OF_FIVE)?, order)?;
    }
    Ok(())
}

// Takes a message from the edge of the sum: its integer, and -1 where it is none.
fn take_sum(rt: &impl Abort, table: &mut Table) -> Option<i128> {
    assert!(rt; table.has_reader(2));
    match table.take(2) {
        Some(Msg::Item(Item::Int(sum))) => Some(sum),
        Some(_) => Some(-1),
        None => None,
    }
}

// Asserts that the addition meets the end of the shorter stream with a fault, where its sink takes nothing.
fn assert_unlike<T: Transducer + Drop>(
    rt: &impl Abort,
    alloc: Global,
    mut graph: Graph<T>,
) -> Result<(), Fail> {
    let mut table = Table::new(alloc, &kinds_of(alloc, &graph)?, 4)?;
    run_in_order(rt, &mut graph, &mut table, &[0, 1, 2])?;
    let shape = Fault {
        kind: FaultKind::Shape,
        at: 7,
    };
    // The sum's edge carries 2 and no end.
    let sums = (take_sum(rt, &mut table), take_sum(rt, &mut table));
    assert_eq!(rt;
        (wants(rt, &graph, 2), sums),
        (Want::Faulted(shape), (Some(2), None))
    );
    Ok(())
}

#[test]
fn streams_that_end_unlike(rt: HostRuntime) -> Result<(), Fail> {
    assert_unlike(&rt, rt.alloc(), graph_of(rt.alloc(), SUM_OF_UNLIKE)?)
}

// A source, a node that computes and a sink, with no edge.
const UNJOINED: &str = r"
node 0 source units 1
node 1 const 5
node 2 sink int
";

// Whether an edge may join these two nodes.
fn may_join<T: Transducer + Drop>(builder: &GraphBuilder<T>, writer: usize, reader: usize) -> bool {
    builder.may_join(Edge {
        writer,
        writer_port: 0,
        reader,
        reader_port: 0,
    })
}

// Whether the source may be joined to the node that computes, how many edges may join units to integers, go against the order or to
// a node itself, or to one that is not there, and whether each port has its edge.
fn joins<T: Transducer + Drop>(builder: &GraphBuilder<T>) -> (bool, usize, bool) {
    let mut others = 0usize;
    for (writer, reader) in [(0, 2), (1, 0), (1, 1), (1, 3)] {
        if may_join(builder, writer, reader) {
            others = others.saturating_add(1);
        }
    }
    (may_join(builder, 0, 1), others, builder.complete())
}

// Asserts which edges may join the three nodes, and when they are complete.
fn assert_joins<T: Transducer + Drop>(
    rt: &impl Abort,
    builder: &mut GraphBuilder<T>,
) -> Result<(), Fail>
    requires { AreOpened T.behaviour (states_so_far builder.old) }
{
    let first = joins(builder);
    join(builder, (0, 0), (1, 0))?;
    // Both ports are taken.
    let then = joins(builder);
    join(builder, (1, 0), (2, 0))?;
    let told = (first, then, builder.complete());
    assert_eq!(rt; told, ((true, 0, false), (false, 0, false), true));
    Ok(())
}

#[test]
fn edges_that_may_not_join(rt: HostRuntime) -> Result<(), Fail> {
    let mut builder = drawn(rt.alloc(), UNJOINED)?;
    assert_joins(&rt, &mut builder)
}
