// The network of a program, settled by many schedules, which all end alike.

ghost use Rattle.std.specs.Prelude.{◌<◌, ◌≤◌};
ghost use Rattle.flow_messages.specs.Limits.{greatest_capacity};
ghost use Rattle.flow_networks.specs.Graphs.{states_of};
ghost use Rattle.flow_networks.specs.Networks.{AreOpened};
ghost use Rattle.flow_nodes.specs.StreamNodes.{node_behaviour};

use crate::inputs::network_for;
use flow_networks::{Graph, settle};
use flow_nodes::StreamNode;
use snesl_data::Refusal;
use snesl_syntax::parse;
use snesl_types::{TypedProgram, check};
use std::alloc::{AllocError, Global};
use std::process::Abort;
use std::test::Fail;

// The schedule of this number: so many numbers, of which the first and some others name no node.
fn schedule(alloc: Global, number: usize) -> Result<Vec<usize>, AllocError> {
    let mut nodes = Vec::new(alloc);
    let (mut node, mut last) = (99, number);
    for _ in 0..number {
        nodes.push(node)?;
        last = last.wrapping_mul(75).wrapping_add(74) % 65_537;
        node = last % 16;
    }
    Ok(nodes)
}

// How many messages were sent and how many received on each edge.
fn counts_of(
    alloc: Global,
    graph: Graph<StreamNode>,
    capacity: usize,
    schedule: &[usize],
) -> Result<Vec<(u64, u64)>, AllocError>
    requires opened { AreOpened node_behaviour (states_of graph) }
    requires some { 0 < capacity }
    requires limit { capacity ≤ greatest_capacity }
{
    let settled = settle(alloc, graph, capacity, schedule)?;
    let mut counts = Vec::new(alloc);
    for edge in 0..settled.graph().edges() {
        counts.push(settled.counts(edge))?;
    }
    Ok(counts)
}

// The same of the network of a program, by the schedule of this number.
fn counts_by(
    rt: &impl Abort,
    alloc: Global,
    typed: &TypedProgram<'_>,
    capacity: usize,
    number: usize,
) -> Result<Vec<(u64, u64)>, Refusal>
    requires some { 0 < capacity }
    requires limit { capacity ≤ greatest_capacity }
{
    let schedule = schedule(alloc, number)?;
    let graph = network_for(rt, alloc, typed, b"")?;
    Ok(counts_of(alloc, graph, capacity, &schedule)?)
}

// The same by no schedule. Asserts that they are as many by ninety-nine others.
fn counts_by_all(
    rt: &impl Abort,
    alloc: Global,
    typed: &TypedProgram<'_>,
    capacity: usize,
) -> Result<Vec<(u64, u64)>, Refusal>
    requires some { 0 < capacity }
    requires limit { capacity ≤ greatest_capacity }
{
    let first = counts_by(rt, alloc, typed, capacity, 0)?;
    for number in 1..100 {
        let counts = counts_by(rt, alloc, typed, capacity, number)?;
        assert_eq!(rt; counts.as_slice(), first.as_slice(), "schedule {number}");
    }
    Ok(first)
}

// The same of a program.
fn settled_alike(
    rt: &impl Abort,
    alloc: Global,
    text: &[u8],
    capacity: usize,
) -> Result<Vec<(u64, u64)>, Refusal>
    requires some { 0 < capacity }
    requires limit { capacity ≤ greatest_capacity }
{
    let program = parse(alloc, text)?;
    let typed = check(alloc, &program)?;
    counts_by_all(rt, alloc, &typed, capacity)
}

// The message of the source and its end, the number five and its end, the flags and the numbers, the sum.
const SUM_OF_FIVE: [(u64, u64); 5] = [(2, 2), (2, 2), (7, 7), (6, 6), (2, 2)];

#[test]
fn a_stall_and_a_sum_by_any_schedule(rt: HostRuntime) -> Result<(), Fail> {
    settled_alike(&rt, rt.alloc(), b"let s = iota(100) in s ++ s", 4)?;
    let small = settled_alike(&rt, rt.alloc(), b"reduce_add(iota(5))", 1)?;
    assert_eq!(rt; small.as_slice(), SUM_OF_FIVE.as_slice());
    let greater = settled_alike(&rt, rt.alloc(), b"reduce_add(iota(5))", 2)?;
    assert_eq!(rt; greater.as_slice(), SUM_OF_FIVE.as_slice());
    Ok(())
}
