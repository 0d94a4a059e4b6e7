// The networks of programs, settled by schedules.

ghost use Rattle.std.specs.Prelude.{◌<◌, ◌≤◌, IfOk};
ghost use Rattle.flow_messages.specs.Limits.{greatest_capacity};
ghost use Rattle.flow_nodes.specs.StreamNodes.{node_behaviour};
ghost use Rattle.flow_networks.specs.Graphs.{states_of};
ghost use Rattle.flow_networks.specs.Networks.{AreOpened};

use flow_base::{Printing, Transducer};
use flow_drives::Outcome;
use flow_networks::{Edge, Graph, Settled, settle};
use flow_nodes::StreamNode;
use kahn::Want;
use kahn::faults::named;
use snesl_data::{Fault, Refusal};
use snesl_flatten::flatten;
use snesl_generator::dice::Dice;
use snesl_syntax::parse;
use snesl_trials::Done;
use snesl_types::check;
use snesl_values::read_inputs;
use std::alloc::{AllocError, Global};
use std::fmt;

// Each schedule is shorter.
const LONG: usize = 500;

/// What the network of a program wrote, how it came out, how many nodes it has, and how many messages were sent and
/// received on each edge, where a schedule led it to rest. There is no outcome where it neither has ended nor faulted
/// nor waits for room on an edge.
#[derive(Drop)]
pub struct Replay {
    written: Vec<u8>,
    outcome: Option<Outcome>,
    nodes: usize,
    counts: Vec<(u64, u64)>,
}

impl fmt::Display for Replay {
    fn fmt<W: fmt::Write>(&self, f: &mut fmt::Formatter<W>) -> fmt::Result {
        let (written, outcome) = (self.written.escape_ascii(), &self.outcome);
        let (nodes, counts) = (self.nodes, &self.counts);
        write!(
            f,
            "{outcome:?}, `{written}` written, {nodes} nodes, messages {counts:?}"
        )
    }
}

impl Replay {
    /// Settles the network of a program for an input text, over edges of this capacity, by a schedule. Refused as the
    /// program or the input text is, where the network is too big, or where memory was refused.
    pub fn of(
        alloc: Global,
        program: &[u8],
        input: &[u8],
        capacity: usize,
        schedule: &[usize],
    ) -> Result<Replay, Refusal>
        requires some { 0 < capacity }
        requires limit { capacity ≤ greatest_capacity }
    {
        let graph = network(alloc, program, input)?;
        let settled = settle(alloc, graph, capacity, schedule)?;
        let outcome = outcome(&settled, capacity);
        Ok(Replay {
            written: written(alloc, settled.graph(), outcome)?,
            outcome,
            nodes: settled.graph().nodes(),
            counts: counts(alloc, &settled)?,
        })
    }

    /// Whether all is as a run left it.
    pub fn is_as(&self, done: &Done) -> bool {
        let alike = match (self.outcome, done.ending) {
            (Some(outcome), Ok(ending)) => outcome == ending,
            _ => false,
        };
        alike
            && self.written == done.written
            && self.nodes == done.nodes
            && self.counts == done.counts
    }
}

/// A schedule of fewer than 500 numbers, of which most are numbers of nodes.
pub fn random_schedule(
    alloc: Global,
    dice: &mut Dice,
    nodes: usize,
) -> Result<Vec<usize>, AllocError> {
    let end = nodes.saturating_add(nodes / 8).saturating_add(1);
    let mut schedule = Vec::new(alloc);
    for _ in 0..dice.below(LONG) {
        schedule.push(dice.below(end))?;
    }
    Ok(schedule)
}

// The network of a program with its input text, before any step.
fn network(alloc: Global, program: &[u8], input: &[u8]) -> Result<Graph<StreamNode>, Refusal>
    ensures { IfOk result (λ graph. AreOpened node_behaviour (states_of graph)) }
{
    let program = parse(alloc, program)?;
    let typed = check(alloc, &program)?;
    let inputs = read_inputs(typed.dialect(), alloc, typed.decls(), input)?;
    let plan = flatten(alloc, &typed)?;
    Ok(plan.with(inputs)?)
}

// How a network came out, if it did, over edges of this capacity.
fn outcome(settled: &Settled<StreamNode>, capacity: usize) -> Option<Outcome> {
    let graph = settled.graph();
    if let Some(fault) = standing_fault(graph) {
        return Some(Outcome::Fault(fault));
    }
    if have_ended(graph) {
        return Some(Outcome::Value);
    }
    let edge = first_stalled(settled, capacity)?;
    Some(Outcome::Stalled { edge })
}

// The fault that is named of all to which nodes have come.
fn standing_fault(graph: &Graph<StreamNode>) -> Option<Fault> {
    let mut standing: Option<Fault> = None;
    for node in 0..graph.nodes() {
        if let Want::Faulted(fault) = graph.node(node).want() {
            standing = Some(match standing {
                Some(other) => named(other, fault),
                None => fault,
            });
        }
    }
    standing
}

// Whether each node has ended.
fn have_ended(graph: &Graph<StreamNode>) -> bool {
    for node in 0..graph.nodes() {
        if graph.node(node).want() != Want::Ended {
            return false;
        }
    }
    true
}

// The first edge that holds its capacity while its writer waits to write to it.
fn first_stalled(settled: &Settled<StreamNode>, capacity: usize) -> Option<usize> {
    let graph = settled.graph();
    for edge in 0..graph.edges() {
        let (sent, received) = settled.counts(edge);
        let full = sent.saturating_sub(received) >= capacity as u64;
        if full && is_wanted(graph, graph.edge(edge)) {
            return Some(edge);
        }
    }
    None
}

// Whether the writer of an edge waits to write to it.
fn is_wanted(graph: &Graph<StreamNode>, edge: Edge) -> bool {
    edge.writer < graph.nodes() && graph.node(edge.writer).want() == Want::Write(edge.writer_port)
}

// What is written of a network that came out so: the text of the last node that gathers one, and a line feed, where it
// has a value, and else nothing.
fn written(
    alloc: Global,
    graph: &Graph<StreamNode>,
    outcome: Option<Outcome>,
) -> Result<Vec<u8>, AllocError> {
    let mut line = Vec::new(alloc);
    if outcome == Some(Outcome::Value) {
        line.extend_from_slice(last_text(graph))?;
        line.push(b'\n')?;
    }
    Ok(line)
}

// The text of the last node that gathers one.
fn last_text(graph: &Graph<StreamNode>) -> &[u8] {
    let mut last: &[u8] = &[];
    for node in 0..graph.nodes() {
        if let Some(text) = graph.node(node).printed() {
            last = text;
        }
    }
    last
}

// How many messages were sent and how many received, of each edge.
fn counts(alloc: Global, settled: &Settled<StreamNode>) -> Result<Vec<(u64, u64)>, AllocError> {
    let mut counts = Vec::new(alloc);
    for edge in 0..settled.graph().edges() {
        counts.push(settled.counts(edge))?;
    }
    Ok(counts)
}
