// Graphs, and their steps.
use flow_edges::{Ends, Kind, Table};
use flow_graph::{
    Edge, Graph, GraphBuilder, NoMemory, Settled, Stepped, StreamNode, kinds_of, settle,
    step_block, step_once,
};
use flow_scalar::workers::Sink;
use flow_scalar::{Node, Source, Stream};
use snesl_values::Refusal;
use std::alloc::Global;

/// Three units, and what drops them.
pub fn units(alloc: Global) -> Result<Option<Graph>, Refusal> {
    let mut builder = GraphBuilder::new(alloc);
    let writer = builder.node(StreamNode::Source(Source::new(Stream::Units(3))))?;
    let reader = builder.node(StreamNode::Sink(Node::new(Sink::new(Kind::Unit), 0)))?;
    let edge = Edge {
        writer,
        writer_port: 0,
        reader,
        reader_port: 0,
    };
    if !builder.may_join(edge) {
        return Ok(None);
    }
    builder.edge(edge)?;
    if !builder.complete() {
        return Ok(None);
    }
    Ok(Some(builder.build()))
}

/// Both ends of each edge of a graph, which holds at most four messages.
pub fn table_for(alloc: Global, graph: &Graph) -> Result<Table, NoMemory> {
    let kinds = kinds_of(alloc, graph)?;
    Table::new(alloc, &kinds, 4)
}

/// One step of each node, in order. How many made one.
pub fn steps(graph: &mut Graph, ends: &mut Table) -> Result<usize, NoMemory> {
    let mut moved: usize = 0;
    for node in 0..graph.nodes() {
        if node < graph.nodes() && graph.may_step(ends, node) {
            match step_once(graph, ends, node)? {
                Stepped::One => moved = moved.saturating_add(1),
                Stepped::Nothing => {}
            }
        }
    }
    Ok(moved)
}

/// Steps of each node in a block, in order, at most so many of each. How many they made.
pub fn block_steps<E: Ends>(graph: &mut Graph, ends: &mut E, most: usize) -> usize {
    let mut made: usize = 0;
    for node in 0..graph.nodes() {
        if node < graph.nodes() && graph.may_step(ends, node) {
            made = made.saturating_add(step_block(graph, ends, node, most));
        }
    }
    made
}

/// Three units settled by a schedule, which names a node that is not there too.
pub fn settled(alloc: Global) -> Result<Option<Settled>, Refusal> {
    let mut builder = GraphBuilder::new(alloc);
    builder.node(StreamNode::Source(Source::new(Stream::Units(3))))?;
    builder.node(StreamNode::Sink(Node::new(Sink::new(Kind::Unit), 0)))?;
    let edge = Edge {
        writer: 0,
        writer_port: 0,
        reader: 1,
        reader_port: 0,
    };
    if !builder.may_join(edge) {
        return Ok(None);
    }
    builder.edge(edge)?;
    if !builder.complete() {
        return Ok(None);
    }
    Ok(Some(settle(alloc, builder.build(), 4, &[0, 1, 99])?))
}

/// How many messages were sent and received on an edge.
pub fn counts_of(settled: &Settled, edge: usize) -> Option<(u64, u64)> {
    if edge < settled.graph().edges() {
        return Some(settled.counts(edge));
    }
    None
}
