// The network of `reduce_add({x * x : x in iota(n)})`, built by hand.
ghost use Rattle.std.specs.Prelude.{◌≡◌, IfOk};
ghost use Rattle.flow_nodes.specs.StreamNodes.{node_behaviour, state_of};
ghost use Rattle.flow_networks.specs.Graphs.{states_of, states_so_far};
ghost use Rattle.flow_networks.specs.Networks.{AreOpened};

use flow_base::Node;
use flow_messages::Kind;
use flow_networks::{Edge, Graph, GraphBuilder};
use flow_nodes::StreamNode;
use flow_scalar::workers::{Binary, Const, Fork, Iota, Reduce, Sink, UnitsOf};
use flow_scalar::{Source, Stream};
use snesl_data::Dialect;
use snesl_data::operators::{BinaryOperator, Reduction, Scalar};
use std::alloc::Global;
use std::io::{self, Error, ErrorKind};

// From the writer and its port to the reader and its port.
const EDGES: [((usize, usize), (usize, usize)); 11] = [
    ((0, 0), (1, 0)),
    ((1, 0), (2, 0)),
    ((2, 0), (3, 0)),
    ((2, 1), (6, 0)),
    ((3, 0), (4, 0)),
    ((3, 1), (8, 0)),
    ((4, 0), (5, 0)),
    ((6, 0), (7, 0)),
    ((6, 1), (7, 1)),
    ((7, 0), (8, 1)),
    ((8, 0), (9, 0)),
];

/// The network: one Unit becomes n, of which `Iota` makes flags and elements; the elements are copied, multiplied
/// and added up. The flags go also to `UnitsOf`, whose units nothing uses.
pub fn squares(alloc: Global, count: u64) -> io::Result<Graph<StreamNode>>
    ensures { IfOk result (λ graph. AreOpened node_behaviour (states_of graph)) }
{
    let mut builder = empty(alloc);
    add_nodes(&mut builder, count)?;
    add_edges(&mut builder)?;
    if !builder.complete() {
        return Err(Error::from(ErrorKind::InvalidInput));
    }
    Ok(builder.build())
}

// Adds the nodes to a builder, in the order of their numbers. It is lent, so nothing is let go where one is refused.
fn add_nodes(builder: &mut GraphBuilder<StreamNode>, count: u64) -> io::Result<()>
    requires { AreOpened node_behaviour (states_so_far builder.old) }
    ensures { AreOpened node_behaviour (states_so_far builder.new) }
{
    let number = Scalar::Int(i128::from(count));
    let (times, sum) = (BinaryOperator::Multiply, Reduction::Sum);
    add(builder, StreamNode::Source(Source::new(Stream::Units(1))))?;
    add(builder, StreamNode::Const(Node::new(Const::new(number), 1)))?;
    add(builder, StreamNode::Iota(Node::new(Iota::new(), 2)))?;
    add(
        builder,
        StreamNode::Fork(Node::new(Fork::new(Kind::Bool, 2), 3)),
    )?;
    add(builder, StreamNode::UnitsOf(Node::new(UnitsOf::new(), 4)))?;
    add(
        builder,
        StreamNode::Sink(Node::new(Sink::new(Kind::Unit), 5)),
    )?;
    add(
        builder,
        StreamNode::Fork(Node::new(Fork::new(Kind::Int, 2), 6)),
    )?;
    add(
        builder,
        StreamNode::Binary(Node::new(Binary::new(Dialect::One, times), 7)),
    )?;
    add(
        builder,
        StreamNode::Reduce(Node::new(Reduce::new(Dialect::One, sum), 8)),
    )?;
    add(
        builder,
        StreamNode::Sink(Node::new(Sink::new(Kind::Int), 9)),
    )
}

// Adds the edges.
fn add_edges(builder: &mut GraphBuilder<StreamNode>) -> io::Result<()>
    requires { AreOpened node_behaviour (states_so_far builder.old) }
    ensures { AreOpened node_behaviour (states_so_far builder.new) }
{
    for &((writer, writer_port), (reader, reader_port)) in &EDGES {
        let edge = Edge {
            writer,
            writer_port,
            reader,
            reader_port,
        };
        join(builder, edge)?;
    }
    Ok(())
}

// A builder with no nodes and no edges.
fn empty(alloc: Global) -> GraphBuilder<StreamNode>
    ensures { AreOpened node_behaviour (states_so_far result) }
{
    GraphBuilder::new(alloc)
}

// Adds a node in its opening state.
fn add(builder: &mut GraphBuilder<StreamNode>, node: StreamNode) -> io::Result<()>
    requires opened { AreOpened node_behaviour (states_so_far builder.old) }
    requires node { node_behaviour.opening (state_of node) ≡ state_of node }
    ensures { AreOpened node_behaviour (states_so_far builder.new) }
{
    match builder.node(node) {
        Ok(_) => Ok(()),
        Err(_) => Err(Error::from(ErrorKind::OutOfMemory)),
    }
}

// Adds an edge that may join.
fn join(builder: &mut GraphBuilder<StreamNode>, edge: Edge) -> io::Result<()>
    requires { AreOpened node_behaviour (states_so_far builder.old) }
    ensures { AreOpened node_behaviour (states_so_far builder.new) }
{
    if !builder.may_join(edge) {
        return Err(Error::from(ErrorKind::InvalidInput));
    }
    match builder.edge(edge) {
        Ok(_) => Ok(()),
        Err(_) => Err(Error::from(ErrorKind::OutOfMemory)),
    }
}
