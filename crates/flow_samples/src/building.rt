// How tests build a graph: node by node, each in its opening state, and edge by edge.

ghost use Rattle.std.specs.Prelude.{◌≡◌, IfOk};
ghost use Rattle.flow_networks.specs.Graphs.{states_of, states_so_far};
ghost use Rattle.flow_networks.specs.Networks.{AreOpened};

use flow_base::Transducer;
use flow_networks::{Edge, Graph, GraphBuilder};
use std::test::Fail;

/// Adds a node in its opening state.
pub fn add<T: Transducer + Drop>(builder: &mut GraphBuilder<T>, node: T) -> Result<(), Fail>
    requires opened { AreOpened T.behaviour (states_so_far builder.old) }
    requires node { T.behaviour.opening (T.state node) ≡ T.state node }
    ensures { AreOpened T.behaviour (states_so_far builder.new) }
{
    builder.node(node)?;
    Ok(())
}

/// Adds an edge that may join, from a node and its port to a node and its port.
pub fn join<T: Transducer + Drop>(
    builder: &mut GraphBuilder<T>,
    writer: (usize, usize),
    reader: (usize, usize),
) -> Result<(), Fail>
    requires { AreOpened T.behaviour (states_so_far builder.old) }
    ensures { AreOpened T.behaviour (states_so_far builder.new) }
{
    let edge = Edge {
        writer: writer.0,
        writer_port: writer.1,
        reader: reader.0,
        reader_port: reader.1,
    };
    if !builder.may_join(edge) {
        return Err(Fail::new("an edge that may not join"));
    }
    builder.edge(edge)?;
    Ok(())
}

/// The graph, in which each port has its edge.
pub fn built<T: Transducer + Drop>(builder: GraphBuilder<T>) -> Result<Graph<T>, Fail>
    requires { AreOpened T.behaviour (states_so_far builder) }
    ensures { IfOk result (λ graph. AreOpened T.behaviour (states_of graph)) }
{
    if !builder.complete() {
        return Err(Fail::new("a port without an edge"));
    }
    Ok(builder.build())
}
