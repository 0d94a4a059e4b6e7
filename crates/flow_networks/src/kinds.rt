// The kinds of the edges of a graph.
ghost use Rattle.std.specs.Prelude.{◌≡◌, IfOk};
ghost use Rattle.flow_networks.specs.EdgeKinds.{graph_kinds};

use crate::graph::Graph;
use flow_base::Transducer;
use flow_messages::Kind;
use std::alloc::{AllocError, Global};

/// Of each edge of the graph, the kind of its items: that of its writer's port.
///
/// Its only error is that memory was refused.
pub fn kinds_of<T: Transducer>(alloc: Global, graph: &Graph<T>) -> Result<Vec<Kind>, AllocError>
    ensures { IfOk result (λ kinds. kinds.items ≡ graph_kinds graph.now) }
{
    let mut kinds = Vec::with_capacity(alloc, graph.edges())?;
    for number in 0..graph.edges() {
        let edge = graph.edge(number);
        kinds.push(graph.node(edge.writer).kind_out(edge.writer_port))?;
    }
    Ok(kinds)
}
