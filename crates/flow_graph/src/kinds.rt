// The kinds of the edges of a graph.
ghost use Rattle.std.specs.Prelude.{◌≡◌, IfOk};
ghost use Rattle.flow_networks.specs.EdgeKinds.{graph_kinds};

use crate::graphs::Graph;
use flow_messages::Kind;
use std::alloc::{AllocError, Global};

/// Of each edge of the graph, the kind of its items: that of its writer's port. A `Table` that is told them takes what the
/// nodes may put.
///
/// Its only error is that memory was refused.
pub fn kinds_of(alloc: Global, graph: &Graph) -> Result<Vec<Kind>, AllocError>
    ensures { IfOk result (λ kinds. kinds.items ≡ graph_kinds graph.now) }
{
    flow_networks::kinds_of(alloc, graph)
}
