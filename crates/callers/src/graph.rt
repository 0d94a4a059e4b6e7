// A network of one's own.
ghost use Rattle.std.specs.Prelude.{◌≡◌, ◌+◌, ◌<◌, ◌≤◌, IfErr, IfOk, IfSome};
ghost use Rattle.flow_graph.specs.EdgeLimits.{greatest_capacity};
ghost use Rattle.flow_graph.specs.Refusal.TheVariants.{NoMemory};
ghost use Rattle.flow_graph.specs.StreamNodes.{node_behaviour, state_of};

use flow_graph::{Edge, GraphBuilder, StreamNode, settle};
use snesl_values::Refusal;
use std::alloc::Global;

/// How many messages one node sent to another, and how many that one received, when neither can
/// step. `None` where they and their one edge are no network.
///
/// An error where memory was refused.
pub fn carried(
    alloc: Global,
    writer: StreamNode,
    reader: StreamNode,
    capacity: usize,
) -> Result<Option<(u64, u64)>, Refusal>
    requires writer { node_behaviour.opening (state_of writer) ≡ state_of writer }
    requires reader { node_behaviour.opening (state_of reader) ≡ state_of reader }
    requires some { 0 < capacity }
    requires limit { capacity ≤ greatest_capacity }
    ensures received { IfOk result (λ counts. IfSome counts (λ count. count.1 ≤ count.0)) }
    ensures held { IfOk result (λ counts. IfSome counts (λ count. count.0 ≤ count.1 + capacity)) }
    ensures memory { IfErr result (λ refusal. refusal ≡ NoMemory) }
{
    let mut builder = GraphBuilder::new(alloc);
    let edge = Edge {
        writer: builder.node(writer)?,
        writer_port: 0,
        reader: builder.node(reader)?,
        reader_port: 0,
    };
    if !builder.may_join(edge) {
        return Ok(None);
    }
    let number = builder.edge(edge)?;
    if !builder.complete() {
        return Ok(None);
    }
    let settled = settle(alloc, builder.build(), capacity, &[])?;
    Ok(Some(settled.counts(number)))
}
