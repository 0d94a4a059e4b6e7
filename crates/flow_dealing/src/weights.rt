// The work of nodes, and what edges cost.
ghost use Rattle.std.specs.Prelude.{◌≡◌, ◌<◌, ◌≤◌, ℕ, IfOk, length, slice_index};
ghost use Rattle.flow_networks.specs.Edges.{edge_at};
ghost use Rattle.flow_networks.specs.Graphs.{edges_of, states_of};
ghost use Rattle.flow_dealing.specs.cut.Loads.{AreBetween};
ghost use Rattle.flow_dealing.specs.Weights.{AllHaveWork, CostFor, JoinAs};

use crate::cut::Link;
use crate::prices::{Driven, crossing_price, price};
use flow_base::Transducer;
use flow_messages::Kind;
use flow_networks::{Edge, Graph, graph_is_a_network};
use flow_nodes::StreamNode;
use std::alloc::{AllocError, Global};

/// The work of each node of a graph, over whose edges so many messages go, driven in this way; and its edges as links.
pub fn weights(
    alloc: Global,
    driven: Driven,
    graph: &Graph<StreamNode>,
    counts: &[u64],
) -> Result<(Vec<u64>, Vec<Link>), AllocError>
    requires each { length counts.now ≡ length (edges_of graph.now) }
    ensures work { IfOk result (λ r. length r.0.items ≡ length (states_of graph.now)) }
    ensures busy { IfOk result (λ r. AllHaveWork counts.now (edges_of graph.now) r.0.items) }
    ensures between { IfOk result (λ r. AreBetween (length (states_of graph.now)) r.1.items) }
    ensures joins { IfOk result (λ r. JoinAs (edges_of graph.now) r.1.items) }
    ensures costs { IfOk result (λ r. CostFor counts.now r.1.items) }
{
    let mut work = no_work(alloc, graph.nodes())?;
    let mut links = Vec::with_capacity(alloc, graph.edges())?;
    for number in 0..graph.edges() {
        let (edge, kind) = edge_with_kind(graph, number);
        let Edge { writer, reader, .. } = edge;
        let count = counts[number];
        add_work(
            &mut work,
            writer,
            cost(count, price(driven, graph.node(writer), kind)),
        );
        add_work(
            &mut work,
            reader,
            cost(count, price(driven, graph.node(reader), kind)),
        );
        links.push(Link {
            writer,
            reader,
            cost: cost(count, crossing_price(kind)),
        })?;
    }
    Ok((work, links))
}

// The edge of this number, and the kind of its items.
fn edge_with_kind(graph: &Graph<StreamNode>, number: usize) -> (Edge, Kind)
    requires { number < length (edges_of graph.now) }
    ensures edge { result.0 ≡ edge_at (edges_of graph.now) number }
    ensures writer { result.0.writer < length (states_of graph.now) }
    ensures reader { result.0.reader < length (states_of graph.now) }
{
    graph_is_a_network(graph);
    let edge = graph.edge(number);
    let kind = graph.node(edge.writer).kind_out(edge.writer_port);
    (edge, kind)
}

// What so many messages cost at this price, and one more, since the run may have been left before the first. It stays at
// `u64::MAX`.
fn cost(count: u64, price: u64) -> u64
    requires { 0 < price }
    ensures some { 0 < result }
    ensures enough { count ≤ result }
{
    count.saturating_add(1).saturating_mul(price)
}

// Adds to the work of a node. It stays at `u64::MAX`.
fn add_work(work: &mut [u64], node: usize, more: u64)
    requires { node < length work.old }
    ensures nodes { length work.new ≡ length work.old }
    ensures own { more ≤ slice_index work.new node }
    ensures all { (k : ℕ) → slice_index work.old k ≤ slice_index work.new k }
{
    work[node] = work[node].saturating_add(more);
}

// No work of so many nodes.
fn no_work(alloc: Global, nodes: usize) -> Result<Vec<u64>, AllocError>
    ensures { IfOk result (λ work. length work.items ≡ nodes) }
{
    vec![in alloc; 0; nodes]
}
