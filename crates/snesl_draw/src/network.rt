// A network, for a drawing.

ghost use Rattle.std.specs.Prelude.{◌≡◌, ◌<◌, IfOk, length};
ghost use Rattle.flow_networks.specs.Edges.{edge_at};
ghost use Rattle.flow_networks.specs.Graphs.{edges_of, states_of};
ghost use Rattle.snesl_draw.specs.Forms.{HasForms};
ghost use Rattle.snesl_draw.specs.Networks.{drawn_edge, drawn_edges};
ghost use Rattle.snesl_types.specs.Typed.{program_of};

use crate::drawing::{Drawing, DrawnEdge, DrawnNode, InputStream};
use crate::forms::forms_of;
use crate::inputs::input_streams;
use crate::steps::steps_of_program;
use crate::words::operation_word;
use flow_base::Transducer;
use flow_networks::{Graph, graph_is_a_network};
use flow_nodes::StreamNode;
use flow_nodes::plans::{Operation, Step};
use snesl_data::Refusal;
use snesl_types::TypedProgram;
use std::alloc::{AllocError, Global};

/// The drawing of a network of a typed program, as `flatten` and `Plan::with` make it: its nodes in order, its edges
/// with the kinds of their items, and the forms that nodes come from, but for the outermost one. How many messages go over edges
/// is not known.
///
/// # Errors
///
/// - `TooBig`: the program has more steps than a graph has nodes, so that the network is not its.
/// - `NoMemory`: memory was refused.
pub fn drawing_of(
    alloc: Global,
    typed: &TypedProgram<'_>,
    graph: &Graph<StreamNode>,
) -> Result<Drawing, Refusal>
    ensures nodes { IfOk result (λ drawing. length drawing.nodes.items
        ≡ length (states_of graph.now)) }
    ensures edges { IfOk result (λ drawing. drawing.edges.items ≡ drawn_edges graph.now) }
    ensures forms { IfOk result (HasForms (program_of typed.now)) }
{
    let steps = steps_of_program(alloc, typed)?;
    let inputs = input_streams(alloc, typed.program())?;
    let nodes = drawn_nodes(alloc, &steps, &inputs, graph)?;
    let edges = drawn_edges(alloc, graph)?;
    let forms = forms_of(alloc, typed.program(), &nodes)?;
    Ok(Drawing {
        nodes,
        edges,
        forms,
    })
}

// The nodes: that of each step, and after it those that join what it writes to its readers, which are none of a step.
fn drawn_nodes(
    alloc: Global,
    steps: &[Step],
    inputs: &[InputStream],
    graph: &Graph<StreamNode>,
) -> Result<Vec<DrawnNode>, AllocError>
    ensures { IfOk result (λ nodes. length nodes.items ≡ length (states_of graph.now)) }
{
    let mut nodes = Vec::new(alloc);
    let mut later = steps.iter();
    let mut streams = inputs.iter();
    let mut at = 0;
    for number in 0..graph.nodes() {
        let mut input = None;
        let word = match graph.node(number) {
            StreamNode::Fork(_) => "Fork",
            StreamNode::Sink(_) => "Sink",
            _ => match later.next() {
                Some(step) => {
                    at = step.at;
                    if let Operation::Input(_) = step.operation {
                        input = streams.next().copied();
                    }
                    operation_word(&step.operation)
                }
                None => "",
            },
        };
        nodes.push(DrawnNode {
            number,
            word,
            at,
            input,
        })?;
    }
    Ok(nodes)
}

// The edges, by their numbers.
fn drawn_edges(alloc: Global, graph: &Graph<StreamNode>) -> Result<Vec<DrawnEdge>, AllocError>
    ensures { IfOk result (λ edges. edges.items ≡ drawn_edges graph.now) }
{
    let mut edges = Vec::new(alloc);
    for number in 0..graph.edges() {
        edges.push(drawn_edge(graph, number))?;
    }
    Ok(edges)
}

// The edge of this number, of which no traffic is known.
fn drawn_edge(graph: &Graph<StreamNode>, number: usize) -> DrawnEdge
    requires { number < length (edges_of graph.now) }
    ensures { result ≡ drawn_edge graph.now (edge_at (edges_of graph.now) number) }
{
    graph_is_a_network(graph);
    let edge = graph.edge(number);
    let kind = graph.node(edge.writer).kind_out(edge.writer_port);
    DrawnEdge {
        edge,
        kind,
        messages: None,
    }
}
