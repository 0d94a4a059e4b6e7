// A network as a picture, in DOT.

ghost use Rattle.std.specs.Prelude.{◌≡◌, ◌++◌, IfOk, OnOk, flat_map};
ghost use Rattle.std.specs.List.{list_any};
ghost use Rattle.snesl_draw.specs.Texts.{arrow, beside_first, edge_line, form_nodes, frame, frame_head, framed, free_node, kind_cell, legend, legend_cell, legend_cells, network_dot, node_line, node_of_form, outside, title_line, title_place, traffic_part};
ghost use Rattle.snesl_draw.specs.Words.{is_kind};

use crate::drawing::{Drawing, DrawnEdge, DrawnForm, DrawnNode};
use crate::forms::has_form;
use crate::lines::{
    append_form_title, append_messages, append_number, append_text, append_title, append_width,
};
use crate::words::{is_kind, kind_colour, kind_word};
use flow_messages::Kind;
use std::alloc::{AllocError, Global};

// The settings of the picture.
const HEAD: &str = "digraph network {
  newrank=true; nodesep=0.25; ranksep=0.3; fontname=\"Helvetica\"; fontsize=10; bgcolor=white;
  node [shape=box, style=\"rounded,filled\", fillcolor=white, height=0.25, margin=\"0.08,0.04\",
    fontname=\"Helvetica\", fontsize=10];
  edge [arrowsize=0.6, fontname=\"Helvetica\", fontsize=8];
";

// Those of a frame, and of its title.
const FRAME: &str = " {\n  color=\"#cccccc\"; bgcolor=\"#f4f4f4\";\n";

const TITLE: &str = " [shape=plaintext, style=\"\", width=0, margin=\"0.05,0\", label=\"";

// The beginning of the legend.
const LEGEND: &str = "  label=<<table border=\"1\" cellborder=\"0\" color=\"#cccccc\"><tr>";

/// The network of a program as a picture in DOT. It has a box for each node: in a frame for each of the forms, or free. It has
/// an arrow for each edge, in the colour of the kind of its items, with how many messages went over it, where that is known, and
/// a legend of the colours. The error is that memory was refused.
pub fn network_dot(alloc: Global, program: &[u8], drawing: &Drawing) -> Result<Vec<u8>, AllocError>
    ensures { IfOk result (λ text. text.items ≡ network_dot program.now drawing.now) }
{
    let mut text = Vec::new(alloc);
    append_text(&mut text, HEAD)?;
    append_free(&mut text, alloc, program, &drawing.forms, &drawing.nodes)?;
    append_frames(&mut text, alloc, program, &drawing.nodes, &drawing.forms)?;
    append_edges(&mut text, &drawing.edges)?;
    append_legend(&mut text, &drawing.edges)?;
    append_text(&mut text, "}\n")?;
    Ok(text)
}

// The nodes that stand free.
fn append_free(
    text: &mut Vec<u8>,
    alloc: Global,
    program: &[u8],
    forms: &[DrawnForm],
    nodes: &[DrawnNode],
) -> Result<(), AllocError>
    ensures { OnOk result (text.new.items
        ≡ text.old.items ++ outside program.now forms.now nodes.now) }
{
    for node in nodes {
        append_free_node(text, alloc, program, forms, *node)?;
    }
    Ok(())
}

// A node, if none of the forms is its own.
fn append_free_node(
    text: &mut Vec<u8>,
    alloc: Global,
    program: &[u8],
    forms: &[DrawnForm],
    node: DrawnNode,
) -> Result<(), AllocError>
    ensures { OnOk result (text.new.items
        ≡ text.old.items ++ free_node program.now forms.now node) }
{
    if has_form(forms, node.at) {
        return Ok(());
    }
    append_node(text, alloc, program, node)
}

fn append_node(
    text: &mut Vec<u8>,
    alloc: Global,
    program: &[u8],
    node: DrawnNode,
) -> Result<(), AllocError>
    ensures { OnOk result (text.new.items ≡ text.old.items ++ node_line program.now node) }
{
    append_text(text, "  n")?;
    append_number(text, node.number)?;
    append_text(text, " [label=\"")?;
    append_title(text, alloc, program, node)?;
    append_text(text, "\"];\n")
}

fn append_frames(
    text: &mut Vec<u8>,
    alloc: Global,
    program: &[u8],
    nodes: &[DrawnNode],
    forms: &[DrawnForm],
) -> Result<(), AllocError>
    ensures { OnOk result (text.new.items
        ≡ text.old.items ++ framed program.now nodes.now forms.now) }
{
    for form in forms {
        append_frame(text, alloc, program, nodes, *form)?;
    }
    Ok(())
}

// The frame of a form, with its nodes.
fn append_frame(
    text: &mut Vec<u8>,
    alloc: Global,
    program: &[u8],
    nodes: &[DrawnNode],
    form: DrawnForm,
) -> Result<(), AllocError>
    ensures { OnOk result (text.new.items ≡ text.old.items ++ frame program.now nodes.now form) }
{
    append_frame_head(text, alloc, program, form)?;
    append_nodes(text, alloc, program, nodes, form.at)?;
    append_text(text, "  }\n")
}

// Its beginning, with its title beside the first of its nodes, where no edge crosses it.
fn append_frame_head(
    text: &mut Vec<u8>,
    alloc: Global,
    program: &[u8],
    form: DrawnForm,
) -> Result<(), AllocError>
    ensures { OnOk result (text.new.items ≡ text.old.items ++ frame_head program.now form) }
{
    append_text(text, "  subgraph cluster_")?;
    append_number(text, form.at)?;
    append_text(text, FRAME)?;
    append_title_line(text, alloc, program, form)?;
    append_title_place(text, form)
}

// Its title, which is a node to DOT.
fn append_title_line(
    text: &mut Vec<u8>,
    alloc: Global,
    program: &[u8],
    form: DrawnForm,
) -> Result<(), AllocError>
    ensures { OnOk result (text.new.items ≡ text.old.items ++ title_line program.now form) }
{
    append_text(text, "  f")?;
    append_number(text, form.at)?;
    append_text(text, TITLE)?;
    append_form_title(text, alloc, program, form)?;
    append_text(text, "\"];\n")
}

// That the title stands beside the first node.
fn append_title_place(text: &mut Vec<u8>, form: DrawnForm) -> Result<(), AllocError>
    ensures { OnOk result (text.new.items ≡ text.old.items ++ title_place form) }
{
    append_text(text, "  {rank=same; f")?;
    append_number(text, form.at)?;
    append_beside_first(text, form)
}

fn append_beside_first(text: &mut Vec<u8>, form: DrawnForm) -> Result<(), AllocError>
    ensures { OnOk result (text.new.items ≡ text.old.items ++ beside_first form) }
{
    append_text(text, "; n")?;
    append_number(text, form.first)?;
    append_text(text, "}\n")
}

// The nodes of a form.
fn append_nodes(
    text: &mut Vec<u8>,
    alloc: Global,
    program: &[u8],
    nodes: &[DrawnNode],
    at: usize,
) -> Result<(), AllocError>
    ensures { OnOk result (text.new.items ≡ text.old.items ++ form_nodes program.now at nodes.now) }
{
    for node in nodes {
        append_node_of_form(text, alloc, program, *node, at)?;
    }
    Ok(())
}

// A node, if it comes from this form.
fn append_node_of_form(
    text: &mut Vec<u8>,
    alloc: Global,
    program: &[u8],
    node: DrawnNode,
    at: usize,
) -> Result<(), AllocError>
    ensures { OnOk result (text.new.items ≡ text.old.items ++ node_of_form program.now at node) }
{
    if node.at != at {
        return Ok(());
    }
    append_node(text, alloc, program, node)
}

fn append_edges(text: &mut Vec<u8>, edges: &[DrawnEdge]) -> Result<(), AllocError>
    ensures { OnOk result (text.new.items ≡ text.old.items ++ flat_map edge_line edges.now) }
{
    for edge in edges {
        append_edge(text, *edge)?;
    }
    Ok(())
}

fn append_edge(text: &mut Vec<u8>, edge: DrawnEdge) -> Result<(), AllocError>
    ensures { OnOk result (text.new.items ≡ text.old.items ++ edge_line edge) }
{
    let colour = kind_colour(edge.kind);
    append_arrow(text, edge)?;
    append_text(text, " [color=\"")?;
    append_text(text, colour)?;
    append_text(text, "\"")?;
    append_traffic(text, colour, edge.messages)?;
    append_text(text, "];\n")
}

// From the writer of an edge to its reader.
fn append_arrow(text: &mut Vec<u8>, edge: DrawnEdge) -> Result<(), AllocError>
    ensures { OnOk result (text.new.items ≡ text.old.items ++ arrow edge) }
{
    append_text(text, "  n")?;
    append_number(text, edge.edge.writer)?;
    append_text(text, " -> n")?;
    append_number(text, edge.edge.reader)
}

// How many messages went over an edge, and how thick it is for them, where that is known.
fn append_traffic(text: &mut Vec<u8>, colour: &str, messages: Option<u64>) -> Result<(), AllocError>
    ensures { OnOk result (text.new.items ≡ text.old.items ++ traffic_part colour.now messages) }
{
    match messages {
        Some(messages) => {
            append_text(text, ", label=\" ")?;
            append_messages(text, messages)?;
            append_text(text, "\", fontcolor=\"")?;
            append_text(text, colour)?;
            append_text(text, "\", penwidth=")?;
            append_width(text, messages)
        }
        None => Ok(()),
    }
}

// The colours of the kinds that edges are of, if there are edges.
fn append_legend(text: &mut Vec<u8>, edges: &[DrawnEdge]) -> Result<(), AllocError>
    ensures { OnOk result (text.new.items ≡ text.old.items ++ legend edges.now) }
{
    if edges.is_empty() {
        return Ok(());
    }
    append_text(text, LEGEND)?;
    append_legend_cells(text, edges)?;
    append_text(text, "</tr></table>>; labelloc=b; labeljust=r;\n")
}

fn append_legend_cells(text: &mut Vec<u8>, edges: &[DrawnEdge]) -> Result<(), AllocError>
    ensures { OnOk result (text.new.items ≡ text.old.items ++ legend_cells edges.now) }
{
    append_legend_cell(text, edges, Kind::Unit)?;
    append_legend_cell(text, edges, Kind::Bool)?;
    append_legend_cell(text, edges, Kind::Int)?;
    append_legend_cell(text, edges, Kind::Vec)
}

// That of a kind, if some edge is of it.
fn append_legend_cell(text: &mut Vec<u8>, edges: &[DrawnEdge], kind: Kind) -> Result<(), AllocError>
    ensures { OnOk result (text.new.items ≡ text.old.items ++ legend_cell edges.now kind) }
{
    if has_kind(edges, kind) {
        return append_kind_cell(text, kind);
    }
    Ok(())
}

// What a kind is called, in its colour.
fn append_kind_cell(text: &mut Vec<u8>, kind: Kind) -> Result<(), AllocError>
    ensures { OnOk result (text.new.items ≡ text.old.items ++ kind_cell kind) }
{
    append_text(text, "<td><font color=\"")?;
    append_text(text, kind_colour(kind))?;
    append_text(text, "\">")?;
    append_text(text, kind_word(kind))?;
    append_text(text, "</font></td>")
}

fn has_kind(edges: &[DrawnEdge], kind: Kind) -> bool
    ensures { result ≡ list_any (λ edge. is_kind kind edge.kind) edges.now }
{
    edges.iter().any(|edge| is_kind(kind, edge.kind))
}
