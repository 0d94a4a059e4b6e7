// A network as a text.

ghost use Rattle.std.specs.Prelude.{◌≡◌, ◌++◌, IfOk, OnOk, flat_map};
ghost use Rattle.snesl_draw.specs.Texts.{network_text, node_head, node_text, read_by, written_by};

use crate::drawing::{Drawing, DrawnEdge, DrawnNode};
use crate::lines::{append_carried, append_number, append_place, append_text, append_title};
use std::alloc::{AllocError, Global};

/// A line for each node of the network of a program: its number and what it is called, the line and the column of the offset
/// of the form that it comes from, and each edge that it reads and that it writes, with the node at the other end, the kind of its
/// items, and how many messages went over it, where that is known. The error is that memory was refused.
pub fn network_text(alloc: Global, program: &[u8], drawing: &Drawing) -> Result<Vec<u8>, AllocError>
    ensures { IfOk result (λ text. text.items ≡ network_text program.now drawing.now) }
{
    let mut text = Vec::new(alloc);
    for node in &drawing.nodes {
        append_node(&mut text, alloc, program, &drawing.edges, *node)?;
    }
    Ok(text)
}

// The line of a node.
fn append_node(
    text: &mut Vec<u8>,
    alloc: Global,
    program: &[u8],
    edges: &[DrawnEdge],
    node: DrawnNode,
) -> Result<(), AllocError>
    ensures { OnOk result (text.new.items ≡ text.old.items ++ node_text program.now edges.now node) }
{
    append_head(text, alloc, program, node)?;
    append_reads(text, edges, node.number)?;
    append_writes(text, edges, node.number)?;
    append_text(text, "\n")
}

// Its title and its place.
fn append_head(
    text: &mut Vec<u8>,
    alloc: Global,
    program: &[u8],
    node: DrawnNode,
) -> Result<(), AllocError>
    ensures { OnOk result (text.new.items ≡ text.old.items ++ node_head program.now node) }
{
    append_title(text, alloc, program, node)?;
    append_text(text, " ")?;
    append_place(text, program, node.at)
}

// The edges that a node reads.
fn append_reads(text: &mut Vec<u8>, edges: &[DrawnEdge], number: usize) -> Result<(), AllocError>
    ensures { OnOk result (text.new.items ≡ text.old.items ++ flat_map (read_by number) edges.now) }
{
    for edge in edges {
        append_read(text, *edge, number)?;
    }
    Ok(())
}

fn append_read(text: &mut Vec<u8>, edge: DrawnEdge, number: usize) -> Result<(), AllocError>
    ensures { OnOk result (text.new.items ≡ text.old.items ++ read_by number edge) }
{
    if edge.edge.reader != number {
        return Ok(());
    }
    append_text(text, " <- ")?;
    append_number(text, edge.edge.writer)?;
    append_text(text, " ")?;
    append_carried(text, edge)
}

// The edges that a node writes.
fn append_writes(text: &mut Vec<u8>, edges: &[DrawnEdge], number: usize) -> Result<(), AllocError>
    ensures { OnOk result (text.new.items
        ≡ text.old.items ++ flat_map (written_by number) edges.now) }
{
    for edge in edges {
        append_write(text, *edge, number)?;
    }
    Ok(())
}

fn append_write(text: &mut Vec<u8>, edge: DrawnEdge, number: usize) -> Result<(), AllocError>
    ensures { OnOk result (text.new.items ≡ text.old.items ++ written_by number edge) }
{
    if edge.edge.writer != number {
        return Ok(());
    }
    append_text(text, " -> ")?;
    append_number(text, edge.edge.reader)?;
    append_text(text, " ")?;
    append_carried(text, edge)
}
