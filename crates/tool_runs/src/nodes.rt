// The nodes that take memory while they run, each by itself: those that lay out values, or gather a text; and those that share
// vectors, which take none.
//
// A line is printed for each: what it did, message by message (`feeding.rt`), what it wants at last, and how many of its calls were
// refused for want of memory. A call that is refused is made again, with the same message, and the node is to be as it was before:
// so the line is the same but for that number. With ample memory it is 0; `.ci/dev growths` refuses each growth in turn.

mod feeding;
mod inlets;

use anyhow::{Result, ensure};
use feeding::Fed;
use flow_base::{Node, Printing, Transducer};
use flow_messages::Kind;
use flow_nodes::StreamNode;
use flow_nodes::inputs::TextSource;
use flow_scalar::workers::Fork;
use flow_scalar::{Source, Stream};
use flow_segment::workers::{Dist, Index, Seq, Tab};
use flow_values::Print as Printer;
use inlets::{Inlet, flags, numbers, pairs, pairs_type, vector, vectors};
use snesl_data::Ty;
use std::sync::Arc;

// The place of each node in a program text.
const AT: usize = 7;

/// Feeds each of the nodes, and prints what came of it. The error is that memory was refused to anything but a node, that a
/// node was changed by a call that was refused, or that a line could not be printed.
pub fn try_nodes<R: Print + AllocGlobal>(rt: &R) -> Result<()> {
    try_source(rt)?;
    try_text_source(rt)?;
    try_fork(rt)?;
    try_dist(rt)?;
    try_tab(rt)?;
    try_seq(rt)?;
    try_index(rt)?;
    try_print(rt)
}

fn try_source<R: Print + AllocGlobal>(rt: &R) -> Result<()> {
    let alloc = rt.alloc();
    let mut all = Vec::new(alloc);
    all.push(vector(alloc, &[1, 2])?)?;
    all.push(vector(alloc, &[])?)?;
    let none = Vec::new(alloc);
    let node = StreamNode::Source(Source::new(Stream::Vectors(all)));
    try_node(rt, "source", node, none)
}

// A source over a text that spells a vector, which it builds.
fn try_text_source<R: Print + AllocGlobal>(rt: &R) -> Result<()> {
    let alloc = rt.alloc();
    let text = Arc::new(alloc, Vec::from_slice(alloc, b"{[1,2],[]}")?)?;
    let vectors = Ty::Vec(Box::new(alloc, Ty::Int)?);
    let ty = Ty::Seq(Box::new(alloc, vectors)?);
    let source = TextSource::new(alloc, text, 0, &ty, 1)?;
    let none = Vec::new(alloc);
    try_node(rt, "text source", StreamNode::TextSource(source), none)
}

fn try_fork<R: Print + AllocGlobal>(rt: &R) -> Result<()> {
    let alloc = rt.alloc();
    let inlets = vec![in alloc; vectors(alloc)?]?;
    let fork = Fork::new(Kind::Vec, 3);
    try_node(rt, "fork", StreamNode::Fork(Node::new(fork, AT)), inlets)
}

fn try_dist<R: Print + AllocGlobal>(rt: &R) -> Result<()> {
    let alloc = rt.alloc();
    let segments = flags(alloc, &[false, false, true, false, true])?;
    let inlets = vec![in alloc; vectors(alloc)?, segments]?;
    let dist = Dist::new(Kind::Vec);
    try_node(rt, "dist", StreamNode::Dist(Node::new(dist, AT)), inlets)
}

fn try_tab<R: Print + AllocGlobal>(rt: &R) -> Result<()> {
    let alloc = rt.alloc();
    let inlets = sequence(rt)?;
    let tab = Tab::new(alloc, pairs_type(alloc)?)?;
    try_node(rt, "tab", StreamNode::Tab(Node::new(tab, AT)), inlets)
}

fn try_seq<R: Print + AllocGlobal>(rt: &R) -> Result<()> {
    let alloc = rt.alloc();
    let inlets = vec![in alloc; pairs(alloc)?]?;
    let seq = Seq::new(alloc, pairs_type(alloc)?)?;
    try_node(rt, "seq", StreamNode::Seq(Node::new(seq, AT)), inlets)
}

fn try_index<R: Print + AllocGlobal>(rt: &R) -> Result<()> {
    let alloc = rt.alloc();
    let places = numbers(alloc, &[0])?;
    let inlets = vec![in alloc; pairs(alloc)?, places]?;
    let index = Index::new(alloc, pairs_type(alloc)?)?;
    try_node(rt, "index", StreamNode::Index(Node::new(index, AT)), inlets)
}

fn try_print<R: Print + AllocGlobal>(rt: &R) -> Result<()> {
    let alloc = rt.alloc();
    let inlets = sequence(rt)?;
    let ty = Ty::Seq(Box::new(alloc, pairs_type(alloc)?)?);
    let printer = Printer::new(alloc, ty, AT)?;
    try_node(rt, "print", StreamNode::Print(printer), inlets)
}

// The edges of a sequence of two pairs: its flags, the numbers and the vectors.
fn sequence<R: AllocGlobal>(rt: &R) -> Result<Vec<Inlet>> {
    let alloc = rt.alloc();
    let segment = flags(alloc, &[false, false, true])?;
    let firsts = numbers(alloc, &[8, 9])?;
    Ok(vec![in alloc; segment, firsts, vectors(alloc)?]?)
}

// Feeds a node with what comes in, and prints what came of it.
fn try_node<R: Print + AllocGlobal, T: Transducer + Printing + Drop>(
    rt: &R,
    name: &str,
    mut node: T,
    inlets: Vec<Inlet>,
) -> Result<()> {
    let mut fed = Fed::new(rt.alloc(), inlets);
    fed.feed(&mut node)?;
    let (want, refused) = (node.want(), fed.refused());
    println!(rt; "{name}:{fed} {want:?}, calls refused: {refused}")?;
    ensure!(fed.is_unchanged(), "a call that was refused changed a node");
    Ok(())
}
