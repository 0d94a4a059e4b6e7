// Nodes made of words: a kind, and after it what that kind has for parameters.

ghost use Rattle.std.specs.Prelude.{◌≡◌, ◌≤◌, IfOk};
ghost use Rattle.flow_nodes.specs.StreamNodes.{node_behaviour, state_of};

use crate::words::{
    BINARY, DIALECTS, KINDS, REDUCTIONS, TRUTHS, UNARY, WordError, integer_of, named, number_of,
    type_of,
};
use flow_base::Node;
use flow_messages::Kind;
use flow_nodes::StreamNode;
use flow_scalar::workers::{
    Binary, Const, Fork, Iota, Length, Reduce, ScanAdd, Sink, Unary, UnitsOf,
};
use flow_scalar::{Source, Stream};
use flow_segment::workers::{
    AppendFlags, ConcatFlags, Dist, FlagOfBool, Index, Interleave, InterleaveGroups, Pack,
    PackGroups, PartFlags, SameFlags, Seq, Tab, TheCheck,
};
use flow_values::Print;
use snesl_data::operators::{BinaryOperator, Reduction, Scalar, UnaryOperator};
use snesl_data::{Dialect, Ty};
use std::alloc::{AllocError, Global};

/// The node of these words, at this offset in the program text, before it has read or written anything.
pub fn node_of(alloc: Global, words: &str, at: usize) -> Result<StreamNode, WordError>
    ensures { IfOk result (λ node. node_behaviour.opening (state_of node) ≡ state_of node) }
{
    let (kind, parameters) = words.split_once(' ').unwrap_or((words, ""));
    if parameters.is_empty() {
        return plain_node(kind, at);
    }
    match kind {
        "print" | "tab" | "seq" | "index" => {
            value_node(alloc, kind, type_of(alloc, parameters)?, at)
        }
        "unary" | "binary" | "reduce" | "scan_add" | "length" => {
            let (dialect, work) = work_of(kind, parameters)?;
            Ok(computing_node(dialect, work, at))
        }
        "source" => Ok(StreamNode::Source(Source::new(stream_of(alloc, parameters)?))),
        "const" => Ok(StreamNode::Const(Node::new(Const::new(scalar_of(parameters)?), at))),
        "fork" => {
            let (kind, outputs) = branches_of(parameters)?;
            Ok(StreamNode::Fork(Node::new(Fork::new(kind, outputs), at)))
        }
        _ => kind_node(kind, named(&KINDS, parameters)?, at),
    }
}

// A node of a kind that has no parameters.
fn plain_node(kind: &str, at: usize) -> Result<StreamNode, WordError>
    ensures { IfOk result (λ node. node_behaviour.opening (state_of node) ≡ state_of node) }
{
    match kind {
        "iota" => Ok(StreamNode::Iota(Node::new(Iota::new(), at))),
        "units_of" => Ok(StreamNode::UnitsOf(Node::new(UnitsOf::new(), at))),
        "flag_of_bool" => Ok(StreamNode::FlagOfBool(Node::new(FlagOfBool::new(), at))),
        "the_check" => Ok(StreamNode::TheCheck(Node::new(TheCheck::new(), at))),
        "same_flags" => Ok(StreamNode::SameFlags(Node::new(SameFlags::new(), at))),
        "concat_flags" => Ok(StreamNode::ConcatFlags(Node::new(ConcatFlags::new(), at))),
        "part_flags" => Ok(StreamNode::PartFlags(Node::new(PartFlags::new(), at))),
        "append_flags" => Ok(StreamNode::AppendFlags(Node::new(AppendFlags::new(), at))),
        "pack_groups" => Ok(StreamNode::PackGroups(Node::new(PackGroups::new(), at))),
        "interleave_groups" => Ok(StreamNode::InterleaveGroups(Node::new(
            InterleaveGroups::new(),
            at,
        ))),
        _ => Err(WordError::Unread),
    }
}

// What a node computes.
#[derive(Clone, Copy)]
enum Work {
    Unary(UnaryOperator),
    Binary(BinaryOperator),
    Reduce(Reduction),
    ScanAdd,
    Length,
}

// The dialect of a node that computes, and what: its operator stands after the dialect, if it has one.
fn work_of(kind: &str, words: &str) -> Result<(Dialect, Work), WordError> {
    let (dialect, word) = words.split_once(' ').unwrap_or((words, ""));
    let work = match kind {
        "unary" => Work::Unary(named(&UNARY, word)?),
        "binary" => Work::Binary(named(&BINARY, word)?),
        "reduce" => Work::Reduce(named(&REDUCTIONS, word)?),
        "scan_add" if word.is_empty() => Work::ScanAdd,
        "length" if word.is_empty() => Work::Length,
        _ => return Err(WordError::Unread),
    };
    Ok((named(&DIALECTS, dialect)?, work))
}

// A node that computes.
fn computing_node(dialect: Dialect, work: Work, at: usize) -> StreamNode
    ensures { node_behaviour.opening (state_of result) ≡ state_of result }
{
    match work {
        Work::Unary(operator) => StreamNode::Unary(Node::new(Unary::new(dialect, operator), at)),
        Work::Binary(operator) => StreamNode::Binary(Node::new(Binary::new(dialect, operator), at)),
        Work::Reduce(reduction) => StreamNode::Reduce(Node::new(
            Reduce::new(dialect, reduction),
            at,
        )),
        Work::ScanAdd => StreamNode::ScanAdd(Node::new(ScanAdd::new(dialect), at)),
        Work::Length => StreamNode::Length(Node::new(Length::new(dialect), at)),
    }
}

// A node whose parameter is the kind of its items.
fn kind_node(kind: &str, of: Kind, at: usize) -> Result<StreamNode, WordError>
    ensures { IfOk result (λ node. node_behaviour.opening (state_of node) ≡ state_of node) }
{
    match kind {
        "sink" => Ok(StreamNode::Sink(Node::new(Sink::new(of), at))),
        "dist" => Ok(StreamNode::Dist(Node::new(Dist::new(of), at))),
        "pack" => Ok(StreamNode::Pack(Node::new(Pack::new(of), at))),
        "interleave" => Ok(StreamNode::Interleave(Node::new(Interleave::new(of), at))),
        _ => Err(WordError::Unread),
    }
}

// A node whose parameter is a type.
fn value_node(alloc: Global, kind: &str, ty: Ty, at: usize) -> Result<StreamNode, WordError>
    ensures { IfOk result (λ node. node_behaviour.opening (state_of node) ≡ state_of node) }
{
    match kind {
        "print" => Ok(StreamNode::Print(Print::new(alloc, ty, at)?)),
        "tab" => Ok(StreamNode::Tab(Node::new(Tab::new(alloc, ty)?, at))),
        "seq" => Ok(StreamNode::Seq(Node::new(Seq::new(alloc, ty)?, at))),
        "index" => Ok(StreamNode::Index(Node::new(Index::new(alloc, ty)?, at))),
        _ => Err(WordError::Unread),
    }
}

// The kind of a Fork, and how many outputs it has.
fn branches_of(words: &str) -> Result<(Kind, usize), WordError>
    ensures { IfOk result (λ it. 2 ≤ it.1) }
{
    let (kind, outputs) = words.split_once(' ').ok_or(WordError::Unread)?;
    let (kind, outputs) = (named(&KINDS, kind)?, number_of(outputs)?);
    if outputs < 2 {
        return Err(WordError::Unread);
    }
    Ok((kind, outputs))
}

fn scalar_of(word: &str) -> Result<Scalar, WordError> {
    match named(&TRUTHS, word) {
        Ok(truth) => Ok(Scalar::Bool(truth)),
        Err(_) => Ok(Scalar::Int(integer_of(word)?)),
    }
}

// The stream of a Source: `units` and how many, or `bools` or `ints` and each of them.
fn stream_of(alloc: Global, words: &str) -> Result<Stream, WordError> {
    let (kind, items) = words.split_once(' ').ok_or(WordError::Unread)?;
    match kind {
        "units" => Ok(Stream::Units(number_of(items)?)),
        "bools" => Ok(Stream::Bools(bools_of(alloc, items)?)),
        "ints" => Ok(Stream::Ints(ints_of(alloc, items)?)),
        _ => Err(WordError::Unread),
    }
}

fn bools_of(alloc: Global, words: &str) -> Result<Vec<bool>, WordError> {
    let mut truths = Vec::new(alloc);
    for word in words.split_whitespace() {
        truths
            .push(named(&TRUTHS, word)?)
            .map_err(AllocError::from)?;
    }
    Ok(truths)
}

fn ints_of(alloc: Global, words: &str) -> Result<Vec<i128>, WordError> {
    let mut numbers = Vec::new(alloc);
    for word in words.split_whitespace() {
        numbers.push(integer_of(word)?).map_err(AllocError::from)?;
    }
    Ok(numbers)
}
