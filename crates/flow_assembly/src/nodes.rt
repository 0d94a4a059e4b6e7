// The transducers of operations.

ghost use Rattle.std.specs.Prelude.{◌≡◌, ◌≤◌, [], IfOk};
ghost use Rattle.flow_scalar.specs.Streams.{stream_kind, stream_cells};
ghost use Rattle.flow_nodes.specs.StreamNodes.{state_of};
ghost use Rattle.flow_nodes.specs.plans.Plans.{fork, sink};
ghost use Rattle.flow_nodes.specs.plans.Views.{operation_of};
ghost use Rattle.flow_assembly.specs.Openings.{IsOpening};
ghost use Rattle.flow_assembly.specs.Ready.{WritesKinds};

use flow_base::{Node, Transducer};
use flow_messages::Kind;
use flow_nodes::StreamNode;
use flow_nodes::plans::Operation;
use flow_scalar::workers::{
    Binary, Const, Fork, Iota, Length, Reduce, ScanAdd, Sink, Unary, UnitsOf,
};
use flow_scalar::{Source, Stream};
use flow_segment::workers::{
    AppendFlags, ConcatFlags, Dist, FlagOfBool, Index, Interleave, InterleaveGroups, Pack,
    PackGroups, PartFlags, SameFlags, Seq, Tab, TheCheck,
};
use flow_values::Print;
use snesl_data::{Dialect, copy_ty};
use std::alloc::{AllocError, Global};

/// The transducer of the operation in a program of the dialect, in its opening state. Its faults are at this offset. Its
/// only error is that memory was refused.
pub fn node_of(
    alloc: Global,
    dialect: Dialect,
    at: usize,
    operation: &Operation,
) -> Result<StreamNode, AllocError>
    ensures { IfOk result (λ node.
        IsOpening at (operation_of dialect operation.now) (state_of node)) }
{
    match operation {
        Operation::Control => Ok(StreamNode::Source(Source::new(Stream::Units(1)))),
        Operation::Input(kind) => Ok(StreamNode::Source(Source::new(empty(alloc, *kind)))),
        Operation::Const(scalar) => Ok(StreamNode::Const(Node::new(Const::new(*scalar), at))),
        Operation::Unary(operator) => {
            Ok(StreamNode::Unary(Node::new(Unary::new(dialect, *operator), at)))
        }
        Operation::Binary(operator) => {
            Ok(StreamNode::Binary(Node::new(Binary::new(dialect, *operator), at)))
        }
        Operation::Iota => Ok(StreamNode::Iota(Node::new(Iota::new(), at))),
        Operation::UnitsOf => Ok(StreamNode::UnitsOf(Node::new(UnitsOf::new(), at))),
        Operation::ScanAdd => Ok(StreamNode::ScanAdd(Node::new(ScanAdd::new(dialect), at))),
        Operation::Reduce(reduction) => {
            Ok(StreamNode::Reduce(Node::new(Reduce::new(dialect, *reduction), at)))
        }
        Operation::Length => Ok(StreamNode::Length(Node::new(Length::new(dialect), at))),
        Operation::Dist(kind) => Ok(StreamNode::Dist(Node::new(Dist::new(*kind), at))),
        Operation::Pack(kind) => Ok(StreamNode::Pack(Node::new(Pack::new(*kind), at))),
        Operation::Interleave(kind) => {
            Ok(StreamNode::Interleave(Node::new(Interleave::new(*kind), at)))
        }
        Operation::Print(ty) => {
            let ty = copy_ty(alloc, ty)?;
            let print = Print::new(alloc, ty, at)?;
            Ok(StreamNode::Print(print))
        }
        Operation::Tab(ty) => {
            let ty = copy_ty(alloc, ty)?;
            let tab = Tab::new(alloc, ty)?;
            Ok(StreamNode::Tab(Node::new(tab, at)))
        }
        Operation::Seq(ty) => {
            let ty = copy_ty(alloc, ty)?;
            let seq = Seq::new(alloc, ty)?;
            Ok(StreamNode::Seq(Node::new(seq, at)))
        }
        Operation::Index(ty) => {
            let ty = copy_ty(alloc, ty)?;
            let index = Index::new(alloc, ty)?;
            Ok(StreamNode::Index(Node::new(index, at)))
        }
        Operation::PackGroups => Ok(StreamNode::PackGroups(Node::new(PackGroups::new(), at))),
        Operation::FlagOfBool => Ok(StreamNode::FlagOfBool(Node::new(FlagOfBool::new(), at))),
        Operation::SameFlags => Ok(StreamNode::SameFlags(Node::new(SameFlags::new(), at))),
        Operation::ConcatFlags => Ok(StreamNode::ConcatFlags(Node::new(ConcatFlags::new(), at))),
        Operation::PartFlags => Ok(StreamNode::PartFlags(Node::new(PartFlags::new(), at))),
        Operation::TheCheck => Ok(StreamNode::TheCheck(Node::new(TheCheck::new(), at))),
        Operation::AppendFlags => Ok(StreamNode::AppendFlags(Node::new(AppendFlags::new(), at))),
        Operation::InterleaveGroups => {
            Ok(StreamNode::InterleaveGroups(Node::new(InterleaveGroups::new(), at)))
        }
    }
}

/// The end of a stream that nothing uses, in its opening state.
pub fn sink_of(at: usize, kind: Kind) -> StreamNode
    ensures { IsOpening at (sink kind) (state_of result) }
{
    StreamNode::Sink(Node::new(Sink::new(kind), at))
}

/// A stream to several readers, in its opening state.
pub fn fork_of(at: usize, kind: Kind, outputs: usize) -> StreamNode
    requires { 2 ≤ outputs }
    ensures { IsOpening at (fork kind outputs) (state_of result) }
{
    StreamNode::Fork(Node::new(Fork::new(kind, outputs), at))
}

// A stream of no items of this kind.
fn empty(alloc: Global, kind: Kind) -> Stream
    ensures kind { stream_kind result ≡ kind }
    ensures cells { stream_cells result ≡ [] }
{
    match kind {
        Kind::Unit => Stream::Units(0),
        Kind::Bool => Stream::Bools(Vec::new(alloc)),
        Kind::Int => Stream::Ints(Vec::new(alloc)),
        Kind::Vec => Stream::Vectors(Vec::new(alloc)),
    }
}

/// The kinds of the streams that the transducer writes, port by port. Its only error is that memory was refused.
pub fn kinds_written(alloc: Global, node: &StreamNode) -> Result<Vec<Kind>, AllocError>
    ensures { IfOk result (λ kinds. WritesKinds (state_of node.now) kinds.items) }
{
    let mut kinds = Vec::new(alloc);
    for port in 0..node.outputs() {
        kinds.push(node.kind_out(port))?;
    }
    Ok(kinds)
}
