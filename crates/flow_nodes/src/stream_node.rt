// Any transducer of streams.

ghost use Rattle.std.specs.Prelude.{◌≡◌, false, IsTrue};
ghost use Rattle.flow_base.specs.Passing.{MayCome, PassedOn};
ghost use Rattle.flow_messages.specs.Flats.{flat_signals};
ghost use Rattle.flow_nodes.specs.StreamNodes.{node_behaviour, passes_in, state_of};

use crate::inputs::TextSource;
use flow_base::{Port, Printing, Side, Transducer};
use flow_messages::{Block, Ends, Msg};
use flow_scalar::{
    Binary, Const, Fork, Iota, Length, Reduce, ScanAdd, Sink, Source, Unary, UnitsOf,
};
use flow_segment::{
    AppendFlags, ConcatFlags, Dist, FlagOfBool, Index, Interleave, InterleaveGroups, Pack,
    PackGroups, PartFlags, Print, SameFlags, Seq, Tab, TheCheck,
};
use kahn::Want;
use std::alloc::AllocError;

/// A transducer of any of these kinds. It does what that transducer does.
#[derive(Drop)]
pub enum StreamNode {
    Source(Source),
    TextSource(TextSource),
    Const(Const),
    Unary(Unary),
    Binary(Binary),
    Fork(Fork),
    Sink(Sink),
    Iota(Iota),
    UnitsOf(UnitsOf),
    ScanAdd(ScanAdd),
    Reduce(Reduce),
    Length(Length),
    FlagOfBool(FlagOfBool),
    TheCheck(TheCheck),
    SameFlags(SameFlags),
    ConcatFlags(ConcatFlags),
    PartFlags(PartFlags),
    AppendFlags(AppendFlags),
    Dist(Dist),
    Pack(Pack),
    PackGroups(PackGroups),
    Interleave(Interleave),
    InterleaveGroups(InterleaveGroups),
    Print(Print),
    Tab(Tab),
    Seq(Seq),
    Index(Index),
}

// What the node gives, whatever its kind is.
macro_rules! with_node {
    ($any:expr, $node:ident => $result:expr) => {
        match $any {
            StreamNode::Source($node) => $result,
            StreamNode::TextSource($node) => $result,
            StreamNode::Const($node) => $result,
            StreamNode::Unary($node) => $result,
            StreamNode::Binary($node) => $result,
            StreamNode::Fork($node) => $result,
            StreamNode::Sink($node) => $result,
            StreamNode::Iota($node) => $result,
            StreamNode::UnitsOf($node) => $result,
            StreamNode::ScanAdd($node) => $result,
            StreamNode::Reduce($node) => $result,
            StreamNode::Length($node) => $result,
            StreamNode::FlagOfBool($node) => $result,
            StreamNode::TheCheck($node) => $result,
            StreamNode::SameFlags($node) => $result,
            StreamNode::ConcatFlags($node) => $result,
            StreamNode::PartFlags($node) => $result,
            StreamNode::AppendFlags($node) => $result,
            StreamNode::Dist($node) => $result,
            StreamNode::Pack($node) => $result,
            StreamNode::PackGroups($node) => $result,
            StreamNode::Interleave($node) => $result,
            StreamNode::InterleaveGroups($node) => $result,
            StreamNode::Print($node) => $result,
            StreamNode::Tab($node) => $result,
            StreamNode::Seq($node) => $result,
            StreamNode::Index($node) => $result,
        }
    };
}

#[tactic(auto, using(crate::proofs::NodeSteps::node_steps))]
impl Transducer for StreamNode {
    ghost use Rattle.flow_nodes.specs.StreamNodes.{NodeKind, member};
    ghost use Rattle.flow_nodes.specs.KindLaws.{node_laws};

    ghost State = { (t : NodeKind) × (member t).State };

    ghost state = { state_of };

    ghost behaviour = { node_behaviour };

    ghost laws = { node_laws };

    #[inline(always)]
    fn want(&self) -> Want {
        with_node!(self, node => node.want())
    }

    fn port(&self, side: Side, number: usize) -> Port {
        with_node!(self, node => node.port(side, number))
    }

    #[inline(always)]
    fn give(&mut self, port: usize, message: Msg) -> Result<(), AllocError> {
        with_node!(self, node => node.give(port, message))
    }

    fn emit(&mut self) -> Result<Msg, AllocError> {
        with_node!(self, node => node.emit())
    }

    // The others would answer the same.
    fn pass(&mut self, block: &Block, out: &mut Block) -> bool
        requires { MayCome (node_behaviour.kind_in (state_of self.old) 0)
            (flat_signals block.now.items) }
        ensures passed { IsTrue result → PassedOn node_behaviour (state_of self.old)
            (flat_signals block.now.items) (state_of self.new) (flat_signals out.new.items) }
        ensures kept { result ≡ false → state_of self.new ≡ state_of self.old }
        ensures untouched { result ≡ false → out.new.items ≡ out.old.items }
        ensures exact { result ≡ passes_in (state_of self.old) }
    {
        match self {
            StreamNode::Const(node) => node.pass(block, out),
            StreamNode::Sink(node) => node.pass(block, out),
            StreamNode::UnitsOf(node) => node.pass(block, out),
            StreamNode::Fork(node) => node.pass(block, out),
            _ => false,
        }
    }

    #[inline(always)]
    fn run<E: Ends>(
        &mut self,
        inputs: &[usize],
        outputs: &[usize],
        ends: &mut E,
        chunk: usize,
    ) -> Result<bool, AllocError> {
        with_node!(self, node => node.run(inputs, outputs, ends, chunk))
    }
}

#[tactic(auto, using(crate::proofs::NodeSteps::text_steps))]
impl Printing for StreamNode {
    ghost use Rattle.flow_nodes.specs.StreamNodes.{text_in};

    ghost printed = { λ n. text_in (state_of n) };

    fn printed(&self) -> Option<&[u8]> {
        match self {
            StreamNode::Print(print) => Some(print.text()),
            _ => None,
        }
    }
}
