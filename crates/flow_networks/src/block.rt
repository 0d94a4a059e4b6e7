// Steps of nodes in blocks of scalar messages.
ghost use Rattle.std.specs.Prelude.{◌≡◌, ◌≢◌, ◌<◌, ◌≤◌, true, length};
ghost use Rattle.std.specs.List.{All};
ghost use Rattle.flow_messages.specs.declared.message.Kind.TheVariants.{Vec as VecKind};
ghost use Rattle.flow_messages.specs.Signals.{orderly};
ghost use Rattle.flow_messages.specs.Flats.{flat_signals, BlockFitsEdge};
ghost use Rattle.flow_messages.specs.Ends.{SameEnds, PutAll};
ghost use Rattle.flow_base.specs.Visits.{Went, IsPlaced, IsReached};
ghost use Rattle.flow_networks.specs.Blocks.{AreApart, MayTake, HaveRoomFor, OnlySeesRoom, PutOnAll, DrawsBlock};
ghost use Rattle.flow_networks.specs.Graphs.{states_of};
ghost use Rattle.flow_networks.specs.Places.{IsSamePlace};
ghost use Rattle.flow_networks.specs.Shapes.{KeepsShape};
ghost use Rattle.flow_networks.specs.Standing.{NodeHasEnds, NodeEdgesTake};
ghost use Rattle.flow_networks.specs.InPlace.{PlaceTakesKinds, PlaceWent};
ghost use Rattle.flow_networks.specs.Turns.{MovesInBlock};

use crate::graph::Graph;
use crate::placed::Placed;
use crate::shown::messages_ahead;
use flow_base::Transducer;
use flow_messages::{Block, Ends, Flat, Kind};
use kahn::Want;

/// How many messages more all of these edges are certain to have room for, at most this many.
fn least_space<E: Ends>(ends: &mut E, edges: &[usize], most: usize) -> usize
    requires { All (λ e. (E.view ends.old).writes e ≡ true) edges.now }
    ensures same { E.same ends.old ends.new }
    ensures ends { SameEnds (E.view ends.old) (E.view ends.new) }
    ensures looked { OnlySeesRoom edges.now (E.view ends.old) (E.view ends.new) }
    ensures room { HaveRoomFor edges.now result (E.view ends.new) }
    ensures most { result ≤ most }
{
    let mut least = most;
    for &edge in edges {
        let space = ends.space(edge);
        least = least.min(space);
    }
    least
}

/// Puts a copy of the block on the edge, where room is certain. It is dropped where `End` was put there before.
fn put_copy<E: Ends>(ends: &mut E, edge: usize, block: &Block)
    requires writes { (E.view ends.old).writes edge ≡ true }
    requires fit { BlockFitsEdge ((E.view ends.old).kind edge) block.now.items }
    requires last { orderly (flat_signals block.now.items) ≡ true }
    requires certain { length block.now.items ≤ (E.view ends.old).room edge }
    ensures same { E.same ends.old ends.new }
    ensures put { PutAll (E.view ends.old) edge (flat_signals block.now.items) (E.view ends.new) }
{
    let mut copy = Block::new();
    let _ = copy.try_extend_from_slice(block.as_slice());
    let _ = ends.put_block(edge, &mut copy);
}

/// Puts a copy of the block on each of these edges.
fn put_each<E: Ends>(ends: &mut E, edges: &[usize], block: &Block)
    requires apart { AreApart edges.now }
    requires may { MayTake edges.now block.now.items (E.view ends.old) }
    ensures same { E.same ends.old ends.new }
    ensures put { PutOnAll edges.now block.now.items (E.view ends.old) (E.view ends.new) }
{
    for &edge in edges {
        put_copy(ends, edge, block);
    }
}

/// Passes on what comes next at the one input, as much as each output is certain to have room for. How many steps it made.
fn pass_block<T: Transducer, E: Ends>(
    node: &mut T,
    inputs: &[usize],
    outputs: &[usize],
    ends: &mut E,
    most: usize,
) -> usize
    requires placed { IsPlaced T.behaviour inputs.now outputs.now (T.state node.old)
        (E.view ends.old) }
    requires one { length inputs.now ≡ 1 }
    requires apart { AreApart outputs.now }
    ensures same { E.same ends.old ends.new }
    ensures ends { SameEnds (E.view ends.old) (E.view ends.new) }
    ensures most { result ≤ most }
    ensures went { Went inputs.now outputs.now T.behaviour (T.state node.old) (E.view ends.old)
        (T.state node.new) (E.view ends.new) result }
{
    let edge = inputs[0];
    let room = least_space(ends, outputs, (most / (outputs.len() + 1)).min(64));
    let _ = ends.ready(edge);
    if room == 0 {
        return 0;
    }
    let block = messages_ahead(ends, edge, node.kind_in(0), room);
    if block.is_empty() {
        return 0;
    }
    let mut out = Block::new();
    if !node.pass(&block, &mut out) {
        return 0;
    }
    ends.skip(edge, block.len());
    put_each(ends, outputs, &out);
    block.len() + outputs.len() * out.len()
}

/// The messages that the node writes next, at most this many, until it wants something else or memory is refused.
fn draw<T: Transducer>(node: &mut T, most: usize) -> Block
    requires reached { IsReached T.behaviour (T.state node.old) }
    requires one { T.behaviour.outputs (T.state node.old) ≡ 1 }
    requires scalar { T.behaviour.kind_out (T.state node.old) 0 ≢ VecKind }
    requires room { most ≤ 64 }
    ensures most { length result.items ≤ most }
    ensures drew { DrawsBlock T.behaviour (T.state node.old) (T.state node.new) result.items }
{
    let mut block = Block::new();
    for _ in 0..most {
        if !matches!(node.want(), Want::Write(_)) {
            break;
        }
        let Ok(message) = node.emit() else {
            break;
        };
        let Some(flat) = Flat::of(&message) else {
            unreachable!()
        };
        block.push(flat);
    }
    block
}

/// Draws what the node writes next to its one output, as much as is certain of room. How many steps it made.
fn draw_block<T: Transducer, E: Ends>(
    node: &mut T,
    inputs: &[usize],
    outputs: &[usize],
    ends: &mut E,
    most: usize,
) -> usize
    requires placed { IsPlaced T.behaviour inputs.now outputs.now (T.state node.old)
        (E.view ends.old) }
    requires one { length outputs.now ≡ 1 }
    requires apart { AreApart outputs.now }
    ensures same { E.same ends.old ends.new }
    ensures ends { SameEnds (E.view ends.old) (E.view ends.new) }
    ensures most { result ≤ most }
    ensures went { Went inputs.now outputs.now T.behaviour (T.state node.old) (E.view ends.old)
        (T.state node.new) (E.view ends.new) result }
{
    let room = least_space(ends, outputs, most.min(64));
    if matches!(node.kind_out(0), Kind::Vec) {
        return 0;
    }
    let block = draw(node, room);
    if block.is_empty() {
        return 0;
    }
    put_each(ends, outputs, &block);
    block.len()
}

/// Moves scalar messages of the node in a block. How many steps it made.
fn move_node<T: Transducer, E: Ends>(
    node: &mut T,
    inputs: &[usize],
    outputs: &[usize],
    ends: &mut E,
    most: usize,
) -> usize
    requires placed { IsPlaced T.behaviour inputs.now outputs.now (T.state node.old)
        (E.view ends.old) }
    requires apart { AreApart outputs.now }
    ensures same { E.same ends.old ends.new }
    ensures ends { SameEnds (E.view ends.old) (E.view ends.new) }
    ensures most { result ≤ most }
    ensures went { Went inputs.now outputs.now T.behaviour (T.state node.old) (E.view ends.old)
        (T.state node.new) (E.view ends.new) result }
{
    match node.want() {
        Want::Read(_) if inputs.len() == 1 => pass_block(node, inputs, outputs, ends, most),
        Want::Write(_) if outputs.len() == 1 => draw_block(node, inputs, outputs, ends, most),
        Want::Read(_) | Want::Write(_) | Want::Ended | Want::Faulted(_) => 0,
    }
}

impl<T: Transducer> Placed<T> {
    /// Moves scalar messages in a block, as [`step_block`] says. How many steps it made.
    pub(crate) fn move_block<E: Ends>(&mut self, ends: &mut E, most: usize) -> usize
        requires reads { All (λ e. (E.view ends.old).reads e ≡ true) self.old.inputs.items }
        requires writes { All (λ e. (E.view ends.old).writes e ≡ true) self.old.outputs.items }
        requires kinds { PlaceTakesKinds self.old (E.view ends.old) }
        requires apart { AreApart self.old.outputs.items }
        ensures place { IsSamePlace self.old self.new }
        ensures same { E.same ends.old ends.new }
        ensures ends { SameEnds (E.view ends.old) (E.view ends.new) }
        ensures most { result ≤ most }
        ensures went { PlaceWent E.view self.old ends.old self.new ends.new result }
    {
        move_node(&mut self.node, &self.inputs, &self.outputs, ends, most)
    }
}

/// Moves scalar messages of one node in a block, at most this many steps, each read and each write counted as one step.
/// How many steps it made.
///
/// A node with one input that passes blocks on reads as many messages as each output is certain to have room for, and a
/// node that writes to its one output draws as many. Where nothing can be moved so, the answer is 0, though `step_once`
/// may move a message.
pub fn step_block<T: Transducer, E: Ends>(
    graph: &mut Graph<T>,
    ends: &mut E,
    node: usize,
    most: usize,
) -> usize
    requires inside { node < length (states_of graph.old) }
    requires ends { NodeHasEnds graph.old node (E.view ends.old) }
    requires kinds { NodeEdgesTake graph.old node (E.view ends.old) }
    ensures shape { KeepsShape E.same E.view graph.old ends.old graph.new ends.new }
    ensures most { result ≤ most }
    ensures moves { MovesInBlock E.view node graph.old ends.old graph.new ends.new result }
{
    graph.move_block(ends, node, most)
}

impl<T: Transducer> Graph<T> {
    /// Moves scalar messages of one node in a block, as [`step_block`] says.
    fn move_block<E: Ends>(&mut self, ends: &mut E, node: usize, most: usize) -> usize
        requires inside { node < length (states_of self.old) }
        requires ends { NodeHasEnds self.old node (E.view ends.old) }
        requires kinds { NodeEdgesTake self.old node (E.view ends.old) }
        ensures shape { KeepsShape E.same E.view self.old ends.old self.new ends.new }
        ensures most { result ≤ most }
        ensures moves { MovesInBlock E.view node self.old ends.old self.new ends.new result }
    {
        self.nodes[node].move_block(ends, most)
    }
}
