// Single steps of the nodes of a graph.
ghost use Rattle.std.specs.Prelude.{◌≡◌, ◌<◌, false, length, IsOk, IfOk, OnOk, OnErr};
ghost use Rattle.kahn.specs.declared.want.Want.TheVariants.{Read, Write};
ghost use Rattle.flow_messages.specs.Signals.{signal_of};
ghost use Rattle.flow_base.specs.Transducers.{IsWrite};
ghost use Rattle.flow_networks.specs.Edges.{in_edge, out_edge};
ghost use Rattle.flow_networks.specs.Networks.{inputs_at, outputs_at};
ghost use Rattle.flow_networks.specs.Graphs.{states_of, edges_of};
ghost use Rattle.flow_networks.specs.Shapes.{KeepsShape};
ghost use Rattle.flow_networks.specs.Turns.{TakesTurn};
ghost use Rattle.flow_networks.specs.Standing.{OpenedAlike, FitsPort, stand_at, wanted_at, NodeHasEnds, NodeEdgesTake, HasReadAt, HasWrittenAt, message_from};

use crate::graph::Graph;
use flow_base::Transducer;
use flow_messages::{Ends, Msg};
use kahn::Want;
use std::alloc::AllocError;

/// What came of a node's turn.
#[derive(Clone, Copy, Debug, PartialEq, Eq)]
pub enum Stepped {
    /// One message was read or written.
    One,
    /// Nothing: the node is done, or no message or no room is certain to be there for it.
    Nothing,
}

impl<T: Transducer> Graph<T> {
    /// What the node wants.
    fn want(&self, node: usize) -> Want
        requires { node < length (states_of self.now) }
        ensures { result ≡ wanted_at self.now node }
    {
        self.nodes[node].node.want()
    }

    /// The edge at the input port that the node wants to read.
    fn wanted_input(&self, node: usize, port: usize) -> usize
        requires inside { node < length (states_of self.now) }
        requires wants { wanted_at self.now node ≡ Read port }
        ensures port { port < inputs_at T.behaviour (states_of self.now) node }
        ensures edge { result ≡ in_edge (edges_of self.now) node port }
    {
        self.nodes[node].inputs[port]
    }

    /// The edge at the output port that the node wants to write.
    fn wanted_output(&self, node: usize, port: usize) -> usize
        requires inside { node < length (states_of self.now) }
        requires wants { wanted_at self.now node ≡ Write port }
        ensures port { port < outputs_at T.behaviour (states_of self.now) node }
        ensures edge { result ≡ out_edge (edges_of self.now) node port }
        ensures fits { FitsPort T.behaviour (stand_at self.now node) port }
    {
        self.nodes[node].outputs[port]
    }

    /// Gives the node the message that it wanted to read.
    #[inline(always)]
    fn give(&mut self, node: usize, port: usize, message: Msg) -> Result<(), AllocError>
        requires inside { node < length (states_of self.old) }
        requires wants { wanted_at self.old node ≡ Read port }
        ensures edges { edges_of self.new ≡ edges_of self.old }
        ensures openings { OpenedAlike T.behaviour (states_of self.old) (states_of self.new) }
        ensures ok { OnOk result (HasReadAt self.old node (signal_of message) self.new) }
        ensures err { OnErr result (states_of self.new ≡ states_of self.old) }
        ensures sure { T.behaviour.takes_memory (stand_at self.old node) ≡ false → IsOk result }
    {
        self.nodes[node].give(port, message)
    }

    /// The message that the node wanted to write.
    fn emit(&mut self, node: usize) -> Result<Msg, AllocError>
        requires inside { node < length (states_of self.old) }
        requires wants { IsWrite (wanted_at self.old node) }
        ensures edges { edges_of self.new ≡ edges_of self.old }
        ensures openings { OpenedAlike T.behaviour (states_of self.old) (states_of self.new) }
        ensures message { IfOk result (λ message. signal_of message ≡ message_from self.old node) }
        ensures ok { OnOk result (HasWrittenAt self.old node self.new) }
        ensures err { OnErr result (states_of self.new ≡ states_of self.old) }
        ensures sure { T.behaviour.takes_memory (stand_at self.old node) ≡ false → IsOk result }
    {
        self.nodes[node].emit()
    }
}

/// One turn of a node, over ends that need not be those of all its edges: it reads one message or
/// writes one, or does nothing.
///
/// An error where memory was refused. Then the states are as they were, and a message that the node
/// was to read is lost.
pub fn step_once<T: Transducer, E: Ends>(
    graph: &mut Graph<T>,
    ends: &mut E,
    node: usize,
) -> Result<Stepped, AllocError>
    requires inside { node < length (states_of graph.old) }
    requires ends { NodeHasEnds graph.old node (E.view ends.old) }
    requires kinds { NodeEdgesTake graph.old node (E.view ends.old) }
    ensures shape { KeepsShape E.same E.view graph.old ends.old graph.new ends.new }
    ensures turn { TakesTurn E.view node graph.old ends.old graph.new ends.new result }
{
    match graph.want(node) {
        Want::Read(port) => {
            let edge = graph.wanted_input(node, port);
            let Some(message) = ends.take(edge) else {
                return Ok(Stepped::Nothing);
            };
            graph.give(node, port, message)?;
            Ok(Stepped::One)
        }
        Want::Write(port) => {
            let edge = graph.wanted_output(node, port);
            if !ends.room(edge) {
                return Ok(Stepped::Nothing);
            }
            let message = graph.emit(node)?;
            // Only after End is the message refused, and no lawful node writes after End.
            let _ = ends.put(edge, message);
            Ok(Stepped::One)
        }
        Want::Ended | Want::Faulted(_) => Ok(Stepped::Nothing),
    }
}
