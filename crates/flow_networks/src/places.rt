// What transducers do in their places.
ghost use Rattle.std.specs.Prelude.{◌≡◌, ◌<◌, ◌↔◌, false, true, length, replicate, slice_set, IsTrue, IsOk, IfOk, OnOk, OnErr};
ghost use Rattle.std.specs.List.{All};
ghost use Rattle.kahn.specs.declared.want.Want.TheVariants.{Read};
ghost use Rattle.flow_messages.specs.Signals.{signal_of};
ghost use Rattle.flow_messages.specs.Ends.{SameEnds};
ghost use Rattle.flow_base.specs.Transducers.{IsWrite};
ghost use Rattle.flow_networks.specs.Places.{placed_state, IsSamePlace};
ghost use Rattle.flow_networks.specs.InPlace.{placed_inputs, placed_outputs, PlaceTakesKinds, PlaceIsStuck, PlaceLeavesAlone, message_of_place, PlaceReads, PlaceWrites, PlaceVisited, PlaceBrokeOff};

use crate::placed::Placed;
use flow_base::Transducer;
use flow_messages::{Ends, Msg};
use kahn::Want;
use std::alloc::{AllocError, Global};

impl<T: Transducer + Drop> Placed<T> {
    /// A node in its opening state, each port with the number 0 for its edge.
    pub(crate) fn new(alloc: Global, number: usize, node: T) -> Result<Placed<T>, AllocError>
        requires { T.behaviour.opening (T.state node) ≡ T.state node }
        ensures number { IfOk result (λ placed. placed.number ≡ number) }
        ensures node { IfOk result (λ placed. placed.node ≡ node) }
    {
        let (inputs, outputs) = (node.inputs(), node.outputs());
        let inputs = zeros(alloc, inputs)?;
        let outputs = zeros(alloc, outputs)?;
        Ok(Placed {
            number,
            node,
            inputs,
            outputs,
        })
    }

    /// Puts a transducer in its opening state, which has as many ports, in its place.
    pub(crate) fn replace(&mut self, node: T)
        requires opened { T.behaviour.opening (T.state node) ≡ T.state node }
        requires inputs { T.behaviour.inputs (T.state node) ≡ placed_inputs self.old }
        requires outputs { T.behaviour.outputs (T.state node) ≡ placed_outputs self.old }
        ensures number { self.new.number ≡ self.old.number }
        ensures node { self.new.node ≡ node }
        ensures inputs { self.new.inputs.items ≡ self.old.inputs.items }
        ensures outputs { self.new.outputs.items ≡ self.old.outputs.items }
    {
        self.node = node;
    }
}

impl<T: Transducer> Placed<T> {
    /// Its number in the graph.
    pub fn number(&self) -> usize
        ensures { result ≡ self.now.number }
    {
        self.number
    }

    /// Its transducer.
    pub fn node(&self) -> &T
        ensures { T.state result.now ≡ placed_state self.now }
    {
        &self.node
    }

    /// The edges at its input ports, in the order of the ports.
    pub fn inputs(&self) -> &[usize]
        ensures { result.now ≡ self.now.inputs.items }
    {
        &self.inputs
    }

    /// The edges at its output ports, in the order of the ports.
    pub fn outputs(&self) -> &[usize]
        ensures { result.now ≡ self.now.outputs.items }
    {
        &self.outputs
    }

    /// Names the edge at the input port.
    pub(crate) fn set_input(&mut self, port: usize, edge: usize)
        requires { port < length self.old.inputs.items }
        ensures number { self.new.number ≡ self.old.number }
        ensures node { self.new.node ≡ self.old.node }
        ensures inputs { self.new.inputs.items ≡ slice_set self.old.inputs.items port edge }
        ensures outputs { self.new.outputs.items ≡ self.old.outputs.items }
    {
        self.inputs[port] = edge;
    }

    /// Names the edge at the output port.
    pub(crate) fn set_output(&mut self, port: usize, edge: usize)
        requires { port < length self.old.outputs.items }
        ensures number { self.new.number ≡ self.old.number }
        ensures node { self.new.node ≡ self.old.node }
        ensures inputs { self.new.inputs.items ≡ self.old.inputs.items }
        ensures outputs { self.new.outputs.items ≡ slice_set self.old.outputs.items port edge }
    {
        self.outputs[port] = edge;
    }

    /// Gives it the message that it wanted to read.
    #[inline(always)]
    pub(crate) fn give(&mut self, port: usize, message: Msg) -> Result<(), AllocError>
        requires { T.behaviour.process.want (placed_state self.old) ≡ Read port }
        ensures place { IsSamePlace self.old self.new }
        ensures ok { OnOk result (PlaceReads self.old (signal_of message) self.new) }
        ensures err { OnErr result (placed_state self.new ≡ placed_state self.old) }
        ensures sure { T.behaviour.takes_memory (placed_state self.old) ≡ false → IsOk result }
    {
        self.node.give(port, message)
    }

    /// The message that it wanted to write.
    pub(crate) fn emit(&mut self) -> Result<Msg, AllocError>
        requires { IsWrite (T.behaviour.process.want (placed_state self.old)) }
        ensures place { IsSamePlace self.old self.new }
        ensures message { IfOk result (λ message. signal_of message ≡ message_of_place self.old) }
        ensures ok { OnOk result (PlaceWrites self.old self.new) }
        ensures err { OnErr result (placed_state self.new ≡ placed_state self.old) }
        ensures sure { T.behaviour.takes_memory (placed_state self.old) ≡ false → IsOk result }
    {
        self.node.emit()
    }

    /// A visit: some steps over the ends of its edges, at least one where they are certain of one. Whether it made a step.
    /// That there are at most `chunk` is not promised.
    ///
    /// An error where memory was refused. Then it stays where it was before that step, and a message that it was to read
    /// is lost.
    pub fn run<E: Ends>(&mut self, ends: &mut E, chunk: usize) -> Result<bool, AllocError>
        requires some { 0 < chunk }
        requires reads { All (λ e. (E.view ends.old).reads e ≡ true) self.old.inputs.items }
        requires writes { All (λ e. (E.view ends.old).writes e ≡ true) self.old.outputs.items }
        requires kinds { PlaceTakesKinds self.old (E.view ends.old) }
        ensures place { IsSamePlace self.old self.new }
        ensures same { E.same ends.old ends.new }
        ensures ends { SameEnds (E.view ends.old) (E.view ends.new) }
        ensures visited { IfOk result (λ any. PlaceVisited E.view self.old ends.old self.new
            ends.new any) }
        ensures broke { OnErr result (PlaceBrokeOff E.view self.old ends.old self.new ends.new) }
    {
        self.node.run(&self.inputs, &self.outputs, ends, chunk)
    }

    /// Whether it can make no step by what the ends of its edges are certain of. It looks at the end that it wants, which
    /// may be certain of more then; else nothing changes.
    pub fn is_stuck<E: Ends>(&self, ends: &mut E) -> bool
        requires reads { All (λ e. (E.view ends.old).reads e ≡ true) self.now.inputs.items }
        requires writes { All (λ e. (E.view ends.old).writes e ≡ true) self.now.outputs.items }
        ensures same { E.same ends.old ends.new }
        ensures ends { SameEnds (E.view ends.old) (E.view ends.new) }
        ensures looked { PlaceLeavesAlone self.now (E.view ends.old) (E.view ends.new) }
        ensures stuck { IsTrue result ↔ PlaceIsStuck self.now (E.view ends.new) }
    {
        match self.node.want() {
            Want::Read(port) => !ends.ready(self.inputs[port]),
            Want::Write(port) => !ends.room(self.outputs[port]),
            Want::Ended | Want::Faulted(_) => true,
        }
    }
}

/// So many zeros.
fn zeros(alloc: Global, count: usize) -> Result<Vec<usize>, AllocError>
    ensures { IfOk result (λ numbers. numbers.items ≡ replicate count 0) }
{
    let mut numbers = Vec::new(alloc);
    numbers.resize(count, 0)?;
    Ok(numbers)
}
