// Workers: what a transducer does with one instance after another.

ghost use Rattle.std.specs.Prelude.{◌≡◌, false, IfOk, OnErr, IsOk};
ghost use Rattle.flow_base.specs.Computed.{ComputesRow};

use crate::slices::{Moved, Written};
use flow_messages::{Ends, Flat, Item, Items, Kind};
use snesl_data::FaultKind;
use std::alloc::AllocError;

/// How many items a worker that goes over slices computes at most before it puts them. A slice borrows the ends that show
/// it, and a put changes them.
pub const BLOCK: usize = 64;

/// As many as a visit of fewer than `BLOCK` steps computes at once. A fresh block is filled before it is used, which costs a
/// short visit more than its items do.
pub const SHORT_BLOCK: usize = 8;

/// What a worker wants next.
#[derive(Clone, Copy, Debug, PartialEq, Eq)]
pub enum Ask {
    /// To read the first item of an instance from port 0, where the stream may also end.
    Begin,
    /// To read an item from this port, within an instance.
    Take(usize),
    /// To write an item to this port.
    Give(usize),
}

/// Why an item was not taken.
#[derive(Clone, Copy, Debug, PartialEq, Eq)]
pub enum Stop {
    /// No instance goes on with this item.
    Faulted(FaultKind),
    /// Memory was refused.
    OutOfMemory,
}

impl From<FaultKind> for Stop {
    ghost use Rattle.flow_base.specs.declared.worker.Stop.TheVariants.{Faulted};

    ghost from_gives = { λ kind stop. stop ≡ Faulted kind };

    fn from(kind: FaultKind) -> Stop {
        Stop::Faulted(kind)
    }
}

impl From<AllocError> for Stop {
    ghost use Rattle.flow_base.specs.declared.worker.Stop.TheVariants.{OutOfMemory};

    ghost from_gives = { λ _ stop. stop ≡ OutOfMemory };

    fn from(_error: AllocError) -> Stop {
        Stop::OutOfMemory
    }
}

/// Reads and writes the items of one instance after another. It is told nothing of the ends of streams.
///
/// Its laws speak of an abstract state, and of what items carry.
pub trait Worker {
    ghost use Rattle.std.specs.Prelude.{◌≤◌, ℕ, Bool, true};
    ghost use Rattle.flow_base.specs.Along.{MovesAlong};
    ghost use Rattle.flow_messages.specs.Signals.{signal_of, is_stop};
    ghost use Rattle.flow_messages.specs.Flats.{message_of};
    ghost use Rattle.flow_messages.specs.Kinds.{fits};
    ghost use Rattle.flow_base.specs.Following.{Follows};
    ghost use Rattle.flow_messages.specs.Ends.{SameEnds};
    ghost use Rattle.flow_base.specs.Nodes.{behaviour_of, node_state};
    ghost use Rattle.flow_base.specs.Visits.{TakeKinds, Went};
    ghost use Rattle.flow_base.specs.declared.node.Phase.TheVariants.{Working};
    ghost use Rattle.flow_base.specs.Workers.{IsReading, IsWriting};
    ghost use Rattle.flow_base.specs.Calls.{GivesItem, HasEdges, TakesItem};
    ghost use Rattle.flow_base.specs.Machines.{Machine, MachineLaws, move_of, ask_of};
    ghost use Rattle.flow_base.specs.declared.worker.Stop.TheVariants.{OutOfMemory};

    /// What stays as it is from one instance to the next.
    ghost Parameters: { Type 0 };

    /// How far it is, with what it holds.
    ghost State: { Type 0 };

    /// What its laws see of it.
    ghost state: { Self → Parameters × State };

    /// What it does, as a table over these states.
    ghost machine: { Machine Parameters State };

    /// Whether it passes items on: it has one input, goes on with each item of its kind, and writes at most one message for
    /// it, the same to each output.
    ghost passes: { Parameters → Bool };

    /// What it wants next.
    fn ask(&self) -> Ask
        ensures { result ≡ ask_of (move_of machine (state self.now)) };

    /// The number of its input ports, from 0 on.
    fn inputs(&self) -> usize
        ensures { result ≡ machine.inputs (state self.now).0 };

    /// The number of its output ports, from 0 on.
    fn outputs(&self) -> usize
        ensures { result ≡ machine.outputs (state self.now).0 };

    /// The kind of the items at this input port.
    fn kind_in(&self, port: usize) -> Kind
        ensures { result ≡ machine.kind_in (state self.now).0 port };

    /// The kind of the items at this output port.
    fn kind_out(&self, port: usize) -> Kind
        ensures { result ≡ machine.kind_out (state self.now).0 port };

    /// Takes the item that it wanted to read. `Faulted` where no instance goes on with it, and `OutOfMemory` where one
    /// does but memory was refused: a fault is never answered as want of memory. In both the worker is unchanged.
    fn take(&mut self, item: Item) -> Result<(), Stop>
        requires { IsReading (ask_of (move_of machine (state self.old))) }
        ensures takes { TakesItem machine (state self.old) item result (state self.new) }
        ensures sure { machine.takes_memory (state self.old).1 ≡ false →
            result ≡ Err OutOfMemory → ⊥ };

    /// Gives the item that it wanted to write. An error where memory was refused; then the worker is unchanged.
    fn give(&mut self) -> Result<Item, AllocError>
        requires { IsWriting (ask_of (move_of machine (state self.old))) }
        ensures ok { IfOk result (λ item. GivesItem machine (state self.old) item (state self.new)) }
        ensures err { OnErr result (state self.new ≡ state self.old) }
        ensures sure { machine.takes_memory (state self.old).1 ≡ false → IsOk result };

    /// Whether it passes items on. Then it has one input.
    fn passes(&self) -> bool
        ensures exact { result ≡ passes (state self.now).0 }
        ensures one { result ≡ true → machine.inputs (state self.now).0 ≡ 1 };

    /// What it writes to each output for this item, where it passes items on and may begin an instance: after that the next
    /// one may begin. None where it writes nothing. It goes on with each item of its kind.
    fn follows(&self, item: Flat) -> Option<Flat>
        ensures { passes (state self.now).0 ≡ true →
            fits (machine.kind_in (state self.now).0 0) (signal_of (message_of item)) ≡ true →
            is_stop (signal_of (message_of item)) ≡ false →
            Follows machine (state self.now).0 (signal_of (message_of item)) result };

    /// Whether it may go on over slices from here; elsewhere a visit makes single steps first. It says only how fast a
    /// visit is, and so promises nothing.
    fn is_between(&self) -> bool {
        true
    }

    /// Goes along the items that it is shown of ports 0 and 1, at most `most` steps; or fewer, or none. What it writes to its
    /// outputs lies at the front of the block, and each output has room for so many items more.
    ///
    /// It reads only items that it goes on with: a fault and a want of memory are left to single steps.
    fn along(
        &mut self,
        first: Items<'_>,
        second: Items<'_>,
        block: &mut Written,
        space: usize,
        most: usize,
    ) -> Moved
        requires { space ≤ 256 }
        ensures { MovesAlong machine (state self.old) (state self.new) first.entry second.entry
            space most block.new result }
    {
        Moved::nothing()
    }

    /// Whole rounds over the slices that its ends show, at most `most` steps; or fewer, or none. Many messages are looked
    /// at, taken or put in one call. How many steps it made: those of a node that works with this worker, in their order.
    ///
    /// It takes only messages that it goes on with: an end, a fault and a want of memory are left to single steps.
    fn blocks<E: Ends>(
        &mut self,
        inputs: &[usize],
        outputs: &[usize],
        ends: &mut E,
        most: usize,
    ) -> usize
        requires wired { HasEdges machine (state self.old) inputs.now outputs.now (E.view ends.old) }
        requires kinds { TakeKinds outputs.now (machine.kind_out (state self.old).0)
            (E.view ends.old) }
        ensures same { E.same ends.old ends.new }
        ensures ends { SameEnds (E.view ends.old) (E.view ends.new) }
        ensures within { result ≤ most }
        ensures went { (at : ℕ) → Went inputs.now outputs.now (behaviour_of machine)
            (node_state (state self.old) Working at) (E.view ends.old)
            (node_state (state self.new) Working at) (E.view ends.new) result }
    {
        0
    }

    /// What it keeps to in each state; whole instances are what the row says.
    ghost laws: { MachineLaws machine };
}

/// A law and no code to run: the row of a worker is what its table computes. Whole instances read and write these
/// lists exactly where what is computed of those that are read are those that are written.
#[tactic(auto, using(crate::specs::Computed::computes_row))]
pub fn computes_row<W: Worker>(worker: &W)
    ensures { ComputesRow W.machine (W.state worker.now).0 }
{}
