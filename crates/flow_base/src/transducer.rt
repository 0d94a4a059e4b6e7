// Transducers: sequential processes that read or write one message at a time.

ghost use Rattle.std.specs.Prelude.{◌≡◌};
ghost use Rattle.flow_base.specs.Transducers.{TransducerLaws};

use crate::certain::put_in_space;
use flow_messages::{Block, Ends, Kind, Msg};
use kahn::Want;
use std::alloc::AllocError;

/// The two sides of a transducer.
#[derive(Clone, Copy, Debug, PartialEq, Eq)]
pub enum Side {
    /// Where it reads.
    In,
    /// Where it writes.
    Out,
}

/// What a transducer tells of a port.
#[derive(Clone, Copy, Debug, PartialEq, Eq)]
pub struct Port {
    /// How many ports there are on its side, numbered from 0 on.
    pub count: usize,
    /// The kind of the items at it.
    pub kind: Kind,
}

/// A sequential process (Kahn 1974): it wants to read one port, or to write one port, or has ended or faulted.
///
/// Its laws speak of an abstract state, and of what messages say.
pub trait Transducer {
    ghost use Rattle.std.specs.Prelude.{◌≡◌, ◌<◌, ℕ, false, IsTrue, IfOk, OnOk, OnErr, IsOk};
    ghost use Rattle.kahn.specs.declared.want.Want.TheVariants.{Read};
    ghost use Rattle.flow_messages.specs.Ends.{SameEnds};
    ghost use Rattle.flow_base.specs.Transducers.{Behaviour, BehaviourLaws, IsWrite, ports_on, kind_on};
    ghost use Rattle.flow_messages.specs.Flats.{flat_signals};
    ghost use Rattle.flow_base.specs.Passing.{MayCome};
    ghost use Rattle.flow_base.specs.Calls.{ReadsMessage, WritesMessage, PassedBlock};
    ghost use Rattle.flow_base.specs.Visits.{IsPlaced, Visited, BrokeOff};

    /// What its laws see of it.
    ghost State: { Type 0 };

    ghost state: { Self → State };

    /// What it does: its process, its ports and its row.
    ghost behaviour: { Behaviour State };

    /// What it wants next.
    fn want(&self) -> Want
        ensures { result ≡ behaviour.process.want (state self.now) };

    /// The port of this number on this side. One method for both sides, and for the count and the kind: a sum of many
    /// transducers writes out each method for each of them.
    fn port(&self, side: Side, number: usize) -> Port
        ensures count { result.count ≡ ports_on behaviour side (state self.now) }
        ensures kind { result.kind ≡ kind_on behaviour side (state self.now) number };

    /// The number of its input ports, from 0 on.
    fn inputs(&self) -> usize
        ensures { result ≡ behaviour.inputs (state self.now) }
    {
        self.port(Side::In, 0).count
    }

    /// The number of its output ports, from 0 on.
    fn outputs(&self) -> usize
        ensures { result ≡ behaviour.outputs (state self.now) }
    {
        self.port(Side::Out, 0).count
    }

    /// The kind of the items at this input port.
    fn kind_in(&self, port: usize) -> Kind
        ensures { result ≡ behaviour.kind_in (state self.now) port }
    {
        self.port(Side::In, port).kind
    }

    /// The kind of the items at this output port.
    fn kind_out(&self, port: usize) -> Kind
        ensures { result ≡ behaviour.kind_out (state self.now) port }
    {
        self.port(Side::Out, port).kind
    }

    /// Gives it the message that it wanted to read, of the port of this number. An error where memory was refused;
    /// then the transducer is unchanged, and the message is lost.
    fn give(&mut self, port: usize, message: Msg) -> Result<(), AllocError>
        requires { behaviour.process.want (state self.old) ≡ Read port }
        ensures ok { OnOk result (ReadsMessage behaviour (state self.old) message (state self.new)) }
        ensures err { OnErr result (state self.new ≡ state self.old) }
        ensures sure { behaviour.takes_memory (state self.old) ≡ false → IsOk result };

    /// The message that it wanted to write. An error where memory was refused; then the transducer is unchanged.
    fn emit(&mut self) -> Result<Msg, AllocError>
        requires { IsWrite (behaviour.process.want (state self.old)) }
        ensures ok { IfOk result (λ m. WritesMessage behaviour (state self.old) m (state self.new)) }
        ensures err { OnErr result (state self.new ≡ state self.old) }
        ensures sure { behaviour.takes_memory (state self.old) ≡ false → IsOk result };

    /// Passes the messages of a block on, where it can: it reads each and writes all that follows from it before it reads
    /// the next. `out` is then what it wrote, the same to each output. Whether it did; else nothing changed.
    ///
    /// An `End` may only be the last of the block. No message is a fault, and none takes memory: where one could be or
    /// might take some, the answer is false.
    fn pass(&mut self, block: &Block, out: &mut Block) -> bool
        requires { MayCome (behaviour.kind_in (state self.old) 0) (flat_signals block.now.items) }
        ensures passed { IsTrue result →
            PassedBlock behaviour state self.old block.now self.new out.new }
        ensures kept { result ≡ false → state self.new ≡ state self.old }
        ensures untouched { result ≡ false → out.new.items ≡ out.old.items }
    {
        let _ = block.len();
        let _ = out.len();
        false
    }

    /// A visit: some steps, at least one where its ends are certain of one. That there are at most `chunk` is not promised.
    /// The edges at its input ports and at its output ports are `inputs` and `outputs`. Whether it made a step.
    ///
    /// An error where memory was refused. Then it stays where it was before that step, and a message that it was to
    /// read is lost.
    #[inline(never)]
    fn run<E: Ends>(
        &mut self,
        inputs: &[usize],
        outputs: &[usize],
        ends: &mut E,
        chunk: usize,
    ) -> Result<bool, AllocError>
        requires some { 0 < chunk }
        requires placed { IsPlaced behaviour inputs.now outputs.now (state self.old)
            (E.view ends.old) }
        ensures same { E.same ends.old ends.new }
        ensures ends { SameEnds (E.view ends.old) (E.view ends.new) }
        ensures visited { IfOk result (λ any. Visited inputs.now outputs.now behaviour
            (state self.old) (E.view ends.old) (state self.new) (E.view ends.new) any) }
        ensures broke { OnErr result (BrokeOff inputs.now outputs.now behaviour (state self.old)
            (E.view ends.old) (state self.new) (E.view ends.new)) }
    {
        let mut moved = false;
        for _ in 0..chunk {
            match self.want() {
                Want::Read(port) => {
                    prove!(port < inputs.len());
                    let Some(message) = ends.take(inputs[port]) else {
                        break;
                    };
                    self.give(port, message)?;
                }
                Want::Write(port) => {
                    prove!(port < outputs.len());
                    let edge = outputs[port];
                    if !ends.room(edge) {
                        break;
                    }
                    let message = self.emit()?;
                    put_in_space(ends, edge, message);
                }
                Want::Ended | Want::Faulted(_) => break,
            }
            moved = true;
        }
        Ok(moved)
    }

    /// What it keeps to in each state.
    ghost laws: { BehaviourLaws behaviour };
}

/// A law and no code to run: what each transducer keeps to, from its opening state on, whatever it reads and
/// writes. It is a lawful process; on prefixes of lawful traffic it has not faulted and wrote prefixes of what
/// goes out; where it has ended its traffic was lawful; and lawful traffic it carries to its end. Each item that it
/// writes is of the kind of its port; and for each dialect it carries integers in its range where those that came
/// in, and its own, are.
pub fn keeps_laws<T: Transducer>(opened: &T)
    requires { T.behaviour.opening (T.state opened.now) ≡ T.state opened.now }
    ensures { TransducerLaws T.behaviour (T.state opened.now) }
{}
