// The end of a stream that nothing uses.

ghost use Rattle.std.specs.Prelude.{◌≡◌, true, false, IfOk, OnErr, IsOk};
ghost use Rattle.flow_scalar.specs.SinkShown.{CountOf};
ghost use Rattle.flow_scalar.specs.Written.{SinkGives};
ghost use Rattle.flow_messages.specs.Blocks.{item_signals};

use flow_base::{Ask, Moved, Stop, Worker, Written};
use flow_messages::{Flat, Item, Items, Kind};
use snesl_data::FaultKind;
use std::alloc::AllocError;

/// Reads items of one kind and writes nothing. Each item is an instance. An item of another kind is a fault of kind
/// `Shape`. Row: `SinkRow` (specs/Rows.antt).
#[derive(Clone, Copy, Debug, PartialEq, Eq)]
pub struct Sink {
    kind: Kind,
}

// How many items of the kind are shown.
#[inline(always)]
fn count_of(kind: Kind, shown: Items<'_>) -> usize
    ensures { CountOf kind result (item_signals shown.entry) }
{
    match kind {
        Kind::Unit => shown.units(),
        Kind::Bool => shown.flags().len(),
        Kind::Int => shown.ints().len(),
        Kind::Vec => 0,
    }
}

impl Sink {
    /// A worker that reads items of this kind.
    pub fn new(kind: Kind) -> Sink
        ensures { result ≡ record { kind = kind } }
    {
        Sink { kind }
    }
}

impl Worker for Sink {
    ghost use Rattle.flow_messages.specs.Cells.{cell_of};
    ghost use Rattle.flow_messages.specs.declared.message.Kind.{Kind};
    ghost use Rattle.flow_base.specs.Machines.{written_cell, state_after_write};
    ghost use Rattle.flow_scalar.specs.SinkMachine.{sink_machine, sink_view};
    ghost use Rattle.flow_scalar.specs.laws.Sink.{sink_laws};

    ghost Parameters = { Kind };

    ghost State = { Unit {0} };

    ghost state = { sink_view };

    ghost machine = { sink_machine };

    ghost passes = { λ _. true };

    ghost laws = { sink_laws };

    #[inline(always)]
    fn ask(&self) -> Ask {
        Ask::Begin
    }

    fn inputs(&self) -> usize {
        1
    }

    fn outputs(&self) -> usize {
        0
    }

    fn kind_in(&self, _port: usize) -> Kind {
        self.kind
    }

    fn kind_out(&self, _port: usize) -> Kind {
        self.kind
    }

    fn passes(&self) -> bool {
        true
    }

    fn follows(&self, _item: Flat) -> Option<Flat> {
        None
    }

    #[inline(always)]
    fn take(&mut self, item: Item) -> Result<(), Stop> {
        if !self.kind.fits(&item) {
            return Err(Stop::Faulted(FaultKind::Shape));
        }
        Ok(())
    }

    // It has no output, so that nobody asks for this.
    fn give(&mut self) -> Result<Item, AllocError>
        ensures ok { IfOk result (λ item. SinkGives self.old item self.new) }
        ensures err { OnErr result (self.new ≡ self.old) }
        ensures sure { sink_machine.takes_memory tt ≡ false → IsOk result }
    {
        Ok(Item::Unit)
    }

    #[inline(always)]
    fn along(
        &mut self,
        first: Items<'_>,
        second: Items<'_>,
        block: &mut Written,
        space: usize,
        most: usize,
    ) -> Moved {
        let count = count_of(self.kind, first).min(most);
        Moved {
            first: count,
            second: 0,
            units: 0,
            flags: 0,
            ints: 0,
            steps: count,
        }
    }
}
