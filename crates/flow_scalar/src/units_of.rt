// A Unit for each element that flags stand for.

ghost use Rattle.std.specs.Prelude.{◌≡◌, false, not, true};
ghost use Rattle.std.specs.List.{count_by};

use flow_base::{Ask, Moved, Stop, Worker, Written};
use flow_messages::{Flat, Item, Items, Kind};
use snesl_data::FaultKind;
use std::alloc::AllocError;

/// Writes a Unit for each flag that stands for an element, and nothing for a flag that ends a segment. Each flag is
/// an instance.
///
/// Reads port 0, of kind Bool, and writes port 0, of kind Unit. An item of another kind is a fault of kind `Shape`.
/// Row: `UnitsOfRow` (specs/Rows.antt).
#[derive(Clone, Copy, Debug, PartialEq, Eq)]
pub struct UnitsOf {
    // A flag came that stands for an element, and a Unit is to be written for it.
    due: bool,
}

// How many of the flags stand for an element.
#[inline(always)]
fn elements_in(flags: &[bool]) -> usize
    ensures { result ≡ count_by not flags.now }
{
    let mut elements = 0;
    for ends in flags {
        elements += usize::from(!*ends);
    }
    elements
}

impl UnitsOf {
    /// A worker before its first instance.
    pub fn new() -> UnitsOf
        ensures { result ≡ record { due = false } }
    {
        UnitsOf { due: false }
    }
}

impl Worker for UnitsOf {
    ghost use Rattle.std.specs.Prelude.{Bool};
    ghost use Rattle.flow_scalar.specs.UnitsOfMachine.{units_of_machine, units_of_view};
    ghost use Rattle.flow_scalar.specs.laws.UnitsOf.{units_of_laws};

    ghost Parameters = { Unit {0} };

    ghost State = { Bool };

    ghost state = { units_of_view };

    ghost machine = { units_of_machine };

    ghost passes = { λ _. true };

    ghost laws = { units_of_laws };

    #[inline(always)]
    fn ask(&self) -> Ask {
        if self.due { Ask::Give(0) } else { Ask::Begin }
    }

    fn inputs(&self) -> usize {
        1
    }

    fn outputs(&self) -> usize {
        1
    }

    fn kind_in(&self, _port: usize) -> Kind {
        Kind::Bool
    }

    fn kind_out(&self, _port: usize) -> Kind {
        Kind::Unit
    }

    fn passes(&self) -> bool {
        true
    }

    fn follows(&self, item: Flat) -> Option<Flat> {
        match item {
            Flat::Bool(false) => Some(Flat::Unit),
            _ => None,
        }
    }

    #[inline(always)]
    fn take(&mut self, item: Item) -> Result<(), Stop> {
        match item {
            Item::Bool(ends) => {
                self.due = !ends;
                Ok(())
            }
            _ => Err(Stop::Faulted(FaultKind::Shape)),
        }
    }

    #[inline(always)]
    fn give(&mut self) -> Result<Item, AllocError> {
        self.due = false;
        Ok(Item::Unit)
    }

    fn is_between(&self) -> bool {
        !self.due
    }

    // A flag is one step, and the unit of an element one more.
    #[inline(always)]
    fn along(
        &mut self,
        first: Items<'_>,
        second: Items<'_>,
        block: &mut Written,
        space: usize,
        most: usize,
    ) -> Moved {
        if self.due {
            return Moved::nothing();
        }
        let Items::Flags(flags) = first else {
            return Moved::nothing();
        };
        let whole = flags.len().min(space).min(most / 2);
        let units = elements_in(&flags[..whole]);
        Moved {
            first: whole,
            second: 0,
            units,
            flags: 0,
            ints: 0,
            steps: whole + units,
        }
    }
}
