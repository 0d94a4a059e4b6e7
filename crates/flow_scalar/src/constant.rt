// A constant, once for each item.

ghost use Rattle.std.specs.Prelude.{◌≡◌, ◌<◌, ◌≤◌, ℕ, true, false, get_or, length, pos};
ghost use Rattle.flow_messages.specs.Signals.{carry, signal_of};
ghost use Rattle.flow_messages.specs.Flats.{message_of};
ghost use Rattle.flow_folds.specs.Scalars.{cell_of_scalar};

use flow_base::{Ask, Moved, Stop, Worker, Written};
use flow_folds::{item_of, kind_of};
use flow_messages::{Flat, Item, Items, Kind};
use snesl_data::FaultKind;
use snesl_data::operators::Scalar;
use std::alloc::AllocError;

/// Writes a scalar once for each Unit. Each Unit is an instance.
///
/// Reads port 0, of kind Unit; writes port 0, of the scalar's kind. An item of another kind is a fault of kind
/// `Shape`. Row: `ConstRow` (specs/Rows.antt).
#[derive(Clone, Copy, Debug, PartialEq, Eq)]
pub struct Const {
    scalar: Scalar,
    // A Unit came, and the scalar is to be written for it.
    due: bool,
}

// The message that carries the scalar.
fn flat_of(scalar: Scalar) -> Flat
    ensures { signal_of (message_of result) ≡ carry (cell_of_scalar scalar) }
{
    match scalar {
        Scalar::Int(number) => Flat::Int(number),
        Scalar::Bool(truth) => Flat::Bool(truth),
    }
}

// Puts the integer in the first so many places.
#[inline(always)]
fn fill_ints(places: &mut [i64], count: usize, number: i64)
    requires { count ≤ length places.old }
    ensures length { length places.new ≡ length places.old }
    ensures filled { (k : ℕ) → k < count → get_or places.new k (pos 0) ≡ number }
{
    for place in 0..count {
        places[place] = number;
    }
}

// Puts the truth value in the first so many places.
#[inline(always)]
fn fill_flags(places: &mut [bool], count: usize, truth: bool)
    requires { count ≤ length places.old }
    ensures length { length places.new ≡ length places.old }
    ensures filled { (k : ℕ) → k < count → get_or places.new k false ≡ truth }
{
    for place in 0..count {
        places[place] = truth;
    }
}

impl Const {
    /// A worker that writes this scalar, before its first instance.
    pub fn new(scalar: Scalar) -> Const
        ensures { result ≡ record { scalar = scalar; due = false } }
    {
        Const { scalar, due: false }
    }
}

impl Worker for Const {
    ghost use Rattle.std.specs.Prelude.{Bool};
    ghost use Rattle.snesl_data.specs.declared.operators.scalar.Scalar.{Scalar};
    ghost use Rattle.flow_scalar.specs.ConstMachine.{const_machine, const_view};
    ghost use Rattle.flow_scalar.specs.laws.Const.{const_laws};

    ghost Parameters = { Scalar };

    ghost State = { Bool };

    ghost state = { const_view };

    ghost machine = { const_machine };

    ghost passes = { λ _. true };

    ghost laws = { const_laws };

    #[inline(always)]
    fn ask(&self) -> Ask {
        if self.due { Ask::Give(0) } else { Ask::Begin }
    }

    fn inputs(&self) -> usize {
        1
    }

    fn outputs(&self) -> usize {
        1
    }

    fn kind_in(&self, _port: usize) -> Kind {
        Kind::Unit
    }

    fn kind_out(&self, _port: usize) -> Kind {
        kind_of(self.scalar.scalar_type())
    }

    fn passes(&self) -> bool {
        true
    }

    fn follows(&self, _item: Flat) -> Option<Flat> {
        Some(flat_of(self.scalar))
    }

    #[inline(always)]
    fn take(&mut self, item: Item) -> Result<(), Stop> {
        match item {
            Item::Unit => {
                self.due = true;
                Ok(())
            }
            _ => Err(Stop::Faulted(FaultKind::Shape)),
        }
    }

    #[inline(always)]
    fn give(&mut self) -> Result<Item, AllocError> {
        self.due = false;
        Ok(item_of(self.scalar))
    }

    fn is_between(&self) -> bool {
        !self.due
    }

    // A unit is one step, and the scalar one more.
    #[inline(always)]
    fn along(
        &mut self,
        first: Items<'_>,
        second: Items<'_>,
        block: &mut Written,
        space: usize,
        most: usize,
    ) -> Moved {
        if self.due {
            return Moved::nothing();
        }
        let units = first.units();
        let whole = units.min(space).min(most / 2);
        match self.scalar {
            Scalar::Bool(truth) => {
                fill_flags(&mut block.flags, whole, truth);
                Moved {
                    first: whole,
                    second: 0,
                    units: 0,
                    flags: whole,
                    ints: 0,
                    steps: 2 * whole,
                }
            }
            Scalar::Int(number) => {
                // An integer of more bits is left to single steps.
                let Ok(narrow) = i64::try_from(number) else {
                    return Moved::nothing();
                };
                fill_ints(&mut block.ints, whole, narrow);
                Moved {
                    first: whole,
                    second: 0,
                    units: 0,
                    flags: 0,
                    ints: whole,
                    steps: 2 * whole,
                }
            }
        }
    }
}
