// Operators on one scalar.

ghost use Rattle.std.specs.Prelude.{◌≡◌, ◌≤◌, length, Ok, None, IfSome, false};
ghost use Rattle.snesl_data.specs.operators.Operators.{unary_value};
ghost use Rattle.snesl_data.specs.declared.operators.scalar.Scalar.TheVariants.{Int};
ghost use Rattle.flow_scalar.specs.UnaryMachine.{IntsAt, FlagsAt};

use crate::operand::{narrow_of, operand_of};
use flow_base::{Ask, Moved, Stop, Worker, Written};
use flow_folds::{item_of, kind_of};
use flow_messages::{Flat, Item, Items, Kind};
use snesl_data::Dialect;
use snesl_data::operators::{Scalar, UnaryOperator};
use std::alloc::AllocError;

/// Writes the operator's value at each item. Each item is an instance.
///
/// Reads port 0 and writes port 0, both of the operator's type. An item of another kind is a fault of kind `Shape`,
/// and where the operator has no value, its fault is that of the worker: `Overflow` where the value does not lie in
/// the range of the worker's dialect. Row: `UnaryRow` (specs/Rows.antt).
#[derive(Clone, Copy, Debug, PartialEq, Eq)]
pub struct Unary {
    dialect: Dialect,
    operator: UnaryOperator,
    // The value that is to be written.
    value: Option<Scalar>,
}

// The integer at an integer, where there is one of 64 bits.
#[inline(always)]
fn int_at(operator: UnaryOperator, dialect: Dialect, operand: i64) -> Option<i64>
    ensures { IfSome result (λ v. unary_value dialect operator (Int operand) ≡ Ok (Int v)) }
{
    narrow_of(operator.apply(dialect, Scalar::Int(operand as i128)))
}

impl Unary {
    /// A worker over this operator in this dialect, before its first instance.
    pub fn new(dialect: Dialect, operator: UnaryOperator) -> Unary
        ensures { result ≡ record { dialect = dialect; operator = operator; value = None } }
    {
        Unary {
            dialect,
            operator,
            value: None,
        }
    }

    // The integers at the first of these operands, as many as there is room for and as do not fault.
    #[inline(always)]
    fn ints_of(&self, operands: &[i64], room: usize, values: &mut [i64]) -> usize
        ensures room { result ≤ room }
        ensures operands { result ≤ length operands.now }
        ensures block { result ≤ length values.new }
        ensures values { IntsAt self.now.dialect self.now.operator operands.now values.new result }
    {
        let whole = operands.len().min(room).min(values.len());
        for at in 0..whole {
            let Some(value) = int_at(self.operator, self.dialect, operands[at]) else {
                return at;
            };
            values[at] = value;
        }
        whole
    }

    // The truth values at the first of these operands, as many as there is room for and as do not fault.
    #[inline(always)]
    fn flags_of(&self, operands: &[bool], room: usize, values: &mut [bool]) -> usize
        ensures room { result ≤ room }
        ensures operands { result ≤ length operands.now }
        ensures block { result ≤ length values.new }
        ensures values { FlagsAt self.now.dialect self.now.operator operands.now values.new result }
    {
        let whole = operands.len().min(room).min(values.len());
        for at in 0..whole {
            let operand = Scalar::Bool(operands[at]);
            let Ok(Scalar::Bool(value)) = self.operator.apply(self.dialect, operand) else {
                return at;
            };
            values[at] = value;
        }
        whole
    }
}

impl Worker for Unary {
    ghost use Rattle.std.specs.Prelude.{Option};
    ghost use Rattle.snesl_data.specs.declared.dialect.Dialect.{Dialect};
    ghost use Rattle.snesl_data.specs.declared.operators.scalar.Scalar.{Scalar};
    ghost use Rattle.snesl_data.specs.declared.operators.operator.UnaryOperator.{UnaryOperator};
    ghost use Rattle.flow_scalar.specs.UnaryMachine.{unary_machine, unary_view};
    ghost use Rattle.flow_scalar.specs.laws.Unary.{unary_laws};

    ghost Parameters = { Dialect × UnaryOperator };

    ghost State = { Option Scalar };

    ghost state = { unary_view };

    ghost machine = { unary_machine };

    ghost passes = { λ _. false };

    ghost laws = { unary_laws };

    #[inline(always)]
    fn ask(&self) -> Ask {
        match self.value {
            None => Ask::Begin,
            Some(_) => Ask::Give(0),
        }
    }

    fn inputs(&self) -> usize {
        1
    }

    fn outputs(&self) -> usize {
        1
    }

    fn kind_in(&self, _port: usize) -> Kind {
        kind_of(self.operator.operand())
    }

    fn kind_out(&self, _port: usize) -> Kind {
        kind_of(self.operator.operand())
    }

    fn passes(&self) -> bool {
        false
    }

    // It is not asked.
    fn follows(&self, _item: Flat) -> Option<Flat> {
        None
    }

    #[inline(always)]
    fn take(&mut self, item: Item) -> Result<(), Stop> {
        let operand = operand_of(self.operator.operand(), item)?;
        self.value = Some(self.operator.apply(self.dialect, operand)?);
        Ok(())
    }

    #[inline(always)]
    fn give(&mut self) -> Result<Item, AllocError> {
        match self.value {
            Some(value) => {
                self.value = None;
                Ok(item_of(value))
            }
            None => unreachable!(),
        }
    }

    fn is_between(&self) -> bool {
        self.value.is_none()
    }

    // An operand is one step, and its value one more.
    #[inline(always)]
    fn along(
        &mut self,
        first: Items<'_>,
        second: Items<'_>,
        block: &mut Written,
        space: usize,
        most: usize,
    ) -> Moved {
        if self.value.is_some() {
            return Moved::nothing();
        }
        let room = space.min(most / 2);
        match first {
            Items::Ints(operands) => {
                let count = self.ints_of(operands, room, &mut block.ints);
                Moved {
                    first: count,
                    second: 0,
                    units: 0,
                    flags: 0,
                    ints: count,
                    steps: 2 * count,
                }
            }
            Items::Flags(operands) => {
                let count = self.flags_of(operands, room, &mut block.flags);
                Moved {
                    first: count,
                    second: 0,
                    units: 0,
                    flags: count,
                    ints: 0,
                    steps: 2 * count,
                }
            }
            _ => Moved::nothing(),
        }
    }
}
