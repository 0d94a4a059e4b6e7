// Operators on two scalars.

ghost use Rattle.std.specs.Prelude.{◌≡◌, ◌*ℤ◌, ◌≤◌, length, Ok, IfSome, false};
ghost use Rattle.snesl_data.specs.operators.Operators.{binary_value};
ghost use Rattle.snesl_data.specs.declared.operators.scalar.Scalar.TheVariants.{Int};
ghost use Rattle.flow_scalar.specs.BinaryMachine.{IntsAt, FlagsAt};

use crate::operand::{narrow_of, operand_of};
use flow_base::{Ask, Moved, Stop, Worker, Written};
use flow_folds::{item_of, kind_of};
use flow_messages::{Flat, Item, Items, Kind};
use snesl_data::Dialect;
use snesl_data::operators::{BinaryOperator, Scalar, ScalarType};
use std::alloc::AllocError;

// The product, where it fits 64 bits.
#[inline(always)]
fn product(m: i64, n: i64) -> Option<i64>
    ensures { IfSome result (λ v. v ≡ m *ℤ n) }
{
    let wide = m as i128 * n as i128;
    match i64::try_from(wide) {
        Ok(narrow) => Some(narrow),
        Err(_) => None,
    }
}

// The integer at two integers, where there is one of 64 bits.
#[inline(always)]
fn int_at(operator: BinaryOperator, dialect: Dialect, left: i64, right: i64) -> Option<i64>
    ensures { IfSome result
        (λ v. binary_value dialect operator (Int left) (Int right) ≡ Ok (Int v)) }
{
    match operator {
        BinaryOperator::Add => left.checked_add(right),
        BinaryOperator::Subtract => left.checked_sub(right),
        BinaryOperator::Multiply => product(left, right),
        _ => {
            let (left, right) = (Scalar::Int(left as i128), Scalar::Int(right as i128));
            narrow_of(operator.apply(dialect, left, right))
        }
    }
}

// The integers at the first of these pairs, as many as do not fault.
#[inline(always)]
fn ints_by(
    operator: BinaryOperator,
    dialect: Dialect,
    lefts: &[i64],
    rights: &[i64],
    values: &mut [i64],
) -> usize
    requires rights { length lefts.now ≤ length rights.now }
    requires block { length lefts.now ≤ length values.old }
    ensures within { result ≤ length lefts.now }
    ensures values { IntsAt dialect operator lefts.now rights.now values.new result }
{
    for at in 0..lefts.len() {
        let Some(value) = int_at(operator, dialect, lefts[at], rights[at]) else {
            return at;
        };
        values[at] = value;
    }
    lefts.len()
}

// The truth values at the first of these pairs, as many as do not fault.
#[inline(always)]
fn flags_by(
    operator: BinaryOperator,
    dialect: Dialect,
    lefts: &[i64],
    rights: &[i64],
    values: &mut [bool],
) -> usize
    requires rights { length lefts.now ≤ length rights.now }
    requires block { length lefts.now ≤ length values.old }
    ensures within { result ≤ length lefts.now }
    ensures values { FlagsAt dialect operator lefts.now rights.now values.new result }
{
    for at in 0..lefts.len() {
        let left = Scalar::Int(lefts[at] as i128);
        let right = Scalar::Int(rights[at] as i128);
        let Ok(Scalar::Bool(value)) = operator.apply(dialect, left, right) else {
            return at;
        };
        values[at] = value;
    }
    lefts.len()
}

/// How far an instance is.
#[derive(Clone, Copy, Debug, PartialEq, Eq)]
pub enum Progress {
    /// Nothing was read.
    Start,
    /// The left operand was read.
    Left(Scalar),
    /// The value is to be written.
    Value(Scalar),
}

/// Writes the operator's value at each two items. A left and a right operand are an instance.
///
/// Reads port 0 and then port 1, both of the type of the operator's operands; writes port 0, of the type of its value.
/// An item of another kind is a fault of kind `Shape` at once, and where the operator has no value, its fault is that
/// of the worker: `Overflow` where the value does not lie in the range of the worker's dialect. Row: `BinaryRow`
/// (specs/Rows.antt).
#[derive(Clone, Copy, Debug, PartialEq, Eq)]
pub struct Binary {
    dialect: Dialect,
    operator: BinaryOperator,
    progress: Progress,
}

impl Binary {
    /// A worker over this operator in this dialect, before its first instance.
    pub fn new(dialect: Dialect, operator: BinaryOperator) -> Binary
        ensures { result ≡
            record { dialect = dialect; operator = operator; progress = Progress.Start } }
    {
        Binary {
            dialect,
            operator,
            progress: Progress::Start,
        }
    }

    // The integers at the first of these pairs, as many as there is room for and as do not fault.
    #[inline(always)]
    fn ints_of(&self, lefts: &[i64], rights: &[i64], room: usize, values: &mut [i64]) -> usize
        ensures room { result ≤ room }
        ensures lefts { result ≤ length lefts.now }
        ensures rights { result ≤ length rights.now }
        ensures block { result ≤ length values.new }
        ensures values { IntsAt self.now.dialect self.now.operator lefts.now rights.now values.new
            result }
    {
        let whole = lefts.len().min(rights.len()).min(room).min(values.len());
        let lefts = &lefts[..whole];
        let rights = &rights[..whole];
        let dialect = self.dialect;
        // Each of these calls is a loop of its own, in which nothing asks which operator it is.
        match self.operator {
            BinaryOperator::Add => ints_by(BinaryOperator::Add, dialect, lefts, rights, values),
            BinaryOperator::Subtract => {
                ints_by(BinaryOperator::Subtract, dialect, lefts, rights, values)
            }
            BinaryOperator::Multiply => {
                ints_by(BinaryOperator::Multiply, dialect, lefts, rights, values)
            }
            operator => ints_by(operator, dialect, lefts, rights, values),
        }
    }

    // The truth values at the first of these pairs, as many as there is room for and as do not fault.
    #[inline(always)]
    fn flags_of(&self, lefts: &[i64], rights: &[i64], room: usize, values: &mut [bool]) -> usize
        ensures room { result ≤ room }
        ensures lefts { result ≤ length lefts.now }
        ensures rights { result ≤ length rights.now }
        ensures block { result ≤ length values.new }
        ensures values { FlagsAt self.now.dialect self.now.operator lefts.now rights.now values.new
            result }
    {
        let whole = lefts.len().min(rights.len()).min(room).min(values.len());
        let lefts = &lefts[..whole];
        let rights = &rights[..whole];
        let dialect = self.dialect;
        // As for integers, a loop for each.
        match self.operator {
            BinaryOperator::EqualIntegers => {
                flags_by(
                    BinaryOperator::EqualIntegers,
                    dialect,
                    lefts,
                    rights,
                    values,
                )
            }
            BinaryOperator::Less => {
                flags_by(BinaryOperator::Less, dialect, lefts, rights, values)
            }
            BinaryOperator::AtMost => {
                flags_by(BinaryOperator::AtMost, dialect, lefts, rights, values)
            }
            BinaryOperator::Greater => {
                flags_by(BinaryOperator::Greater, dialect, lefts, rights, values)
            }
            BinaryOperator::AtLeast => {
                flags_by(BinaryOperator::AtLeast, dialect, lefts, rights, values)
            }
            // No other gives a truth value at two integers.
            _ => 0,
        }
    }
}

impl Worker for Binary {
    ghost use Rattle.snesl_data.specs.declared.dialect.Dialect.{Dialect};
    ghost use Rattle.snesl_data.specs.declared.operators.operator.BinaryOperator.{BinaryOperator};
    ghost use Rattle.flow_scalar.specs.declared.binary.Progress.{Progress};
    ghost use Rattle.flow_scalar.specs.BinaryMachine.{binary_machine, binary_view};
    ghost use Rattle.flow_scalar.specs.laws.Binary.{binary_laws};

    ghost Parameters = { Dialect × BinaryOperator };

    ghost State = { Progress };

    ghost state = { binary_view };

    ghost machine = { binary_machine };

    ghost passes = { λ _. false };

    ghost laws = { binary_laws };

    #[inline(always)]
    fn ask(&self) -> Ask {
        match self.progress {
            Progress::Start => Ask::Begin,
            Progress::Left(_) => Ask::Take(1),
            Progress::Value(_) => Ask::Give(0),
        }
    }

    fn inputs(&self) -> usize {
        2
    }

    fn outputs(&self) -> usize {
        1
    }

    fn kind_in(&self, _port: usize) -> Kind {
        kind_of(self.operator.operand())
    }

    fn kind_out(&self, _port: usize) -> Kind {
        kind_of(self.operator.result())
    }

    fn passes(&self) -> bool {
        false
    }

    // It is not asked.
    fn follows(&self, _item: Flat) -> Option<Flat> {
        None
    }

    #[inline(always)]
    fn take(&mut self, item: Item) -> Result<(), Stop> {
        let operand = operand_of(self.operator.operand(), item)?;
        self.progress = match self.progress {
            Progress::Start => Progress::Left(operand),
            Progress::Left(left) => {
                Progress::Value(self.operator.apply(self.dialect, left, operand)?)
            }
            Progress::Value(_) => unreachable!(),
        };
        Ok(())
    }

    #[inline(always)]
    fn give(&mut self) -> Result<Item, AllocError> {
        match self.progress {
            Progress::Value(value) => {
                self.progress = Progress::Start;
                Ok(item_of(value))
            }
            _ => unreachable!(),
        }
    }

    fn is_between(&self) -> bool {
        matches!(self.progress, Progress::Start)
    }

    // Two operands are two steps, and their value is one more.
    #[inline(always)]
    fn along(
        &mut self,
        first: Items<'_>,
        second: Items<'_>,
        block: &mut Written,
        space: usize,
        most: usize,
    ) -> Moved {
        let Progress::Start = self.progress else {
            return Moved::nothing();
        };
        // Pairs of truth values are left to single steps.
        let (Items::Ints(lefts), Items::Ints(rights)) = (first, second) else {
            return Moved::nothing();
        };
        let room = space.min(most / 3);
        match self.operator.result() {
            ScalarType::Int => {
                let count = self.ints_of(lefts, rights, room, &mut block.ints);
                Moved {
                    first: count,
                    second: count,
                    units: 0,
                    flags: 0,
                    ints: count,
                    steps: 3 * count,
                }
            }
            ScalarType::Bool => {
                let count = self.flags_of(lefts, rights, room, &mut block.flags);
                Moved {
                    first: count,
                    second: count,
                    units: 0,
                    flags: count,
                    ints: 0,
                    steps: 3 * count,
                }
            }
        }
    }
}
