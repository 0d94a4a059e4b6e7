// How many elements each segment has.

ghost use Rattle.std.specs.Prelude.{◌≡◌, ◌+◌, ◌≤◌, true, false, length, take};
ghost use Rattle.snesl_data.specs.Integers.{greatest_integer};
ghost use Rattle.flow_folds.specs.LengthMachine.{one_element_more, length_at_end};
ghost use Rattle.flow_folds.specs.LengthBlocks.{LengthsAlong};

use flow_base::{Ask, Moved, Stop, Worker, Written};
use flow_messages::{Flat, Item, Items, Kind};
use snesl_data::{Dialect, FaultKind};
use std::alloc::AllocError;

/// Reads a segment of flags, and writes how many elements they stand for. Each segment is an instance.
///
/// Reads port 0, of kind Bool, and writes port 0, of kind Int. An item of another kind is a fault of kind `Shape`. A
/// segment with more elements than the greatest integer of the worker's dialect is a fault of kind `Overflow`, at its
/// end.
/// Row: `LengthRow` (specs/Rows.antt).
#[derive(Clone, Copy, Debug, PartialEq, Eq)]
pub struct Length {
    dialect: Dialect,
    count: Count,
}

// How far it is in a segment.
#[derive(Clone, Copy, Debug, PartialEq, Eq)]
enum Count {
    // So many elements of the segment came; or, where this is over the range of the dialect, at least so many.
    Counting(u128),
    // The segment has ended, and this number of its elements is to be written.
    Due(i128),
}

impl Count {
    // Where one element more leads after so many. A count over the range of the dialect stays over it.
    #[inline(always)]
    fn after_element(dialect: Dialect, count: u128) -> Count
        ensures { result ≡ Count.Counting (one_element_more dialect count) }
    {
        Count::Counting(count.min(dialect.greatest() as u128) + 1)
    }

    // Where the end of a segment leads after so many elements.
    #[inline(always)]
    fn after_end(dialect: Dialect, count: u128) -> Result<Count, FaultKind>
        ensures { result ≡ length_at_end dialect count }
    {
        if count <= dialect.greatest() as u128 {
            Ok(Count::Due(count as i128))
        } else {
            Err(FaultKind::Overflow)
        }
    }
}

// Whether a count stays in the range, and within 64 bits, with so many elements more.
#[inline(always)]
fn stays_in_range(dialect: Dialect, count: u128, more: usize) -> bool
    ensures range { result ≡ true → count + more ≤ greatest_integer dialect }
    ensures narrow { result ≡ true → count + more ≤ 9223372036854775807 }
{
    match count.checked_add(more as u128) {
        Some(all) => all <= dialect.greatest() as u128 && all <= i64::MAX as u128,
        None => false,
    }
}

// Goes along the flags after so many elements, and writes the length of each segment that ends there, at most so many of
// them. How many flags, how many lengths, and how many elements came of the segment that has not ended.
#[inline(always)]
fn lengths_along(
    count: u128,
    flags: &[bool],
    most: usize,
    lengths: &mut [i64],
) -> (usize, usize, u128)
    requires narrow { count + length flags.now ≤ 9223372036854775807 }
    requires block { most ≤ length lengths.old }
    ensures flags { result.0 ≤ length flags.now }
    ensures most { result.1 ≤ most }
    ensures along { LengthsAlong count (take result.0 flags.now)
        (take result.1 lengths.new) result.2 }
{
    let mut elements = count;
    let mut ended = 0;
    for place in 0..flags.len() {
        if !flags[place] {
            elements += 1;
            continue;
        }
        if ended == most {
            return (place, ended, elements);
        }
        lengths[ended] = elements as i64;
        ended += 1;
        elements = 0;
    }
    (flags.len(), ended, elements)
}

impl Length {
    /// A worker in this dialect, before its first instance.
    pub fn new(dialect: Dialect) -> Length
        ensures { result ≡ record { dialect = dialect; count = Count.Counting 0 } }
    {
        Length {
            dialect,
            count: Count::Counting(0),
        }
    }
}

impl Worker for Length {
    ghost use Rattle.snesl_data.specs.declared.dialect.Dialect.{Dialect};
    ghost use Rattle.flow_folds.specs.declared.length.Count.{Count};
    ghost use Rattle.flow_folds.specs.LengthMachine.{length_machine, length_view};
    ghost use Rattle.flow_folds.specs.laws.Length.{length_laws};

    ghost Parameters = { Dialect };

    ghost State = { Count };

    ghost state = { length_view };

    ghost machine = { length_machine };

    ghost passes = { λ _. false };

    ghost laws = { length_laws };

    #[inline(always)]
    fn ask(&self) -> Ask {
        match self.count {
            Count::Counting(0) => Ask::Begin,
            Count::Counting(_) => Ask::Take(0),
            Count::Due(_) => Ask::Give(0),
        }
    }

    fn inputs(&self) -> usize {
        1
    }

    fn outputs(&self) -> usize {
        1
    }

    fn kind_in(&self, _port: usize) -> Kind {
        Kind::Bool
    }

    fn kind_out(&self, _port: usize) -> Kind {
        Kind::Int
    }

    fn passes(&self) -> bool {
        false
    }

    // It is not asked.
    fn follows(&self, _item: Flat) -> Option<Flat> {
        None
    }

    #[inline(always)]
    fn take(&mut self, item: Item) -> Result<(), Stop> {
        self.count = match (self.count, item) {
            (Count::Counting(count), Item::Bool(false)) => Count::after_element(
                self.dialect,
                count,
            ),
            (Count::Counting(count), Item::Bool(true)) => Count::after_end(self.dialect, count)?,
            _ => return Err(Stop::Faulted(FaultKind::Shape)),
        };
        Ok(())
    }

    #[inline(always)]
    fn give(&mut self) -> Result<Item, AllocError> {
        let number = match self.count {
            Count::Due(number) => number,
            Count::Counting(_) => unreachable!(),
        };
        self.count = Count::Counting(0);
        Ok(Item::Int(number))
    }

    // A number that is due is left to a single step.
    fn is_between(&self) -> bool {
        !matches!(self.count, Count::Due(_))
    }

    // A flag is one step, and the length of a segment one more.
    #[inline(always)]
    fn along(
        &mut self,
        first: Items<'_>,
        second: Items<'_>,
        block: &mut Written,
        space: usize,
        most: usize,
    ) -> Moved {
        let Count::Counting(count) = self.count else {
            return Moved::nothing();
        };
        let flags = first.flags();
        let room = space.min(most / 2);
        let ahead = flags.len().min(most - room);
        // A count over the range is a fault at the end of its segment, which a single step names.
        if !stays_in_range(self.dialect, count, ahead) {
            return Moved::nothing();
        }
        let (passed, written, elements) = lengths_along(
            count,
            &flags[..ahead],
            room,
            &mut block.ints,
        );
        self.count = Count::Counting(elements);
        Moved {
            first: passed,
            second: 0,
            units: 0,
            flags: 0,
            ints: written,
            steps: passed + written,
        }
    }
}
