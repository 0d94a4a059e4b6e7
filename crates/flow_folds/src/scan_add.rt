// Running sums of segments.

ghost use Rattle.std.specs.Prelude.{◌≡◌, ◌≤◌, false, Ok, length, take, IfSome};
ghost use Rattle.flow_base.specs.Flags.{F};
ghost use Rattle.flow_base.specs.Machines.{state_after_read};
ghost use Rattle.flow_folds.specs.ScanAddMachine.{scan_add_move};
ghost use Rattle.flow_folds.specs.ScanAddSteps.{HoldsLast, SumsFirstAlong};
ghost use Rattle.flow_folds.specs.declared.scan_add.Stage.TheVariants.{Element};

use flow_base::{Ask, Moved, Stop, Worker, Written};
use flow_messages::{Flat, Item, Items, Kind};
use snesl_data::operators::sum;
use snesl_data::{Dialect, FaultKind};
use std::alloc::AllocError;

/// Writes for each element of a segment the sum of those before it. Each segment is an instance.
///
/// Reads port 0, the flags, of kind Bool, and port 1, the elements, of kind Int: for each flag that stands for an
/// element it reads that element, and writes the sum to port 0, of kind Int. The flag that ends a segment is read
/// alone. An item of another kind is a fault of kind `Shape`. An element is added when the next one of its segment
/// comes, and a sum that does not lie in the range of the worker's dialect is then a fault of kind `Overflow`. So the
/// last element of a segment is never added, and the sum of all need not lie in the range.
///
/// Row: `ScanAddRow` (specs/Rows.antt).
#[derive(Clone, Copy, Debug, PartialEq, Eq)]
pub struct ScanAdd {
    dialect: Dialect,
    stage: Stage,
}

// How far it is in a segment.
#[derive(Clone, Copy, Debug, PartialEq, Eq)]
enum Stage {
    // A segment begins.
    Start,
    // A flag comes. The last element was `last`, and `before` the sum of those before it.
    Flag { before: i128, last: i128 },
    // An element comes. The sum of those before it is still to be made: `before`, and `last` that is not yet added.
    // Both are 0 where it is the first of its segment.
    Element { before: i128, last: i128 },
    // The sum `before` is to be written, of the elements before `last`.
    Write { before: i128, last: i128 },
}

impl Stage {
    ghost use Rattle.flow_messages.specs.Cells.{cell_of};
    ghost use Rattle.flow_base.specs.Machines.{state_after_read};
    ghost use Rattle.flow_folds.specs.ScanAddMachine.{scan_add_move};

    // Where the item leads.
    #[inline(always)]
    fn next(self, dialect: Dialect, item: &Item) -> Result<Stage, FaultKind>
        ensures { result ≡ state_after_read (scan_add_move dialect self) (cell_of item.now) }
    {
        match (self, item) {
            (Stage::Start, Item::Bool(false)) => Ok(Stage::Element { before: 0, last: 0 }),
            (Stage::Flag { before, last }, Item::Bool(false)) => {
                Ok(Stage::Element { before, last })
            }
            (Stage::Start | Stage::Flag { .. }, Item::Bool(true)) => Ok(Stage::Start),
            (Stage::Element { before, last }, &Item::Int(element)) => {
                let before = sum(dialect, before, last)?;
                Ok(Stage::Write {
                    before,
                    last: element,
                })
            }
            _ => Err(FaultKind::Shape),
        }
    }
}

impl ScanAdd {
    /// A worker in this dialect, before its first instance.
    pub fn new(dialect: Dialect) -> ScanAdd
        ensures { result ≡ record { dialect = dialect; stage = Stage.Start } }
    {
        ScanAdd {
            dialect,
            stage: Stage::Start,
        }
    }

    // The sum and the last element that an element comes after, where a flag comes next.
    #[inline(always)]
    fn held(&self) -> Option<(i128, i128)>
        ensures { IfSome result (λ held. HoldsLast self.now held) }
    {
        match self.stage {
            Stage::Start => Some((0, 0)),
            Stage::Flag { before, last } => Some((before, last)),
            _ => None,
        }
    }

    // Goes along the flags from the stage that holds this: writes the sum before each element that one stands for, and
    // begins anew after one that ends a segment. It stops where no element is shown, or a sum leaves the range. How many
    // flags, how many elements, and where they lead.
    #[inline(always)]
    fn sums_along(
        &self,
        held: (i128, i128),
        flags: &[bool],
        elements: &[i64],
        sums: &mut [i64],
    ) -> (usize, usize, Stage)
        requires flag { HoldsLast self.now held }
        requires block { length flags.now ≤ length sums.old }
        ensures flags { result.0 ≤ length flags.now }
        ensures fewer { result.1 ≤ result.0 }
        ensures elements { result.1 ≤ length elements.now }
        ensures along { SumsFirstAlong self.now flags.now elements.now sums.new result }
    {
        let (mut before, mut last) = held;
        let mut stage = self.stage;
        let mut read = 0;
        for place in 0..flags.len() {
            if flags[place] {
                (before, last) = (0, 0);
                stage = Stage::Start;
                continue;
            }
            if read == elements.len() {
                return (place, read, stage);
            }
            let Ok(next) = sum(self.dialect, before, last) else {
                return (place, read, stage);
            };
            // A sum of more bits is left to single steps.
            let Ok(narrow) = i64::try_from(next) else {
                return (place, read, stage);
            };
            sums[read] = narrow;
            (before, last) = (next, elements[read] as i128);
            stage = Stage::Flag { before, last };
            read += 1;
        }
        (flags.len(), read, stage)
    }
}

impl Worker for ScanAdd {
    ghost use Rattle.snesl_data.specs.declared.dialect.Dialect.{Dialect};
    ghost use Rattle.flow_folds.specs.declared.scan_add.Stage.{Stage};
    ghost use Rattle.flow_folds.specs.ScanAddMachine.{scan_add_machine, scan_add_view};
    ghost use Rattle.flow_folds.specs.laws.ScanAdd.{scan_add_laws};

    ghost Parameters = { Dialect };

    ghost State = { Stage };

    ghost state = { scan_add_view };

    ghost machine = { scan_add_machine };

    ghost passes = { λ _. false };

    ghost laws = { scan_add_laws };

    #[inline(always)]
    fn ask(&self) -> Ask {
        match self.stage {
            Stage::Start => Ask::Begin,
            Stage::Flag { .. } => Ask::Take(0),
            Stage::Element { .. } => Ask::Take(1),
            Stage::Write { .. } => Ask::Give(0),
        }
    }

    fn inputs(&self) -> usize {
        2
    }

    fn outputs(&self) -> usize {
        1
    }

    fn kind_in(&self, port: usize) -> Kind {
        if port == 0 { Kind::Bool } else { Kind::Int }
    }

    fn kind_out(&self, _port: usize) -> Kind {
        Kind::Int
    }

    fn passes(&self) -> bool {
        false
    }

    // It is not asked.
    fn follows(&self, _item: Flat) -> Option<Flat> {
        None
    }

    #[inline(always)]
    fn take(&mut self, item: Item) -> Result<(), Stop> {
        self.stage = self.stage.next(self.dialect, &item)?;
        Ok(())
    }

    #[inline(always)]
    fn give(&mut self) -> Result<Item, AllocError> {
        match self.stage {
            Stage::Write { before, last } => {
                self.stage = Stage::Flag { before, last };
                Ok(Item::Int(before))
            }
            _ => unreachable!(),
        }
    }

    fn is_between(&self) -> bool {
        matches!(self.stage, Stage::Start | Stage::Flag { .. })
    }

    // A flag is one step, its element one more, and the sum before it one more.
    #[inline(always)]
    fn along(
        &mut self,
        first: Items<'_>,
        second: Items<'_>,
        block: &mut Written,
        space: usize,
        most: usize,
    ) -> Moved {
        let Some(held) = self.held() else {
            return Moved::nothing();
        };
        let flags = first.flags();
        let elements = second.ints();
        let ahead = flags.len().min(space).min(most / 3);
        let (passed, read, stage) = self.sums_along(
            held,
            &flags[..ahead],
            elements,
            &mut block.ints,
        );
        self.stage = stage;
        Moved {
            first: passed,
            second: read,
            units: 0,
            flags: 0,
            ints: read,
            steps: passed + 2 * read,
        }
    }
}
