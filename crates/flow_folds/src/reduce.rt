// Reductions of segments.

ghost use Rattle.std.specs.Prelude.{◌≡◌, ◌≤◌, ◌<◌, ℕ, true, false, [], length, take, get_or, int_lt, if◌then◌else◌, Some, IfSome, Ok};
ghost use Rattle.flow_messages.specs.declared.message.Kind.TheVariants.{Int as IntKind};
ghost use Rattle.flow_folds.specs.ReduceMachine.{reduced_kind};
ghost use Rattle.flow_folds.specs.ReduceBlocks.{stage_of_sum, AwaitsFlag};
ghost use Rattle.flow_folds.specs.ReduceSteps.{AddsUpTo, ElementsReduce, HoldsSum, IsGreatest, ReducesFirst, ReducesOn, ReducesTo, SumsFirst};
ghost use Rattle.snesl_data.specs.declared.dialect.Dialect.{Dialect};
ghost use Rattle.snesl_data.specs.declared.operators.operator.Reduction.TheVariants.{Sum as SumOf, Max as MaxOf};
ghost use Rattle.snesl_data.specs.declared.operators.scalar.Scalar.TheVariants.{Int as IntScalar};

use crate::scalars::{item_of, kind_of, scalar_of, wide};
use flow_base::{Ask, Moved, Stop, Worker, Written};
use flow_messages::{Flat, Item, Items, Kind};
use snesl_data::operators::{Reduction, Scalar, sum};
use snesl_data::{Dialect, FaultKind};
use std::alloc::AllocError;

/// Writes for each segment what its elements reduce to. Each segment is an instance.
///
/// Reads port 0, the flags, of kind Bool, and port 1, the elements, of the kind of the reduction's type: for each flag
/// that stands for an element it reads that element. After the flag that ends the segment it writes the value to port
/// 0, of the same kind as the elements. An item of another kind is a fault of kind `Shape`. A sum that does not lie in
/// the range of the worker's dialect is a fault of kind `Overflow`, at the element that takes it there. The greatest
/// of a segment without elements is a fault of kind `EmptyMax`, at the segment's end.
///
/// Row: `ReduceRow` (specs/Rows.antt).
#[derive(Clone, Copy, Debug, PartialEq, Eq)]
pub struct Reduce {
    dialect: Dialect,
    reduction: Reduction,
    stage: Stage,
}

// How far it is in a segment.
#[derive(Clone, Copy, Debug, PartialEq, Eq)]
enum Stage {
    // A segment begins.
    Start,
    // A flag comes, and the elements so far reduce to this.
    Flag(Option<Scalar>),
    // An element comes, and those before it reduce to this.
    Element(Option<Scalar>),
    // The segment has ended, and this value is to be written.
    Value(Scalar),
}

impl Stage {
    ghost use Rattle.flow_messages.specs.Cells.{cell_of};
    ghost use Rattle.flow_base.specs.Machines.{state_after_item, state_after_read};
    ghost use Rattle.flow_folds.specs.ReduceMachine.{at_flag, reduce_move};

    // Where the item leads that comes as a flag, after elements that reduce to what is so far.
    #[inline(always)]
    fn at_flag(so_far: Option<Scalar>, item: &Item) -> Result<Stage, FaultKind>
        ensures { result ≡ state_after_item (at_flag so_far) (cell_of item.now) }
    {
        match item {
            Item::Bool(false) => Ok(Stage::Element(so_far)),
            Item::Bool(true) => Ok(Stage::Value(Reduction::value(so_far)?)),
            _ => Err(FaultKind::Shape),
        }
    }

    // Where the item leads.
    #[inline(always)]
    #[tactic(auto, using(crate::specs::laws::Reduce::element_is))]
    fn next(self, dialect: Dialect, reduction: Reduction, item: &Item) -> Result<Stage, FaultKind>
        ensures { result ≡ state_after_read (reduce_move dialect reduction self)
            (cell_of item.now) }
    {
        match self {
            Stage::Start => Stage::at_flag(reduction.nothing(), item),
            Stage::Flag(so_far) => Stage::at_flag(so_far, item),
            Stage::Element(so_far) => {
                let element = scalar_of(item).ok_or(FaultKind::Shape)?;
                Ok(Stage::Flag(reduction.more(dialect, so_far, element)?))
            }
            Stage::Value(_) => Err(FaultKind::Shape),
        }
    }

    // What the elements so far reduce to, where a flag comes.
    #[inline(always)]
    fn so_far(self, reduction: Reduction) -> Option<Option<Scalar>>
        ensures { IfSome result (λ so_far. AwaitsFlag reduction self so_far) }
    {
        match self {
            Stage::Start => Some(reduction.nothing()),
            Stage::Flag(so_far) => Some(so_far),
            _ => None,
        }
    }

    // The integer that the elements so far reduce to, where a flag comes and integers are reduced.
    #[inline(always)]
    fn int(self, reduction: Reduction) -> Option<i128>
        ensures so_far { IfSome result (λ n. AwaitsFlag reduction self (Some (IntScalar n))) }
        ensures kind { IfSome result (λ n. reduced_kind reduction ≡ IntKind) }
    {
        if matches!(reduction, Reduction::All | Reduction::Any) {
            return None;
        }
        match self.so_far(reduction) {
            Some(Some(Scalar::Int(number))) => Some(number),
            _ => None,
        }
    }
}

// How many flags at the front stand for elements, up to so many.
#[inline(always)]
fn elements_ahead(flags: &[bool], most: usize) -> usize
    ensures within { result ≤ most }
    ensures shown { result ≤ length flags.now }
    ensures ahead { (k : ℕ) → k < result → get_or flags.now k true ≡ false }
{
    let least = most.min(flags.len());
    for place in 0..least {
        if flags[place] {
            return place;
        }
    }
    least
}

// Adds the elements to the sum, until one takes it out of the range. How many, and the sum of all of these.
#[inline(always)]
fn sum_of(dialect: Dialect, total: i128, elements: &[i64]) -> (usize, i128)
    ensures within { result.0 ≤ length elements.now }
    ensures reduced { AddsUpTo dialect total (take result.0 elements.now) result.1 }
{
    let mut reached = total;
    for place in 0..elements.len() {
        match sum(dialect, reached, elements[place] as i128) {
            Ok(more) => reached = more,
            Err(_) => return (place, reached),
        }
    }
    (elements.len(), reached)
}

// The greater of two integers.
#[inline(always)]
fn greater(m: i128, n: i128) -> i128
    ensures { result ≡ (if int_lt m n then n else m) }
{
    if m < n { n } else { m }
}

// The greatest of the elements and of what came before them.
#[inline(always)]
fn greatest_of(before: i128, elements: &[i64]) -> i128
    ensures { (dialect : Dialect) → IsGreatest dialect before elements.now result }
{
    let mut greatest = before;
    for place in 0..elements.len() {
        greatest = greater(greatest, elements[place] as i128);
    }
    greatest
}

// Whether the first flag ends a segment.
#[inline(always)]
fn begins_with_end(flags: &[bool]) -> bool
    ensures { result ≡ true → get_or flags.now 0 false ≡ true }
{
    flags.len() > 0 && flags[0]
}

// Goes along flags after a sum, while all sums fit 64 bits: adds the element of each that stands for one, and writes the
// sum of each segment that ends, at most so many. It stops where no element is shown. How many flags, elements and sums,
// and the sum of what came since.
#[inline(always)]
fn small_sums_along(
    total: i64,
    flags: &[bool],
    elements: &[i64],
    most: usize,
    sums: &mut [i64],
) -> (usize, usize, usize, i64)
    requires block { most ≤ length sums.old }
    ensures flags { result.0 ≤ length flags.now }
    ensures elements { result.1 ≤ length elements.now }
    ensures most { result.2 ≤ most }
    ensures along { SumsFirst total flags.now elements.now sums.new result }
{
    let mut reached = total;
    let mut read = 0;
    let mut ended = 0;
    for place in 0..flags.len() {
        if flags[place] {
            if ended == most {
                return (place, read, ended, reached);
            }
            sums[ended] = reached;
            ended += 1;
            reached = 0;
            continue;
        }
        if read == elements.len() {
            return (place, read, ended, reached);
        }
        let Some(more) = reached.checked_add(elements[read]) else {
            return (place, read, ended, reached);
        };
        reached = more;
        read += 1;
    }
    (flags.len(), read, ended, reached)
}

// How far a reduction went: how many flags and elements it read, how many values it wrote, and where these led.
#[derive(Clone, Copy)]
struct Reached {
    flags: usize,
    elements: usize,
    values: usize,
    stage: Stage,
}

impl Reduce {
    /// A worker over this reduction in this dialect, before its first instance.
    pub fn new(dialect: Dialect, reduction: Reduction) -> Reduce
        ensures { result ≡
            record { dialect = dialect; reduction = reduction; stage = Stage.Start } }
    {
        Reduce {
            dialect,
            reduction,
            stage: Stage::Start,
        }
    }
}

impl Reduce {
    // Adds the elements to what is so far, until one faults. How many, and what all of these reduce to.
    #[inline(always)]
    fn more_of(&self, so_far: Option<Scalar>, elements: &[i64]) -> (usize, Option<Scalar>)
        ensures within { result.0 ≤ length elements.now }
        ensures reduced { ReducesTo self.now so_far (take result.0 elements.now) result.1 }
    {
        match (self.reduction, so_far) {
            (Reduction::Sum, Some(Scalar::Int(total))) => {
                let (count, total) = sum_of(self.dialect, total, elements);
                (count, Some(Scalar::Int(total)))
            }
            (Reduction::Max, Some(Scalar::Int(greatest))) => {
                let greatest = greatest_of(greatest, elements);
                (elements.len(), Some(Scalar::Int(greatest)))
            }
            (Reduction::Max, None) if elements.len() > 0 => {
                let greatest = greatest_of(wide(elements[0]), elements);
                (elements.len(), Some(Scalar::Int(greatest)))
            }
            // Truth values are left to single steps.
            _ => (0, so_far),
        }
    }

    // Reads the elements at the front, each after its flag, until one faults. How many, and where they lead.
    #[inline(always)]
    fn elements_along(&self, stage: Stage, flags: &[bool], elements: &[i64]) -> (usize, Stage)
        ensures flags { result.0 ≤ length flags.now }
        ensures elements { result.0 ≤ length elements.now }
        ensures along { ElementsReduce self.now stage flags.now elements.now result }
    {
        let Some(so_far) = stage.so_far(self.reduction) else {
            return (0, stage);
        };
        let ahead = elements_ahead(flags, elements.len());
        let (count, more) = self.more_of(so_far, &elements[..ahead]);
        if count == 0 {
            return (0, stage);
        }
        (count, Stage::Flag(more))
    }

    // The value of the segment that the first flag ends, where it is an integer of 64 bits and there is room for it.
    #[inline(always)]
    fn value_at_end(&self, stage: Stage, flags: &[bool], room: usize) -> Option<i64>
        ensures room { IfSome result (λ n. 0 < room) }
        ensures flag { IfSome result (λ n. get_or flags.now 0 false ≡ true) }
        ensures kind { IfSome result (λ n. reduced_kind self.now.reduction ≡ IntKind) }
        ensures value { IfSome result (λ n.
            AwaitsFlag self.now.reduction stage (Some (IntScalar n))) }
    {
        if room == 0 || !begins_with_end(flags) {
            return None;
        }
        let Some(value) = stage.int(self.reduction) else {
            return None;
        };
        match i64::try_from(value) {
            Ok(narrow) => Some(narrow),
            Err(_) => None,
        }
    }

    // The sum so far, where a flag comes and the sum fits 64 bits.
    #[inline(always)]
    fn small_sum(&self) -> Option<i64>
        ensures sum { IfSome result (λ n. self.now.reduction ≡ SumOf) }
        ensures so_far { IfSome result (λ n. HoldsSum self.now n) }
    {
        if !matches!(self.reduction, Reduction::Sum) {
            return None;
        }
        let Some(total) = self.stage.int(self.reduction) else {
            return None;
        };
        match i64::try_from(total) {
            Ok(small) => Some(small),
            Err(_) => None,
        }
    }

    // Goes along flags: reads the element of each that stands for one, and writes the value of each segment that ends, at most
    // so many values. It stops where no element is shown, an element faults, or a value is left to single steps. It stands
    // apart, so that the loop of a small sum keeps the registers.
    #[inline(never)]
    fn reductions_along(
        &self,
        flags: &[bool],
        elements: &[i64],
        most: usize,
        values: &mut [i64],
    ) -> Reached
        requires block { most ≤ length values.old }
        ensures flags { result.flags ≤ length flags.now }
        ensures elements { result.elements ≤ length elements.now }
        ensures most { result.values ≤ most }
        ensures kind { 0 < result.values → reduced_kind self.now.reduction ≡ IntKind }
        ensures along { ReducesFirst self.now flags.now elements.now values.new result }
    {
        let mut passed = 0;
        let mut read = 0;
        let mut ended = 0;
        let mut stage = self.stage;
        'segments: loop {
            let (count, reached) = self.elements_along(stage, &flags[passed..], &elements[read..]);
            passed += count;
            read += count;
            stage = reached;
            let Some(value) = self.value_at_end(stage, &flags[passed..], most - ended) else {
                return Reached {
                    flags: passed,
                    elements: read,
                    values: ended,
                    stage,
                };
            };
            values[ended] = value;
            ended += 1;
            passed += 1;
            stage = Stage::Start;
        }
    }

    // Goes to where so many flags lead, where the elements since the last end add up to this. A stage is large, so only what
    // changes of it is written.
    #[inline(always)]
    fn pass_sum(&mut self, flags: &[bool], passed: usize, total: i64)
        requires { passed ≤ length flags.now }
        ensures dialect { self.new.dialect ≡ self.old.dialect }
        ensures reduction { self.new.reduction ≡ self.old.reduction }
        ensures stage { self.new.stage ≡
            stage_of_sum self.old.stage total (take passed flags.now) }
    {
        if passed == 0 {
            return;
        }
        if flags[passed - 1] {
            self.stage = Stage::Start;
            return;
        }
        self.stage = Stage::Flag(Some(Scalar::Int(total as i128)));
    }

    // Goes along flags likewise, to the stage where they lead, but a sum that fits 64 bits goes another way: it carries one
    // word of all that a stage may be, and looks once at each flag. How many flags, elements and values.
    #[inline(always)]
    fn segments_along(
        &mut self,
        flags: &[bool],
        elements: &[i64],
        most: usize,
        values: &mut [i64],
    ) -> (usize, usize, usize)
        requires block { most ≤ length values.old }
        ensures flags { result.0 ≤ length flags.now }
        ensures elements { result.1 ≤ length elements.now }
        ensures most { result.2 ≤ most }
        ensures kind { 0 < result.2 → reduced_kind self.old.reduction ≡ IntKind }
        ensures dialect { self.new.dialect ≡ self.old.dialect }
        ensures reduction { self.new.reduction ≡ self.old.reduction }
        ensures along { ReducesOn self.old flags.now elements.now values.new result self.new }
    {
        let Some(total) = self.small_sum() else {
            let reached = self.reductions_along(flags, elements, most, values);
            self.stage = reached.stage;
            return (reached.flags, reached.elements, reached.values);
        };
        let (passed, read, ended, more) = small_sums_along(total, flags, elements, most, values);
        self.pass_sum(flags, passed, more);
        (passed, read, ended)
    }
}

impl Worker for Reduce {
    ghost use Rattle.snesl_data.specs.declared.dialect.Dialect.{Dialect};
    ghost use Rattle.snesl_data.specs.declared.operators.operator.Reduction.{Reduction};
    ghost use Rattle.flow_folds.specs.ReduceMachine.{reduce_machine, reduce_view};
    ghost use Rattle.flow_folds.specs.laws.Reduce.{reduce_laws};
    ghost use Rattle.flow_folds.specs.declared.reduce.Stage.{Stage};

    ghost Parameters = { Dialect × Reduction };

    ghost State = { Stage };

    ghost state = { reduce_view };

    ghost machine = { reduce_machine };

    ghost passes = { λ _. false };

    ghost laws = { reduce_laws };

    #[inline(always)]
    fn ask(&self) -> Ask {
        match self.stage {
            Stage::Start => Ask::Begin,
            Stage::Flag(_) => Ask::Take(0),
            Stage::Element(_) => Ask::Take(1),
            Stage::Value(_) => Ask::Give(0),
        }
    }

    fn inputs(&self) -> usize {
        2
    }

    fn outputs(&self) -> usize {
        1
    }

    fn kind_in(&self, port: usize) -> Kind {
        if port == 0 {
            Kind::Bool
        } else {
            kind_of(self.reduction.scalar_type())
        }
    }

    fn kind_out(&self, _port: usize) -> Kind {
        kind_of(self.reduction.scalar_type())
    }

    fn passes(&self) -> bool {
        false
    }

    // It is not asked.
    fn follows(&self, _item: Flat) -> Option<Flat> {
        None
    }

    #[inline(always)]
    fn take(&mut self, item: Item) -> Result<(), Stop> {
        self.stage = self.stage.next(self.dialect, self.reduction, &item)?;
        Ok(())
    }

    #[inline(always)]
    fn give(&mut self) -> Result<Item, AllocError> {
        match self.stage {
            Stage::Value(value) => {
                self.stage = Stage::Start;
                Ok(item_of(value))
            }
            _ => unreachable!(),
        }
    }

    fn is_between(&self) -> bool {
        matches!(self.stage, Stage::Start | Stage::Flag(_))
    }

    // A flag is one step, and its element or the value of its segment one more.
    #[inline(always)]
    fn along(
        &mut self,
        first: Items<'_>,
        second: Items<'_>,
        block: &mut Written,
        space: usize,
        most: usize,
    ) -> Moved {
        let flags = first.flags();
        let elements = second.ints();
        let ahead = flags.len().min(most / 2);
        let (passed, read, ended) = self.segments_along(
            &flags[..ahead],
            elements,
            space,
            &mut block.ints,
        );
        Moved {
            first: passed,
            second: read,
            units: 0,
            flags: 0,
            ints: ended,
            steps: 2 * passed,
        }
    }
}
