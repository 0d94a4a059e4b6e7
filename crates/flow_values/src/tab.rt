// The elements of sequences, as vectors.

ghost use Rattle.std.specs.Prelude.{◌≡◌, ◌<◌, ◌≤◌, ◌*◌, ◌++◌, [], length, map, replicate, take, get_or, List, IfOk, OnOk, true, false};
ghost use Rattle.snesl_data.specs.Types.{Ty as ElementType, ty_of, seq};
ghost use Rattle.snesl_data.specs.Values.{Value, Values, value_of, values_of, a_pair, an_int, a_bool};
ghost use Rattle.flow_values.specs.Shapes.{all_are, are_as_known};
ghost use Rattle.snesl_data.specs.Builders.{built_in};
ghost use Rattle.flow_messages.specs.Cells.{cell_of};
ghost use Rattle.flow_messages.specs.Blocks.{item_signals};
ghost use Rattle.flow_base.specs.Workers.{Takes};
ghost use Rattle.flow_values.specs.Shapes.{kinds_of};
ghost use Rattle.flow_values.specs.Parts.{built, PartsFit};
ghost use Rattle.flow_base.specs.Machines.{state_after_item, with_parameters};
ghost use Rattle.flow_values.specs.TabMachine.{TabState, start, tab_state, staged, flag_taking, grown, item_given, item_port, MakesDatum};
ghost use Rattle.flow_values.specs.TabBlocks.{AwaitsFlag};
ghost use Rattle.flow_values.specs.Growths.{AddsShown, ElementsGrow};
ghost use Rattle.flow_values.specs.VectorsRead.{FitType};

use crate::shapes::{add_kinds, are_elements, is_typed, kept_type, kind_at, part_fits};
use flow_base::{Ask, Moved, Stop, Worker, Written};
use flow_messages::{Flat, Item, Items, Kind};
use snesl_data::{Builder, Datum, FaultKind, Ty};
use std::alloc::{AllocError, Global};
use std::collections::VecDeque;
use std::mem;
use std::sync::Arc;

// After so many elements the flag that ends a sequence is read with them: the next visit begins by writing the vector. After
// fewer it is left to a visit by single steps, which makes many short vectors.
const LEAST_WITH_END: usize = 32;

/// Writes the elements of each sequence as a vector. Each sequence is an instance.
///
/// Reads port 0, flags: `false` for each element and then `true`. After each `false` it reads what the element puts on
/// the edges of its type, at the ports from 1 on, one item at each. After `true` it writes the vector to port 0. Fault:
/// `Shape` where the type is not concrete, and where an item is not of its port's kind or type.
///
/// It keeps the items of an element and lays out its value, which takes memory. Where it is refused, nothing was taken.
///
/// Row: `TabRow` (specs/Rows.antt).
#[derive(Drop)]
pub struct Tab {
    alloc: Global,
    element: Ty,
    // Of the inputs.
    kinds: Vec<Kind>,
    // The type of the elements once more, where it is kept for the vectors.
    of: Option<Arc<Ty>>,
    // The elements of the sequence so far, and the items of the next one.
    elements: Builder,
    items: Vec<Item>,
    // Copies of these, while their value is made. Between calls they say nothing.
    parts: VecDeque<Item>,
    stage: Stage,
    ghost kinds_are: { kinds.items ≡ kinds_of (seq (ty_of element)) },
    ghost items_fit: { PartsFit (ty_of element) (map cell_of items.items) },
    ghost elements_are: { all_are (ty_of element) (values_of (built_in elements)) ≡ true },
}

// What comes next.
#[derive(Clone, Copy, Debug, PartialEq, Eq)]
enum Stage {
    // The first flag of a sequence.
    Start,
    // A flag.
    Flag,
    // An item of an element.
    Item,
    // The vector is written.
    End,
}

impl Tab {
    ghost use Rattle.flow_values.specs.TabSteps.{TabCloses, TabTakesItem, flag_leads, tab_stage};

    /// A worker for elements of this type, before its first sequence. Its only error is that memory was refused.
    pub fn new(alloc: Global, element: Ty) -> Result<Tab, AllocError>
        ensures { IfOk result (λ worker. ⟦<Tab as Worker>⟧.state worker ≡ (ty_of element, start)) }
    {
        let mut kinds = Vec::new(alloc);
        kinds.push(Kind::Bool)?;
        add_kinds(&mut kinds, &element)?;
        let of = kept_type(alloc, &element)?;
        Ok(Tab {
            alloc,
            element,
            kinds,
            of,
            elements: Builder::Empty,
            items: Vec::new(alloc),
            parts: VecDeque::new(alloc),
            stage: Stage::Start,
        })
    }

    // The port of the next item of an element.
    fn item_port(&self) -> usize
        ensures { result ≡ item_port (ty_of self.now.element) (map cell_of self.now.items.items) }
    {
        if self.items.len() < self.kinds.len() - 1 {
            self.items.len() + 1
        } else {
            0
        }
    }

    // The type of its elements, shared, where it is kept. Its only error is that too many share it.
    fn known(&self) -> Result<Option<Arc<Ty>>, AllocError>
        ensures { IfOk result (λ t. (v : Values) → FitType self.now.element v →
            are_as_known t v ≡ true) }
    {
        match &self.of {
            Some(of) if of.is(&self.element) => Ok(Some(Arc::try_clone(of)?)),
            _ => Ok(None),
        }
    }

    // Where a flag leads.
    fn at_flag(&self, item: &Item) -> Result<Stage, FaultKind>
        ensures { (es : List Value) → staged es result ≡ flag_leads self.now.element es item.now }
    {
        let Item::Bool(end) = item else {
            return Err(FaultKind::Shape);
        };
        if !self.element.concrete() {
            return Err(FaultKind::Shape);
        }
        if *end {
            Ok(Stage::End)
        } else {
            Ok(Stage::Item)
        }
    }

    // Whether a flag comes next. Of a sequence that has not begun, no elements are kept then.
    #[inline(always)]
    fn awaits_flag(&mut self) -> bool
        ensures same { ⟦<Tab as Worker>⟧.state self.new ≡ ⟦<Tab as Worker>⟧.state self.old }
        ensures awaits { result ≡ true →
            AwaitsFlag (tab_stage self.new) (built_in self.new.elements) }
    {
        match self.stage {
            Stage::Start => {
                self.elements = Builder::Empty;
                true
            }
            Stage::Flag => true,
            Stage::Item | Stage::End => false,
        }
    }

    // Where all items of the next element are there, adds the element.
    fn close(&mut self) -> Result<(), Stop>
        requires { self.old.stage ≡ Stage.Item }
        ensures state { TabCloses self.old result self.new }
        ensures items { self.new.items.items ≡ self.old.items.items }
    {
        if self.items.len() < self.kinds.len() - 1 {
            return Ok(());
        }
        copy_items(&mut self.parts, &self.items)?;
        let datum = build(self.alloc, &self.element, &mut self.parts)?;
        if !self.parts.is_empty() {
            return Err(Stop::Faulted(FaultKind::Shape));
        }
        if self.elements.push(self.alloc, datum).is_err() {
            return Err(Stop::OutOfMemory);
        }
        self.stage = Stage::Flag;
        Ok(())
    }

    // Takes the next item of an element.
    fn take_item(&mut self, item: Item) -> Result<(), Stop>
        requires { self.old.stage ≡ Stage.Item }
        ensures { TabTakesItem self.old item result self.new }
    {
        if self.item_port() == 0 || !part_fits(&self.element, self.items.len(), &item) {
            return Err(Stop::Faulted(FaultKind::Shape));
        }
        if self.items.push(item).is_err() {
            return Err(Stop::OutOfMemory);
        }
        match self.close() {
            Ok(()) => Ok(()),
            Err(stop) => {
                self.items.pop();
                Err(stop)
            }
        }
    }
}

// How many of the first flags stand for elements, at most `most`.
#[inline(always)]
fn elements_ahead(flags: &[bool], most: usize) -> usize
    ensures within { result ≤ most }
    ensures shown { result ≤ length flags.now }
    ensures elements { take result flags.now ≡ replicate result false }
{
    let ahead = most.min(flags.len());
    for place in 0..ahead {
        if flags[place] {
            return place;
        }
    }
    ahead
}

// Whether the flag behind so many elements is shown and ends them, and should be read as well.
#[inline(always)]
fn end_behind(flags: &[bool], elements: usize, most: usize) -> bool
    ensures within { result ≡ true → 2 * elements < most }
    ensures shown { result ≡ true → elements < length flags.now }
    ensures ends { result ≡ true → get_or flags.now elements false ≡ true }
{
    elements >= LEAST_WITH_END && elements < most / 2 && elements < flags.len() && flags[elements]
}

// Adds these integers, as far as there is memory. How many.
#[inline(always)]
fn push_ints(elements: &mut Builder, alloc: Global, ints: &[i64]) -> usize
    ensures within { result ≤ length ints.now }
    ensures added { ElementsGrow elements.old (map an_int (take result ints.now))
        elements.new }
{
    for place in 0..ints.len() {
        let datum = Datum::Int(ints[place] as i128);
        if elements.push(alloc, datum).is_err() {
            return place;
        }
    }
    ints.len()
}

// Adds these truth values, as far as there is memory. How many.
#[inline(always)]
fn push_truths(elements: &mut Builder, alloc: Global, truths: &[bool]) -> usize
    ensures within { result ≤ length truths.now }
    ensures added { ElementsGrow elements.old (map a_bool (take result truths.now))
        elements.new }
{
    for place in 0..truths.len() {
        let datum = Datum::Bool(truths[place]);
        if elements.push(alloc, datum).is_err() {
            return place;
        }
    }
    truths.len()
}

// Adds the first scalars of the type that are shown, at most `most`, as far as there is memory. How many.
#[inline(always)]
fn push_shown(
    elements: &mut Builder,
    alloc: Global,
    of: &Ty,
    shown: Items<'_>,
    most: usize,
) -> usize
    ensures within { result ≤ most }
    ensures shown { result ≤ length (item_signals shown.entry) }
    ensures added { AddsShown of.now result shown.entry elements.old elements.new }
{
    match of {
        Ty::Int => {
            let ints = shown.ints();
            push_ints(elements, alloc, &ints[..most.min(ints.len())])
        }
        Ty::Bool => {
            let truths = shown.flags();
            push_truths(elements, alloc, &truths[..most.min(truths.len())])
        }
        Ty::Pair(_, _) | Ty::Vec(_) | Ty::Seq(_) => 0,
    }
}

// Makes the first items carry the same as the others.
fn copy_items(copies: &mut VecDeque<Item>, items: &[Item]) -> Result<(), AllocError>
    ensures { OnOk result (map cell_of copies.new.items ≡ map cell_of items.now) }
{
    copies.clear();
    for item in items {
        copies.push_back(item.copy()?)?;
    }
    Ok(())
}

fn paired(alloc: Global, a: Datum, b: Datum) -> Result<Datum, AllocError>
    ensures { IfOk result (λ pair. value_of pair ≡ a_pair (value_of a) (value_of b)) }
{
    Ok(Datum::Pair(Box::new(alloc, a)?, Box::new(alloc, b)?))
}

// The value of the type whose items come first, which are taken away. `Shape` where they are not those of such a value.
fn build(alloc: Global, ty: &Ty, items: &mut VecDeque<Item>) -> Result<Datum, Stop>
    ensures { MakesDatum (built (ty_of ty.now) (map cell_of items.old.items)) result items.new.items }
{
    match ty {
        Ty::Int => match items.pop_front() {
            Some(Item::Int(number)) => Ok(Datum::Int(number)),
            _ => Err(Stop::Faulted(FaultKind::Shape)),
        },
        Ty::Bool => match items.pop_front() {
            Some(Item::Bool(truth)) => Ok(Datum::Bool(truth)),
            _ => Err(Stop::Faulted(FaultKind::Shape)),
        },
        Ty::Vec(element) => match items.pop_front() {
            Some(Item::Vec(all)) => {
                if are_elements(element, &all) {
                    Ok(Datum::Vec(all))
                } else {
                    Err(Stop::Faulted(FaultKind::Shape))
                }
            }
            Some(Item::Typed(typed)) => {
                if is_typed(element, &typed) {
                    Ok(Datum::Vec(typed.elements))
                } else {
                    Err(Stop::Faulted(FaultKind::Shape))
                }
            }
            _ => Err(Stop::Faulted(FaultKind::Shape)),
        },
        Ty::Pair(first, second) => {
            let a = build(alloc, first, items)?;
            let b = build(alloc, second, items)?;
            Ok(paired(alloc, a, b)?)
        }
        Ty::Seq(_) => Err(Stop::Faulted(FaultKind::Shape)),
    }
}

impl Worker for Tab {
    ghost use Rattle.flow_values.specs.TabMachine.{tab_machine};
    ghost use Rattle.flow_values.specs.laws.Tab.{tab_laws};

    ghost Parameters = { ElementType };

    ghost State = { TabState };

    ghost state = { λ n. (
      ty_of n.element,
      tab_state n.stage (built_in n.elements) (map cell_of n.items.items),
    ) };

    ghost machine = { tab_machine };

    ghost passes = { λ _. false };

    ghost laws = { tab_laws };

    #[inline(always)]
    fn ask(&self) -> Ask {
        match self.stage {
            Stage::Start => Ask::Begin,
            Stage::Flag => Ask::Take(0),
            Stage::Item => Ask::Take(self.item_port()),
            Stage::End => Ask::Give(0),
        }
    }

    fn inputs(&self) -> usize {
        self.kinds.len()
    }

    fn outputs(&self) -> usize {
        1
    }

    fn kind_in(&self, port: usize) -> Kind {
        kind_at(&self.kinds, port)
    }

    fn kind_out(&self, _port: usize) -> Kind {
        Kind::Vec
    }

    fn passes(&self) -> bool {
        false
    }

    // It is not asked.
    fn follows(&self, _item: Flat) -> Option<Flat> {
        None
    }

    #[inline(always)]
    fn take(&mut self, item: Item) -> Result<(), Stop> {
        match self.stage {
            Stage::Start => {
                let stage = self.at_flag(&item)?;
                self.elements = Builder::Empty;
                self.items.clear();
                self.stage = stage;
                Ok(())
            }
            Stage::Flag => {
                let stage = self.at_flag(&item)?;
                self.items.clear();
                self.stage = stage;
                Ok(())
            }
            Stage::Item => self.take_item(item),
            Stage::End => unreachable!(),
        }
    }

    #[inline(always)]
    fn give(&mut self) -> Result<Item, AllocError> {
        match self.stage {
            Stage::End => {
                let of = self.known()?;
                let elements = mem::replace(&mut self.elements, Builder::Empty);
                match elements.finish(self.alloc) {
                    Ok(all) => {
                        self.stage = Stage::Start;
                        match of {
                            Some(of) => Ok(Item::of_known(all, of)),
                            None => Ok(Item::of_elements(all)),
                        }
                    }
                    Err(same) => {
                        self.elements = same;
                        Err(AllocError)
                    }
                }
            }
            _ => unreachable!(),
        }
    }

    // Scalars are read along slices from where a flag comes next.
    fn is_between(&self) -> bool {
        !matches!(self.element, Ty::Int | Ty::Bool)
            || matches!(self.stage, Stage::Start | Stage::Flag)
    }

    // The flag of each scalar is one step, and the scalar one more.
    #[inline(always)]
    fn along(
        &mut self,
        first: Items<'_>,
        second: Items<'_>,
        block: &mut Written,
        space: usize,
        most: usize,
    ) -> Moved {
        if !self.awaits_flag() {
            return Moved::nothing();
        }
        let flags = first.flags();
        let ahead = elements_ahead(flags, most / 2);
        let added = push_shown(&mut self.elements, self.alloc, &self.element, second, ahead);
        if added == 0 {
            return Moved::nothing();
        }
        let ended = end_behind(flags, added, most);
        self.stage = if ended { Stage::End } else { Stage::Flag };
        let end = ended as usize;
        Moved {
            first: added + end,
            second: added,
            units: 0,
            flags: 0,
            ints: 0,
            steps: 2 * added + end,
        }
    }
}
