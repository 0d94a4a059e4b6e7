// The elements of vectors, as sequences.

ghost use Rattle.std.specs.Prelude.{◌≡◌, ◌+◌, ◌*◌, ◌^◌, ◌<◌, ◌≤◌, ◌++◌, ℕ, List, [], map, drop, length, replicate, take, IfOk, OnErr, IsOk, IfSome, IsSome, true, false};
ghost use Rattle.snesl_data.specs.Types.{Ty as ElementType, ty_of, int, seq};
ghost use Rattle.snesl_data.specs.Values.{an_int};
ghost use Rattle.flow_messages.specs.Cells.{cell_of};
ghost use Rattle.flow_base.specs.Impls.{GivesAs};
ghost use Rattle.flow_values.specs.Shapes.{kinds_of};
ghost use Rattle.flow_values.specs.Dues.{DueCell, due_cell, segment_dues};
ghost use Rattle.flow_values.specs.SeqMachine.{rounds_moved, seq_machine, seq_takes_memory, left_dues, writes_such};

use crate::dues::{Due, add_value};
use crate::shapes::{add_kinds, add_types, kind_at};
use crate::vectors::vector_in;
use flow_base::{Ask, Moved, Stop, Worker, Written};
use flow_messages::{Flat, Item, Items, Kind};
use snesl_data::{Elements, Ty};
use std::alloc::{AllocError, Global};
use std::collections::VecDeque;
use std::sync::Arc;

/// Writes the elements of each vector as a sequence. Each vector is an instance.
///
/// Reads port 0, vectors of elements of one type. Writes for each element the flag `false` to port 0, and then what the
/// element puts on the edges of its type to the ports from 1 on; at last the flag `true`. Fault: `Shape` where an item
/// is not a vector of such elements.
///
/// It holds the vector, and lays out one element at a time, when it writes the flag before it. Where memory for that is
/// refused, nothing was written.
///
/// Row: `SeqRow` (specs/Rows.antt).
#[derive(Drop)]
pub struct Seq {
    alloc: Global,
    element: Ty,
    // Of the outputs.
    kinds: Vec<Kind>,
    // Of the vectors on them, as far as they are kept.
    types: Vec<Option<Arc<Ty>>>,
    // What is due of the element that was begun last.
    dues: VecDeque<Due>,
    // The vector that is written, and how many of its elements were begun.
    vector: Option<Elements>,
    begun: usize,
    ghost kinds_are: { kinds.items ≡ kinds_of (seq (ty_of element)) },
    ghost writes: { writes_such (ty_of element) vector ≡ true },
}

// Puts these integers at the front of the block, and the flag of an element for each.
#[inline(always)]
fn put_elements(ints: &[i64], block: &mut Written)
    requires { length ints.now ≤ 256 }
    ensures flags { take (length ints.now) block.new.flags ≡ replicate (length ints.now) false }
    ensures ints { take (length ints.now) block.new.ints ≡ ints.now }
{
    let count = ints.len();
    block.flags[..count].fill(false);
    block.ints[..count].copy_from_slice(ints);
}

// So many rounds, each a flag and an integer, and so many flags more.
#[inline(always)]
fn wrote(rounds: usize, ends: usize) -> Moved
    requires { 2 * rounds + ends < 2 ^ 64 }
    ensures { result ≡ rounds_moved rounds ends }
{
    Moved {
        first: 0,
        second: 0,
        units: 0,
        flags: rounds + ends,
        ints: rounds,
        steps: 2 * rounds + ends,
    }
}

impl Seq {
    ghost use Rattle.flow_values.specs.SeqSteps.{IntsAreLeft};

    /// A worker for vectors of elements of this type, before its first vector. Its only error is that memory was
    /// refused.
    pub fn new(alloc: Global, element: Ty) -> Result<Seq, AllocError>
        ensures { IfOk result (λ worker. ⟦<Seq as Worker>⟧.state worker ≡ (ty_of element, [])) }
    {
        let mut kinds = Vec::new(alloc);
        kinds.push(Kind::Bool)?;
        add_kinds(&mut kinds, &element)?;
        let mut types = Vec::new(alloc);
        types.push(None)?;
        add_types(&mut types, alloc, &element)?;
        Ok(Seq {
            alloc,
            element,
            kinds,
            types,
            dues: VecDeque::new(alloc),
            vector: None,
            begun: 0,
        })
    }

    // The integers of the vector that are to be written next, where they lie side by side and nothing is due before them.
    #[inline(always)]
    fn ints_left(&self) -> Option<&[i64]>
        ensures none { IfSome result (λ _. self.now.dues.items ≡ []) }
        ensures element { IfSome result (λ _. ty_of self.now.element ≡ int) }
        ensures fits { IfSome result (λ ints. self.now.begun + length ints.now < 2 ^ 64) }
        ensures left { IfSome result (λ ints. (n : ℕ) → IntsAreLeft self.now ints.now n) }
    {
        let Some(elements) = &self.vector else {
            return None;
        };
        let Elements::Ints(all) = elements else {
            return None;
        };
        if !self.dues.is_empty() || !matches!(self.element, Ty::Int) || self.begun > all.len() {
            return None;
        }
        Some(&all[self.begun..])
    }

    // The flag that stands behind the elements begun so far: `false` before the next one, which is laid out, and `true`
    // behind the last one.
    fn flag(&mut self) -> Result<Item, AllocError>
        requires none { self.old.dues.items ≡ [] }
        requires some { IsSome self.old.vector }
        ensures ok { IfOk result (λ item. GivesAs ⟦<Seq as Worker>⟧ self.old item self.new) }
        ensures err { OnErr result (⟦<Seq as Worker>⟧.state self.new ≡
            ⟦<Seq as Worker>⟧.state self.old) }
        ensures sure { seq_takes_memory (⟦<Seq as Worker>⟧.state self.old).1 ≡ false →
            IsOk result }
    {
        let Some(elements) = &self.vector else {
            unreachable!()
        };
        if self.begun >= elements.len() {
            self.vector = None;
            return Ok(Item::Bool(true));
        }
        let Some(datum) = elements.at(self.alloc, self.begun)? else {
            unreachable!()
        };
        if add_value(&mut self.dues, &self.types, &self.element, 1, &datum).is_err() {
            self.dues.clear();
            return Err(AllocError);
        }
        self.begun += 1;
        Ok(Item::Bool(false))
    }
}

impl Worker for Seq {
    ghost use Rattle.flow_values.specs.laws.Seq.{seq_laws};

    ghost Parameters = { ElementType };

    ghost State = { List DueCell };

    ghost state = { λ n. (
      ty_of n.element,
      map due_cell n.dues.items ++ left_dues (ty_of n.element) n.vector n.begun,
    ) };

    ghost machine = { seq_machine };

    ghost passes = { λ _. false };

    ghost laws = { seq_laws };

    #[inline(always)]
    fn ask(&self) -> Ask {
        match (self.dues.front(), &self.vector) {
            (Some(due), _) => Ask::Give(due.output(self.kinds.len())),
            (None, Some(_)) => Ask::Give(0),
            (None, None) => Ask::Begin,
        }
    }

    fn inputs(&self) -> usize {
        1
    }

    fn outputs(&self) -> usize {
        self.kinds.len()
    }

    fn kind_in(&self, _port: usize) -> Kind {
        Kind::Vec
    }

    fn kind_out(&self, port: usize) -> Kind {
        kind_at(&self.kinds, port)
    }

    fn passes(&self) -> bool {
        false
    }

    // It is not asked.
    fn follows(&self, _item: Flat) -> Option<Flat> {
        None
    }

    #[inline(always)]
    fn take(&mut self, item: Item) -> Result<(), Stop> {
        let all = vector_in(&self.element, item)?;
        self.vector = Some(all);
        self.begun = 0;
        Ok(())
    }

    #[inline(always)]
    fn give(&mut self) -> Result<Item, AllocError> {
        if self.dues.is_empty() {
            return self.flag();
        }
        match self.dues.pop_front() {
            Some(due) => Ok(due.item),
            None => unreachable!(),
        }
    }

    // A vector of integers is taken by a single step, and then written along slices. Where its elements do not lie so, or are
    // of another type, all steps are single ones, from anywhere.
    fn is_between(&self) -> bool {
        match &self.vector {
            Some(Elements::Ints(_)) => self.dues.is_empty(),
            Some(_) => true,
            None => !matches!(self.element, Ty::Int),
        }
    }

    // Each round is the flag of an element, and then the integer; at last comes the flag that ends the sequence. Truth values
    // are left to single steps, since both outputs would get the same.
    #[inline(always)]
    fn along(
        &mut self,
        first: Items<'_>,
        second: Items<'_>,
        block: &mut Written,
        space: usize,
        most: usize,
    ) -> Moved {
        let Some(ints) = self.ints_left() else {
            return Moved::nothing();
        };
        let left = ints.len();
        let rounds = left.min(space).min(most / 2);
        put_elements(&ints[..rounds], block);
        self.begun += rounds;
        if rounds < left || rounds == space || 2 * rounds == most {
            return wrote(rounds, 0);
        }
        block.flags[rounds] = true;
        self.vector = None;
        wrote(rounds, 1)
    }
}
