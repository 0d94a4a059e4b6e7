// A table of fresh edges, a table as ends, as both ends of each edge, and as ends that count.
ghost use Rattle.std.specs.Prelude.{◌≡◌, ◌<◌, ◌≤◌, ◌↔◌, length, IsTrue, IfOk};
ghost use Rattle.flow_messages.specs.Limits.{greatest_capacity};
ghost use Rattle.flow_messages.specs.Tables.{ends_of, capacity_of, IsFresh, HasKinds};

use crate::counted::CountedEnds;
use crate::ends::{Ends, Refused};
use crate::items::Items;
use crate::line::Line;
use crate::message::{Kind, Msg};
use crate::table::{MAX_CAPACITY, Table};
use crate::whole::WholeEnds;
use std::alloc::{AllocError, Global};

impl Table {
    /// An edge for each of these kinds, which takes items of that kind and holds at most `capacity` messages. The edges have
    /// the numbers of the kinds. Nothing was sent or received. All the room that messages take is reserved here, and the call
    /// is refused where there is no memory for it.
    pub fn new(alloc: Global, kinds: &[Kind], capacity: usize) -> Result<Table, AllocError>
        requires some { 0 < capacity }
        requires limit { capacity ≤ greatest_capacity }
        ensures fresh { IfOk result (λ table. IsFresh (length kinds.now) (ends_of table)) }
        ensures kinds { IfOk result (λ table. HasKinds kinds.now (ends_of table)) }
        ensures capacity { IfOk result (λ table. capacity_of table ≡ capacity) }
    {
        let mut lines = Vec::with_capacity(alloc, kinds.len())?;
        for kind in kinds {
            lines.push(Line::new(alloc, *kind, capacity)?)?;
        }
        Ok(Table { lines, capacity })
    }

    /// Whether an edge of a table may hold so many messages at most: 1 to [`MAX_CAPACITY`].
    pub fn is_capacity(capacity: usize) -> bool
        ensures { IsTrue result ↔ ((0 < capacity) × (capacity ≤ greatest_capacity)) }
    {
        capacity >= 1 && capacity <= MAX_CAPACITY
    }
}

impl Ends for Table {
    ghost use Rattle.std.specs.Prelude.{⊤};
    ghost use Rattle.flow_messages.specs.TableLaws.{same_capacity_refl, same_capacity_trans};

    ghost view = { ends_of };

    ghost same = { λ a b. capacity_of b ≡ capacity_of a };

    // A table keeps nothing back.
    ghost all_out = { λ _. ⊤ };

    fn has_writer(&self, edge: usize) -> bool {
        edge < self.lines.len()
    }

    fn has_reader(&self, edge: usize) -> bool {
        edge < self.lines.len()
    }

    fn takes(&self, edge: usize, kind: Kind) -> bool {
        self.lines[edge].store.kind == kind
    }

    #[inline(always)]
    fn room(&mut self, edge: usize) -> bool {
        self.lines[edge].room()
    }

    #[inline(always)]
    fn ready(&mut self, edge: usize) -> bool {
        self.lines[edge].ready()
    }

    #[inline(always)]
    fn scalar_is_next(&mut self, edge: usize) -> bool {
        self.lines[edge].store.scalar_first()
    }

    #[inline(always)]
    fn space(&mut self, edge: usize) -> usize {
        self.lines[edge].space()
    }

    #[inline(always)]
    fn front(&self, edge: usize) -> Option<&Msg> {
        self.lines[edge].store.front()
    }

    #[inline(always)]
    fn put(&mut self, edge: usize, message: Msg) -> Result<(), Refused> {
        self.lines[edge].put(message)
    }

    #[inline(always)]
    fn take(&mut self, edge: usize) -> Option<Msg> {
        self.lines[edge].take()
    }

    #[inline(always)]
    fn shown(&self, edge: usize) -> Items<'_> {
        self.lines[edge].store.shown()
    }

    #[inline(always)]
    fn skip(&mut self, edge: usize, count: usize) {
        self.lines[edge].skip(count);
    }

    #[inline(always)]
    fn put_all(&mut self, edge: usize, items: Items<'_>) {
        self.lines[edge].put_all(items);
    }

    fn put_out(&mut self) {}

    ghost same_refl = { same_capacity_refl };

    ghost same_trans = { same_capacity_trans };
}

impl WholeEnds for Table {
    ghost use Rattle.flow_messages.specs.TableLaws.{whole_table};

    ghost capacity = { capacity_of };

    fn capacity(&self) -> usize {
        self.capacity
    }

    fn held(&self, edge: usize) -> usize {
        self.lines[edge].store.len()
    }

    ghost whole = { whole_table };

    ghost same_capacity = { λ a b same. same };
}

impl CountedEnds for Table {
    fn sent_count(&self, edge: usize) -> u64 {
        self.lines[edge].sent_count()
    }

    fn received_count(&self, edge: usize) -> u64 {
        self.lines[edge].taken
    }
}
