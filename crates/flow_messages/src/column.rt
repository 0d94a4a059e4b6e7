// Items of one kind.
ghost use Rattle.std.specs.Prelude.{◌≡◌, ◌+◌, ◌≤◌, Some, [], ◌∷◌, ◌++◌, length, drop, IfOk, IfSome, IfNone};
ghost use Rattle.std.specs.VecDeque.{deque_len, deque_capacity};
ghost use mathlib.Core.List.{IsPrefix};
ghost use Rattle.flow_messages.specs.Signals.{signal_of};
ghost use Rattle.flow_messages.specs.Cells.{is_of};
ghost use Rattle.flow_messages.specs.Contents.{item_messages};
ghost use Rattle.flow_messages.specs.Kinds.{TakesItems};

use crate::int_run::{IntRun, drop_front};
use crate::items::Items;
use crate::message::{Item, Kind, Msg};
use crate::run::Run;
use std::alloc::{AllocError, Global};
use std::collections::VecDeque;

/// Items of one kind, the oldest first: units as a count, truth values and integers side by side, vectors as the messages that
/// carry them.
#[derive(Drop)]
pub enum Column {
    Units(usize),
    Flags(Run<bool>),
    Ints(IntRun),
    Vectors(VecDeque<Msg>),
}

impl Column {
    ghost use Rattle.flow_messages.specs.Columns.{column_kind, column_messages, ColumnBecomes, ColumnFoundNone, ColumnTook, GetsItems, HasMemoryFor, IsItemOf, reserved};

    /// No item, and memory for so many. Its only error is that memory was refused.
    pub fn new(alloc: Global, kind: Kind, most: usize) -> Result<Column, AllocError>
        ensures empty { IfOk result (λ column. column_messages column ≡ []) }
        ensures kind { IfOk result (λ column. column_kind column ≡ kind) }
        ensures reserved { IfOk result (λ column. most ≤ reserved column) }
    {
        Ok(match kind {
            Kind::Unit => Column::Units(0),
            Kind::Bool => Column::Flags(Run::new(alloc, most)?),
            Kind::Int => Column::Ints(IntRun::new(alloc, most)?),
            Kind::Vec => Column::Vectors(VecDeque::with_capacity(alloc, most)?),
        })
    }

    /// The items that come first and lie side by side.
    #[inline(always)]
    pub fn shown(&self) -> Items<'_>
        ensures first { IsPrefix (item_messages result) (column_messages self.now) }
        ensures kind { TakesItems (Some (column_kind self.now)) result }
    {
        match self {
            Column::Units(count) => Items::Units(*count),
            Column::Flags(flags) => Items::Flags(flags.held()),
            Column::Ints(ints) => Items::Ints(ints.held()),
            Column::Vectors(_) => Items::Nothing,
        }
    }

    /// The oldest message, where it carries a vector.
    #[inline(always)]
    pub fn front(&self) -> Option<&Msg>
        ensures { IfSome result (λ m. IsPrefix (m.now ∷ []) (column_messages self.now)) }
    {
        match self {
            Column::Vectors(queue) => queue.front(),
            _ => None,
        }
    }

    /// Puts an item of its kind after all others.
    #[inline(always)]
    pub fn push(&mut self, message: Msg)
        requires room { HasMemoryFor 1 self.old }
        requires kind { IsItemOf (column_kind self.old) message }
        ensures { ColumnBecomes (column_messages self.old ++ message ∷ []) self.old self.new }
    {
        match self {
            Column::Units(count) => *count += 1,
            Column::Flags(flags) => match &message {
                Msg::Item(Item::Bool(truth)) => flags.put(*truth),
                _ => unreachable!(),
            },
            Column::Ints(ints) => match &message {
                Msg::Item(Item::Int(number)) => ints.put(*number),
                _ => unreachable!(),
            },
            Column::Vectors(queue) => queue.push_back_reserved(message),
        }
    }

    /// Puts these items, which are of its kind, after all others.
    #[inline(always)]
    pub fn put_all(&mut self, items: Items<'_>)
        requires room { HasMemoryFor (length (item_messages items)) self.old }
        requires kind { TakesItems (Some (column_kind self.old)) items }
        ensures { ColumnBecomes (column_messages self.old ++ item_messages items.entry)
            self.old self.new }
    {
        match items {
            Items::Nothing => {}
            Items::Units(more) => match self {
                Column::Units(count) => *count += more,
                _ => unreachable!(),
            },
            Items::Flags(more) => match self {
                Column::Flags(flags) => flags.put_all(more),
                _ => unreachable!(),
            },
            Items::Ints(more) => match self {
                Column::Ints(ints) => ints.put_all(more),
                _ => unreachable!(),
            },
        }
    }

    /// Takes the oldest item.
    #[inline(always)]
    pub fn take(&mut self) -> Option<Msg>
        ensures some { IfSome result (λ m. ColumnTook m self.old self.new) }
        ensures none { IfNone result (ColumnFoundNone self.old self.new) }
    {
        match self {
            Column::Units(count) => {
                if *count == 0 {
                    return None;
                }
                *count -= 1;
                Some(Msg::Item(Item::Unit))
            }
            Column::Flags(flags) => Some(Msg::Item(Item::Bool(flags.take()?))),
            Column::Ints(ints) => Some(Msg::Item(Item::Int(ints.take()?))),
            Column::Vectors(queue) => queue.pop_front(),
        }
    }

    /// Takes this many of the oldest items.
    #[inline(always)]
    pub fn skip(&mut self, count: usize)
        requires { count ≤ length (column_messages self.old) }
        ensures { ColumnBecomes (drop count (column_messages self.old)) self.old self.new }
    {
        match self {
            Column::Units(units) => *units -= count,
            Column::Flags(flags) => flags.skip(count),
            Column::Ints(ints) => ints.skip(count),
            Column::Vectors(queue) => drop_front(queue, count),
        }
    }

    /// Moves all items of another column of the same kind after its own, in order.
    pub fn append(&mut self, other: &mut Column)
        requires room { HasMemoryFor (length (column_messages other.old)) self.old }
        requires kind { column_kind other.old ≡ column_kind self.old }
        ensures moved { GetsItems self.old other.old self.new }
        ensures emptied { ColumnBecomes [] other.old other.new }
    {
        match self {
            Column::Units(count) => match other {
                Column::Units(more) => {
                    *count += *more;
                    *more = 0;
                }
                _ => unreachable!(),
            },
            Column::Flags(flags) => match other {
                Column::Flags(more) => {
                    flags.put_all(more.held());
                    let count = more.len();
                    more.skip(count);
                }
                _ => unreachable!(),
            },
            Column::Ints(ints) => match other {
                Column::Ints(more) => ints.append(more),
                _ => unreachable!(),
            },
            Column::Vectors(queue) => match other {
                Column::Vectors(more) => move_all(queue, more),
                _ => unreachable!(),
            },
        }
    }
}

// Moves all messages of one queue after those of another.
fn move_all(queue: &mut VecDeque<Msg>, more: &mut VecDeque<Msg>)
    requires room { deque_len queue.old + deque_len more.old ≤ deque_capacity queue.old }
    ensures moved { queue.new.items ≡ queue.old.items ++ more.old.items }
    ensures emptied { more.new.items ≡ [] }
    ensures capacity { deque_capacity queue.new ≡ deque_capacity queue.old }
    ensures other_capacity { deque_capacity more.new ≡ deque_capacity more.old }
{
    while let Some(message) = more.pop_front() {
        queue.push_back_reserved(message);
    }
}
