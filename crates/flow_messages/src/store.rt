// What an edge of one kind holds.
ghost use Rattle.std.specs.Prelude.{◌≡◌, ◌+◌, ◌<◌, ◌≤◌, false, [], ◌∷◌, ◌++◌, length, drop, IfOk, IfSome, IfNone};
ghost use mathlib.Core.List.{IsPrefix};
ghost use Rattle.flow_messages.specs.Signals.{signals, has_end};
ghost use Rattle.flow_messages.specs.Flats.{scalar_first};
ghost use Rattle.flow_messages.specs.Contents.{item_messages};
ghost use Rattle.flow_messages.specs.Columns.{column_kind, column_messages, content, reserved};

use crate::column::Column;
use crate::items::Items;
use crate::message::{Kind, Msg};
use std::alloc::{AllocError, Global};

/// The messages that an edge for items of one kind holds, the oldest first: items, and then the end of the stream, where it
/// comes.
#[derive(Drop)]
pub struct Store {
    column: Column,
    // Whether the end of the stream comes after the items.
    ends: bool,
    // The end of the stream, to be shown.
    end: Msg,
    held: usize,
    pub kind: Kind,
    pub capacity: usize,
    ghost counts: { held ≡ length (content column ends) },
    ghost bound: { held ≤ capacity },
    ghost of_kind: { column_kind column ≡ kind },
    ghost items: { has_end (column_messages column) ≡ false },
    ghost reserved: { capacity ≤ reserved column },
}

impl Store {
    ghost use Rattle.flow_messages.specs.Stores.{content_of, EndsLast, StoreBecomes, StoreHasRoomFor, StoreIsOpen, StoreTakes, StoreTakesItems};

    /// An empty store for items of this kind, with its room reserved. Its only error is that memory was refused.
    pub fn new(alloc: Global, kind: Kind, capacity: usize) -> Result<Store, AllocError>
        ensures empty { IfOk result (λ s. content_of s ≡ []) }
        ensures kind { IfOk result (λ s. s.kind ≡ kind) }
        ensures capacity { IfOk result (λ s. s.capacity ≡ capacity) }
    {
        let column = Column::new(alloc, kind, capacity)?;
        Ok(Store {
            column,
            ends: false,
            end: Msg::End,
            held: 0,
            kind,
            capacity,
        })
    }

    /// How many messages it holds.
    #[inline(always)]
    pub fn len(&self) -> usize
        ensures { result ≡ length (content_of self.now) }
    {
        self.held
    }

    /// The items that come first, where they lie side by side.
    #[inline(always)]
    pub fn shown(&self) -> Items<'_>
        ensures first { IsPrefix (item_messages result) (content_of self.now) }
        ensures kind { StoreTakesItems self.now result }
    {
        self.column.shown()
    }

    /// The oldest message, where it carries a vector or is the end of the stream.
    #[inline(always)]
    pub fn front(&self) -> Option<&Msg>
        ensures { IfSome result (λ m. IsPrefix (m.now ∷ []) (content_of self.now)) }
    {
        match &self.end {
            Msg::End if self.ends && self.held == 1 => Some(&self.end),
            _ => self.column.front(),
        }
    }

    /// Whether it holds a message, and the oldest is no vector.
    #[inline(always)]
    pub fn scalar_first(&self) -> bool
        ensures { result ≡ scalar_first (signals (content_of self.now)) }
    {
        match &self.column {
            Column::Vectors(queue) => match queue.front() {
                Some(message) => message.is_scalar(),
                None => self.ends,
            },
            _ => self.held > 0,
        }
    }

    /// Puts a message after all others.
    #[inline(always)]
    pub fn push(&mut self, message: Msg)
        requires room { length (content_of self.old) < self.old.capacity }
        requires kind { StoreTakes self.old message }
        requires open { StoreIsOpen self.old }
        ensures { StoreBecomes (content_of self.old ++ message ∷ []) self.old self.new }
    {
        self.held += 1;
        if message.is_end() {
            self.ends = true;
            return;
        }
        self.column.push(message);
    }

    /// Takes the oldest message.
    #[inline(always)]
    pub fn pop(&mut self) -> Option<Msg>
        ensures some { IfSome result (λ m. content_of self.old ≡ m ∷ content_of self.new) }
        ensures none { IfNone result ((content_of self.old ≡ []) × (content_of self.new ≡ [])) }
        ensures kind { self.new.kind ≡ self.old.kind }
        ensures capacity { self.new.capacity ≡ self.old.capacity }
    {
        // What the column gives goes on as it is: to look into it would copy it.
        if self.held > usize::from(self.ends) {
            self.held -= 1;
            return self.column.take();
        }
        if !self.ends {
            return None;
        }
        self.ends = false;
        self.held = 0;
        Some(Msg::End)
    }

    /// Takes this many of the oldest messages.
    #[inline(always)]
    pub fn skip(&mut self, count: usize)
        requires there { count ≤ length (content_of self.old) }
        ensures { StoreBecomes (drop count (content_of self.old)) self.old self.new }
    {
        let left = self.held - count;
        self.held = left;
        let all = self.ends & (left == 0);
        if all {
            // The end of the stream is the last of them.
            self.ends = false;
            self.column.skip(count - 1);
            return;
        }
        self.column.skip(count);
    }

    /// Puts these items after all others, in order.
    #[inline(always)]
    pub fn put_all(&mut self, items: Items<'_>)
        requires room { StoreHasRoomFor self.old items }
        requires kind { StoreTakesItems self.old items }
        requires open { StoreIsOpen self.old }
        ensures { StoreBecomes (content_of self.old ++ item_messages items.entry) self.old self.new }
    {
        self.column.put_all(items);
        self.held += items.len();
    }

    /// Moves all messages of another store of the same kind after its own, in order.
    pub fn append(&mut self, other: &mut Store)
        requires room { length (content_of self.old) + length (content_of other.old) ≤
            self.old.capacity }
        requires kind { other.old.kind ≡ self.old.kind }
        requires ends { EndsLast self.old other.old }
        ensures moved { content_of self.new ≡ content_of self.old ++ content_of other.old }
        ensures emptied { content_of other.new ≡ [] }
        ensures kind { self.new.kind ≡ self.old.kind }
        ensures other_kind { other.new.kind ≡ other.old.kind }
        ensures capacity { self.new.capacity ≡ self.old.capacity }
        ensures other_capacity { other.new.capacity ≡ other.old.capacity }
    {
        if other.held == 0 {
            return;
        }
        self.column.append(&mut other.column);
        self.ends = other.ends;
        self.held += other.held;
        other.ends = false;
        other.held = 0;
    }
}
