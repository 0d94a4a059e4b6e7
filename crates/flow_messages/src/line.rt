// One edge in one thread.
ghost use Rattle.std.specs.Prelude.{◌≡◌, ◌+◌, ◌-◌, ◌<◌, ◌≤◌, ◌↔◌, true, false, [], ◌∷◌, ◌++◌, length, drop, IsTrue, IsOk, OnOk, OnErr, IfOk, IfErr, IsErrAnd, IfSome, IfNone};
ghost use Rattle.std.specs.Io.Iter.{u64_saturate};
ghost use mathlib.Core.List.{IsPrefix};
ghost use Rattle.flow_messages.specs.Signals.{signals, ended, orderly, has_end};
ghost use Rattle.flow_messages.specs.Contents.{item_messages};
ghost use Rattle.flow_messages.specs.Stores.{content_of, StoreHasRoom, StoreHasRoomFor, StoreIsFull, StoreTakes, StoreTakesItems};
ghost use Rattle.flow_messages.specs.Lines.{gone};
ghost use Rattle.flow_messages.specs.declared.ends.Why.TheVariants.{Full, Closed};

use crate::ends::{Refused, Why};
use crate::histories::with_items;
use crate::history::History;
use crate::items::Items;
use crate::message::{Kind, Msg};
use crate::store::Store;
use std::alloc::{AllocError, Global};
use std::mem::replace;

/// The messages that one edge holds, the oldest first, and room for as many as its capacity.
#[derive(Drop)]
pub struct Line {
    pub store: Store,
    closed: bool,
    /// How many messages were taken. The count stays at `u64::MAX`.
    pub taken: u64,
    pub sent: History<Msg>,
    ghost fifo: { gone sent.items (content_of store) ++ content_of store ≡ sent.items },
    ghost closes: { closed ≡ ended (signals sent.items) },
    ghost counts: { taken ≡ u64_saturate (length (gone sent.items (content_of store))) },
    ghost orderly: { orderly (signals sent.items) ≡ true },
}

impl Line {
    ghost use Rattle.flow_messages.specs.LineBlocks.{SendsBlock, LeavesOnly};

    /// An empty edge for items of this kind, with its room reserved. Its only error is that memory was refused.
    #[tactic(auto, using(crate::proofs::Signals::signal_steps))]
    pub fn new(alloc: Global, kind: Kind, capacity: usize) -> Result<Line, AllocError>
        ensures sent { IfOk result (λ line. line.sent.items ≡ []) }
        ensures held { IfOk result (λ line. content_of line.store ≡ []) }
        ensures kind { IfOk result (λ line. line.store.kind ≡ kind) }
        ensures capacity { IfOk result (λ line. line.store.capacity ≡ capacity) }
    {
        let store = Store::new(alloc, kind, capacity)?;
        Ok(Line {
            store,
            closed: false,
            taken: 0,
            sent: History::new(),
        })
    }

    /// Whether it holds fewer messages than it may.
    #[inline(always)]
    pub fn room(&self) -> bool
        ensures { IsTrue result ↔
            (0 < self.now.store.capacity - length (content_of self.now.store)) }
    {
        self.store.len() < self.store.capacity
    }

    /// How many messages more it may hold.
    #[inline(always)]
    pub fn space(&self) -> usize
        ensures { result ≡ self.now.store.capacity - length (content_of self.now.store) }
    {
        self.store.capacity - self.store.len()
    }

    /// Whether it holds a message.
    #[inline(always)]
    pub fn ready(&self) -> bool
        ensures { IsTrue result ↔ (0 < length (content_of self.now.store)) }
    {
        self.store.len() > 0
    }

    /// Puts a message after all others, or gives it back.
    #[inline(always)]
    #[tactic(auto, using(crate::proofs::Signals::signal_steps))]
    pub fn put(&mut self, message: Msg) -> Result<(), Refused>
        requires { StoreTakes self.old.store message }
        ensures kind { self.new.store.kind ≡ self.old.store.kind }
        ensures capacity { self.new.store.capacity ≡ self.old.store.capacity }
        ensures sent { OnOk result (self.new.sent.items ≡ self.old.sent.items ++ message ∷ []) }
        ensures held { OnOk result (content_of self.new.store ≡
            content_of self.old.store ++ message ∷ []) }
        ensures returned { IfErr result (λ e. e.message ≡ message) }
        ensures unsent { OnErr result (self.new.sent.items ≡ self.old.sent.items) }
        ensures kept { OnErr result (content_of self.new.store ≡ content_of self.old.store) }
        ensures closed { IsErrAnd result (λ e. e.why ≡ Closed) ↔
            (has_end self.old.sent.items ≡ true) }
        ensures full { IsErrAnd result (λ e. e.why ≡ Full) → StoreIsFull self.new.store }
        ensures succeeds { has_end self.old.sent.items ≡ false → StoreHasRoom self.old.store →
            IsOk result }
    {
        if self.closed {
            return Err(Refused {
                message,
                why: Why::Closed,
            });
        }
        if self.store.len() >= self.store.capacity {
            return Err(Refused {
                message,
                why: Why::Full,
            });
        }
        let closes = message.is_end();
        let sent = self.sent.with(&message);
        self.store.push(message);
        self.closed = closes;
        self.sent = sent;
        Ok(())
    }

    /// Takes the oldest message.
    #[inline(always)]
    pub fn take(&mut self) -> Option<Msg>
        ensures kind { self.new.store.kind ≡ self.old.store.kind }
        ensures capacity { self.new.store.capacity ≡ self.old.store.capacity }
        ensures sent { self.new.sent.items ≡ self.old.sent.items }
        ensures some { IfSome result (λ m. content_of self.old.store ≡
            m ∷ content_of self.new.store) }
        ensures none { IfNone result ((content_of self.new.store ≡ []) ×
            (content_of self.old.store ≡ [])) }
    {
        if self.store.len() == 0 {
            return None;
        }
        // What the store gives goes on as it is: to look into it would copy it.
        self.taken = self.taken.saturating_add(1);
        self.store.pop()
    }

    /// Takes so many of the oldest messages, and drops them.
    #[inline(always)]
    pub fn skip(&mut self, count: usize)
        requires { count ≤ length (content_of self.old.store) }
        ensures { LeavesOnly (drop count (content_of self.old.store)) self.old self.new }
    {
        self.store.skip(count);
        self.taken = self.taken.saturating_add(count as u64);
    }

    // Whether `End` was put on it.
    #[inline(always)]
    fn is_closed(&self) -> bool
        ensures { result ≡ ended (signals self.now.sent.items) }
    {
        self.closed
    }

    /// Puts these items after all others, in order, unless `End` was put on it.
    #[inline(always)]
    pub fn put_all(&mut self, items: Items<'_>)
        requires room { StoreHasRoomFor self.old.store items }
        requires kind { StoreTakesItems self.old.store items }
        ensures { SendsBlock (item_messages items.entry) self.old self.new }
    {
        if self.is_closed() {
            return;
        }
        self.sent = with_items(replace(&mut self.sent, History::new()), items);
        self.store.put_all(items);
    }

    /// How many messages were put on it. The count stays at `u64::MAX`.
    pub fn sent_count(&self) -> u64
        ensures { result ≡ u64_saturate (length self.now.sent.items) }
    {
        // What was put was taken or is held, so a put has nothing to count.
        self.taken.saturating_add(self.store.len() as u64)
    }
}
