// The reader's box of an edge.
ghost use Rattle.std.specs.Prelude.{◌≡◌, ◌+◌, ◌<◌, ◌≤◌, [], ◌∷◌, ◌++◌, length, IfOk, IfSome, IfNone};
ghost use Rattle.std.specs.Io.Iter.{u64_saturate};
ghost use Rattle.flow_messages.specs.Stores.{content_of, StoreHasRoomFor, StoreIsOpen, StoreTakes, StoreTakesItems};
ghost use Rattle.flow_messages.specs.Lines.{gone};
ghost use Rattle.flow_messages.specs.Contents.{item_messages};

use flow_messages::history::History;
use flow_messages::{Items, Kind, Msg, Store, with_items};
use std::alloc::{AllocError, Global};
use std::mem::replace;

/// The messages that have arrived and were not taken, the oldest first.
#[derive(Drop)]
pub struct Inbox {
    pub store: Store,
    /// How many messages were taken. The count stays at `u64::MAX`.
    pub taken: u64,
    /// All that has arrived. What was taken is of it what the store does not hold.
    pub arrived: History<Msg>,
    ghost fifo: { gone arrived.items (content_of store) ++ content_of store ≡ arrived.items },
    ghost counts: { taken ≡ u64_saturate (length (gone arrived.items (content_of store))) },
}

impl Inbox {
    ghost use Rattle.flow_boxes.specs.Received.{received_of, Receives, HasTaken};
    ghost use Rattle.flow_boxes.specs.Coming.{HasCome};

    /// An empty box for items of this kind, with room for the capacity.
    pub fn new(alloc: Global, kind: Kind, capacity: usize) -> Result<Inbox, AllocError>
        ensures received { IfOk result (λ i. received_of i ≡ []) }
        ensures held { IfOk result (λ i. content_of i.store ≡ []) }
        ensures arrived { IfOk result (λ i. i.arrived.items ≡ []) }
        ensures kind { IfOk result (λ i. i.store.kind ≡ kind) }
        ensures reserved { IfOk result (λ i. i.store.capacity ≡ capacity) }
    {
        let store = Store::new(alloc, kind, capacity)?;
        Ok(Inbox {
            store,
            taken: 0,
            arrived: History::new(),
        })
    }

    /// Holds a message more, after all others.
    #[inline(always)]
    pub fn push(&mut self, message: Msg)
        requires room { length (content_of self.old.store) < self.old.store.capacity }
        requires kind { StoreTakes self.old.store message }
        requires open { StoreIsOpen self.old.store }
        ensures { HasCome (message ∷ []) self.old self.new }
    {
        let arrived = self.arrived.with(&message);
        self.store.push(message);
        self.arrived = arrived;
    }

    /// Holds these items more, after all others.
    #[inline(always)]
    pub fn push_all(&mut self, items: Items<'_>)
        requires room { StoreHasRoomFor self.old.store items }
        requires kind { StoreTakesItems self.old.store items }
        requires open { StoreIsOpen self.old.store }
        ensures { HasCome (item_messages items.entry) self.old self.new }
    {
        self.arrived = with_items(replace(&mut self.arrived, History::new()), items);
        self.store.put_all(items);
    }

    /// Takes the oldest message.
    #[inline(always)]
    pub fn take(&mut self) -> Option<Msg>
        ensures kind { self.new.store.kind ≡ self.old.store.kind }
        ensures reserved { self.new.store.capacity ≡ self.old.store.capacity }
        ensures arrived { self.new.arrived.items ≡ self.old.arrived.items }
        ensures received { IfSome result (λ m. Receives (m ∷ []) self.old self.new) }
        ensures some { IfSome result (λ m. content_of self.old.store ≡
            m ∷ content_of self.new.store) }
        ensures unreceived { IfNone result (received_of self.new ≡ received_of self.old) }
        ensures held_none { IfNone result (content_of self.old.store ≡ []) }
        ensures none { IfNone result (content_of self.new.store ≡ []) }
    {
        let message = self.store.pop()?;
        self.taken = self.taken.saturating_add(1);
        Some(message)
    }

    /// Takes so many of the oldest messages, and drops them.
    #[inline(always)]
    pub fn skip(&mut self, count: usize)
        requires { count ≤ length (content_of self.old.store) }
        ensures { HasTaken count self.old self.new }
    {
        self.store.skip(count);
        self.taken = self.taken.saturating_add(count as u64);
    }
}
