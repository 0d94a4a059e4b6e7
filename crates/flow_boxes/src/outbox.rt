// The writer's box of an edge.
ghost use Rattle.std.specs.Prelude.{◌≡◌, ◌+◌, ◌<◌, ◌≤◌, ◌↔◌, true, false, [], ◌++◌, length, IsOk, OnOk, OnErr, IfOk, IfErr, IsErrAnd};
ghost use Rattle.std.specs.Io.Iter.{u64_saturate};
ghost use Rattle.flow_messages.specs.Signals.{signals, ended, orderly, has_end};
ghost use Rattle.flow_messages.specs.Stores.{content_of, EndsLast, StoreTakes, StoreTakesItems};
ghost use Rattle.flow_messages.specs.Lines.{gone};
ghost use Rattle.flow_messages.specs.Contents.{item_messages};
ghost use Rattle.flow_messages.specs.declared.ends.Why.TheVariants.{Full, Closed};

use crate::inbox::Inbox;
use flow_messages::history::History;
use flow_messages::{Items, Kind, Msg, Refused, Store, Why, with_items};
use std::alloc::{AllocError, Global};
use std::mem::{replace, swap};

/// The messages that the writer put since the last carrying, the oldest first, and how many more it
/// may put before the next one.
#[derive(Drop)]
pub struct Outbox {
    pub store: Store,
    pub room: usize,
    closed: bool,
    /// How many messages were put. The count stays at `u64::MAX`.
    pub put: u64,
    pub sent: History<Msg>,
    /// What the store holds.
    pub waiting: History<Msg>,
    ghost waits: { waiting.items ≡ content_of store },
    ghost last: { gone sent.items (content_of store) ++ content_of store ≡ sent.items },
    ghost closes: { closed ≡ ended (signals sent.items) },
    ghost counts: { put ≡ u64_saturate (length sent.items) },
    ghost orderly: { orderly (signals sent.items) ≡ true },
    ghost reserved: { length (content_of store) + room ≤ store.capacity },
}

impl Outbox {
    ghost use Rattle.flow_boxes.specs.Received.{received_of};
    ghost use Rattle.flow_boxes.specs.Putting.{PutsBlock, PutsMessage, PutsNothing};
    ghost use Rattle.flow_boxes.specs.Moving.{HoldAtMost, GetsAll};

    /// An empty box for items of this kind, with room for the capacity.
    #[tactic(auto, using(flow_messages::proofs::Signals::signal_steps))]
    pub fn new(alloc: Global, kind: Kind, capacity: usize) -> Result<Outbox, AllocError>
        ensures sent { IfOk result (λ o. o.sent.items ≡ []) }
        ensures held { IfOk result (λ o. content_of o.store ≡ []) }
        ensures room { IfOk result (λ o. o.room ≡ capacity) }
        ensures kind { IfOk result (λ o. o.store.kind ≡ kind) }
        ensures reserved { IfOk result (λ o. o.store.capacity ≡ capacity) }
    {
        let store = Store::new(alloc, kind, capacity)?;
        Ok(Outbox {
            store,
            room: capacity,
            closed: false,
            put: 0,
            sent: History::new(),
            waiting: History::new(),
        })
    }

    /// Puts a message after all others, or gives it back.
    #[inline(always)]
    #[tactic(auto, using(flow_messages::proofs::Signals::signal_steps))]
    pub fn put(&mut self, message: Msg) -> Result<(), Refused>
        requires { StoreTakes self.old.store message }
        ensures kind { self.new.store.kind ≡ self.old.store.kind }
        ensures reserved { self.new.store.capacity ≡ self.old.store.capacity }
        ensures ok { OnOk result (PutsMessage message self.old self.new) }
        ensures returned { IfErr result (λ e. e.message ≡ message) }
        ensures refused { OnErr result (PutsNothing self.old self.new) }
        ensures closed { IsErrAnd result (λ e. e.why ≡ Closed) ↔
            (has_end self.old.sent.items ≡ true) }
        ensures full { IsErrAnd result (λ e. e.why ≡ Full) → self.new.room ≡ 0 }
        ensures succeeds { has_end self.old.sent.items ≡ false → 0 < self.old.room →
            IsOk result }
    {
        if self.closed {
            return Err(Refused {
                message,
                why: Why::Closed,
            });
        }
        if self.room == 0 {
            return Err(Refused {
                message,
                why: Why::Full,
            });
        }
        let closes = message.is_end();
        let sent = self.sent.with(&message);
        let waiting = self.waiting.with(&message);
        self.store.push(message);
        self.room -= 1;
        self.closed = closes;
        self.put = self.put.saturating_add(1);
        self.sent = sent;
        self.waiting = waiting;
        Ok(())
    }

    // Whether `End` was put.
    #[inline(always)]
    fn is_closed(&self) -> bool
        ensures { result ≡ ended (signals self.now.sent.items) }
    {
        self.closed
    }

    /// Puts these items after all others, unless `End` was put before.
    #[inline(always)]
    pub fn put_all(&mut self, items: Items<'_>)
        requires room { length (item_messages items) ≤ self.old.room }
        requires kind { StoreTakesItems self.old.store items }
        ensures put { PutsBlock (item_messages items.entry) self.old self.new }
    {
        if self.is_closed() {
            return;
        }
        self.sent = with_items(replace(&mut self.sent, History::new()), items);
        self.waiting = with_items(replace(&mut self.waiting, History::new()), items);
        self.store.put_all(items);
        self.room -= items.len();
        self.put = self.put.saturating_add(items.len() as u64);
    }

    /// Moves all messages to the reader's box, which is of the same kind, in order. What that box does not hold is then room.
    pub fn carry_into(&mut self, inbox: &mut Inbox, capacity: usize)
        requires outbox { self.old.store.capacity ≡ capacity }
        requires inbox { inbox.old.store.capacity ≡ capacity }
        requires bound { HoldAtMost capacity self.old inbox.old }
        requires kind { self.old.store.kind ≡ inbox.old.store.kind }
        requires ends { EndsLast inbox.old.store self.old.store }
        ensures outbox_kind { self.new.store.kind ≡ self.old.store.kind }
        ensures inbox_kind { inbox.new.store.kind ≡ inbox.old.store.kind }
        ensures outbox_reserved { self.new.store.capacity ≡ capacity }
        ensures inbox_reserved { inbox.new.store.capacity ≡ capacity }
        ensures sent { self.new.sent.items ≡ self.old.sent.items }
        ensures received { received_of inbox.new ≡ received_of inbox.old }
        ensures moved { GetsAll self.old inbox.old inbox.new }
        ensures emptied { content_of self.new.store ≡ [] }
        ensures room { self.new.room + length (content_of inbox.new.store) ≡ capacity }
    {
        // Where the reader has taken all, the stores change places, and no message is moved by itself.
        if inbox.store.len() == 0 {
            swap(&mut self.store, &mut inbox.store);
        } else {
            inbox.store.append(&mut self.store);
        }
        self.room = capacity - inbox.store.len();
        inbox.arrived = inbox.arrived.followed_by(&self.waiting);
        self.waiting = History::new();
    }
}
