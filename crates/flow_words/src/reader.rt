// The end that takes messages.
ghost use Rattle.std.specs.Prelude.{◌≡◌, ◌<◌, false, List, [], length};
ghost use Rattle.std.specs.Io.Iter.{u64_saturate};
ghost use Rattle.flow_messages.specs.declared.message.Msg.{Msg};
ghost use Rattle.flow_messages.specs.Stores.{content_of};
ghost use Rattle.flow_words.specs.Ring.{HasRoomFor};
ghost use Rattle.flow_words.specs.Edge.{received, certain_held, HoldsItsEnd, HoldsKind, TakesOver};

use crate::ring::WordReader;
use flow_boxes::Inbox;

impl WordReader {
    /// Takes over messages that came and were not taken into an inbox, after all that it holds, as many as a block has places
    /// for and it has room for. It is of the edge's kind, and holds `End` only where that was taken from the edge.
    ///
    /// If the inbox then holds none, none is certain to be there. The answer is false only where none is certain to be left.
    #[inline(always)]
    pub fn take_into(&mut self, inbox: &mut Inbox) -> bool
        requires room { 0 < inbox.old.store.capacity }
        requires kind { HoldsKind self.old inbox.old }
        requires ended { HoldsItsEnd self.old inbox.old }
        ensures came { (ms : List Msg) × TakesOver ms self.old self.new inbox.old inbox.new }
        ensures found { content_of inbox.new.store ≡ [] → certain_held self.new ≡ [] }
        ensures all { result ≡ false → certain_held self.new ≡ [] }
    {
        let held = inbox.store.len();
        let (group, all) = self.ring.take_over(&mut self.block, self.group, inbox);
        self.group = group;
        self.taken = self.taken.saturating_add((inbox.store.len() - held) as u64);
        all
    }

    /// Takes over all messages that are certain into an inbox, after all that it holds. They may be no more than it has room for.
    /// It is of the edge's kind, and holds `End` only where that was taken from the edge.
    pub fn take_certain(&mut self, inbox: &mut Inbox)
        requires room { HasRoomFor inbox.old (length (certain_held self.old)) }
        requires kind { HoldsKind self.old inbox.old }
        requires ended { HoldsItsEnd self.old inbox.old }
        ensures came { TakesOver (certain_held self.old) self.old self.new inbox.old inbox.new }
        ensures none { certain_held self.new ≡ [] }
    {
        let held = inbox.store.len();
        self.group = self.ring.drain(self.group, inbox);
        self.taken = self.taken.saturating_add((inbox.store.len() - held) as u64);
    }

    /// How many messages were taken. The count stays at `u64::MAX`.
    #[inline(always)]
    pub fn received_count(&self) -> u64
        ensures { result ≡ u64_saturate (length (received self.now)) }
    {
        self.taken
    }
}
