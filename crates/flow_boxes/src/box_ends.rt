// Opening boxes, and boxes as ends that count.
ghost use Rattle.std.specs.Prelude.{◌≡◌, ◌<◌, false, IfOk, OnOk, OnErr};
ghost use Rattle.flow_boxes.specs.Contents.{contents, view_of};
ghost use Rattle.flow_boxes.specs.Rounds.{KeepsRound, HasNone, OpensWriter, OpensReader};

use crate::boxes::Boxes;
use crate::inbox::Inbox;
use crate::outbox::Outbox;
use flow_messages::{CountedEnds, Ends, Items, Kind, Msg, Refused};
use std::alloc::{AllocError, Global};

impl Boxes {
    /// No box, at any of the edges, which are of these kinds in the order of their numbers. Each may hold at most
    /// `capacity` messages. Its only error is that memory was refused.
    pub fn new(alloc: Global, kinds: &[Kind], capacity: usize) -> Result<Boxes, AllocError>
        ensures { IfOk result (λ boxes. HasNone kinds.now capacity (contents boxes)) }
    {
        let kinds = kinds.to_vec(alloc)?;
        let mut outboxes = Vec::with_capacity(alloc, kinds.len())?;
        let mut inboxes = Vec::with_capacity(alloc, kinds.len())?;
        for _ in 0..kinds.len() {
            outboxes.push(None)?;
            inboxes.push(None)?;
        }
        Ok(Boxes {
            kinds,
            outboxes,
            inboxes,
            capacity,
        })
    }

    /// Opens a fresh box for the writer of this edge. Its only error is that memory was refused, and
    /// then nothing was changed.
    pub fn open_writer(&mut self, alloc: Global, edge: usize) -> Result<(), AllocError>
        requires below { edge < (contents self.old).count }
        requires none { (view_of self.old).writes edge ≡ false }
        ensures ok { OnOk result (OpensWriter edge (contents self.old) (contents self.new)) }
        ensures err { OnErr result (self.new ≡ self.old) }
    {
        let outbox = Outbox::new(alloc, self.kinds[edge], self.capacity)?;
        self.outboxes[edge] = Some(outbox);
        Ok(())
    }

    /// Opens a fresh box for the reader of this edge. Its only error is that memory was refused, and
    /// then nothing was changed.
    pub fn open_reader(&mut self, alloc: Global, edge: usize) -> Result<(), AllocError>
        requires below { edge < (contents self.old).count }
        requires none { (view_of self.old).reads edge ≡ false }
        ensures ok { OnOk result (OpensReader edge (contents self.old) (contents self.new)) }
        ensures err { OnErr result (self.new ≡ self.old) }
    {
        let inbox = Inbox::new(alloc, self.kinds[edge], self.capacity)?;
        self.inboxes[edge] = Some(inbox);
        Ok(())
    }
}

impl Ends for Boxes {
    ghost use Rattle.std.specs.Prelude.{⊤};
    ghost use Rattle.flow_boxes.specs.RoundLaws.{keeps_refl, keeps_trans};

    ghost view = { view_of };

    ghost same = { λ a b. KeepsRound (contents a) (contents b) };

    // A box keeps nothing back.
    ghost all_out = { λ _. ⊤ };

    fn has_writer(&self, edge: usize) -> bool {
        matches!(self.outboxes.get(edge), Some(Some(_)))
    }

    fn has_reader(&self, edge: usize) -> bool {
        matches!(self.inboxes.get(edge), Some(Some(_)))
    }

    fn takes(&self, edge: usize, kind: Kind) -> bool {
        self.kinds[edge] == kind
    }

    #[inline(always)]
    fn room(&mut self, edge: usize) -> bool {
        match &self.outboxes[edge] {
            Some(outbox) => outbox.room > 0,
            None => unreachable!(),
        }
    }

    #[inline(always)]
    fn ready(&mut self, edge: usize) -> bool {
        match &self.inboxes[edge] {
            Some(inbox) => inbox.store.len() > 0,
            None => unreachable!(),
        }
    }

    #[inline(always)]
    fn scalar_is_next(&mut self, edge: usize) -> bool {
        match &self.inboxes[edge] {
            Some(inbox) => inbox.store.scalar_first(),
            None => unreachable!(),
        }
    }

    #[inline(always)]
    fn space(&mut self, edge: usize) -> usize {
        match &self.outboxes[edge] {
            Some(outbox) => outbox.room,
            None => unreachable!(),
        }
    }

    #[inline(always)]
    fn front(&self, edge: usize) -> Option<&Msg> {
        match &self.inboxes[edge] {
            Some(inbox) => inbox.store.front(),
            None => unreachable!(),
        }
    }

    #[inline(always)]
    fn put(&mut self, edge: usize, message: Msg) -> Result<(), Refused> {
        match &mut self.outboxes[edge] {
            Some(outbox) => outbox.put(message),
            None => unreachable!(),
        }
    }

    #[inline(always)]
    fn take(&mut self, edge: usize) -> Option<Msg> {
        match &mut self.inboxes[edge] {
            Some(inbox) => inbox.take(),
            None => unreachable!(),
        }
    }

    #[inline(always)]
    fn shown(&self, edge: usize) -> Items<'_> {
        match &self.inboxes[edge] {
            Some(inbox) => inbox.store.shown(),
            None => unreachable!(),
        }
    }

    #[inline(always)]
    fn skip(&mut self, edge: usize, count: usize) {
        match &mut self.inboxes[edge] {
            Some(inbox) => inbox.skip(count),
            None => unreachable!(),
        }
    }

    #[inline(always)]
    fn put_all(&mut self, edge: usize, items: Items<'_>) {
        match &mut self.outboxes[edge] {
            Some(outbox) => outbox.put_all(items),
            None => unreachable!(),
        }
    }

    fn put_out(&mut self) {}

    ghost same_refl = { λ a. keeps_refl (contents a) };

    ghost same_trans = { λ a b c. keeps_trans (contents a) (contents b) (contents c) };
}

impl CountedEnds for Boxes {
    fn sent_count(&self, edge: usize) -> u64 {
        match &self.outboxes[edge] {
            Some(outbox) => outbox.put,
            None => unreachable!(),
        }
    }

    fn received_count(&self, edge: usize) -> u64 {
        match &self.inboxes[edge] {
            Some(inbox) => inbox.taken,
            None => unreachable!(),
        }
    }
}
