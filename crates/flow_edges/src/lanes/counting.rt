// What is called at the end that puts scalars.
ghost use Rattle.std.specs.Prelude.{◌≡◌, ◌+◌, ◌<◌, ◌≤◌, ◌↔◌, [], Some, length, IsTrue, IsOk, OnOk, IfErr, IsErrAnd};
ghost use Rattle.std.specs.Io.Iter.{u64_saturate};
ghost use Rattle.flow_messages.specs.Signals.{signal_of};
ghost use Rattle.flow_messages.specs.Kinds.{FitsEdge, TakesItems};
ghost use Rattle.flow_messages.specs.declared.ends.Why.TheVariants.{Full, Closed};
ghost use Rattle.flow_messages.specs.Contents.{item_messages};
ghost use Rattle.flow_rings.specs.Edge.{received, SameReader};
ghost use Rattle.flow_words.specs.Edge as words;
ghost use Rattle.flow_words.specs.Edge.{sent, kind_of};
ghost use Rattle.flow_edges.specs.declared.lanes.ends.LaneWriter.TheVariants.{Scalars as ScalarsTo};
ghost use Rattle.flow_edges.specs.lanes.Lane.{IsClosed, IsNotClosed, PutsOne, SameWriter, WriterLooked};
ghost use Rattle.flow_edges.specs.lanes.Counted.{put_by, sure_room, LooksForRoom, PutsMany};
ghost use Rattle.flow_edges.specs.lanes.Credits.{credit, number_in};
ghost use Rattle.flow_edges.specs.lanes.Many.{many_messages};

use crate::lanes::counted::CountedWriter;
use flow_messages::{Item, Items, Msg, Refused, Why};
use flow_rings::EdgeReader;

// So many numbers of the reader wait for the writer at most, and are read in one look.
pub(crate) const NUMBERS: usize = 8;

// The number that a message says, or less.
#[inline(always)]
fn number_of(message: &Msg) -> usize
    ensures { result ≤ number_in message.now }
{
    match message {
        Msg::Item(Item::Int(number)) => usize::try_from(*number).unwrap_or(0),
        _ => 0,
    }
}

// How many messages the reader has told to be taken, or fewer, since the last look.
fn told(back: &mut EdgeReader) -> usize
    ensures same { SameReader back.old back.new }
    ensures count { result + credit (received back.old) ≤ credit (received back.new) }
{
    let mut count: usize = 0;
    for _ in 0..NUMBERS {
        match back.take() {
            Some(message) => count = count.saturating_add(number_of(&message)),
            None => return count,
        }
    }
    count
}

impl CountedWriter {
    // Reads what the reader has told.
    #[inline(never)]
    fn look_back(&mut self)
        ensures edge { self.new.edge ≡ self.old.edge }
        ensures gathered { self.new.gathered ≡ self.old.gathered }
        ensures free { self.new.free ≡ self.old.free }
        ensures back { SameReader self.old.back self.new.back }
        ensures room { self.old.room ≤ self.new.room }
    {
        self.room = self.room.saturating_add(told(&mut self.back));
    }

    // Looks for how many messages more the edge has room.
    #[inline(never)]
    fn look_ahead(&mut self)
        ensures edge { words.SameWriter self.old.edge self.new.edge }
        ensures back { self.new.back ≡ self.old.back }
        ensures put { put_by self.new ≡ put_by self.old }
        ensures room { self.new.room ≡ self.old.room }
        ensures free { self.old.free ≤ self.new.free }
    {
        self.free = self.edge.space() - self.gathered.len();
    }

    // Puts a message after all others, or gives it back.
    #[inline(always)]
    pub(crate) fn put(&mut self, message: Msg) -> Result<(), Refused>
        requires fits { FitsEdge (Some (kind_of self.old.edge)) (signal_of message) }
        ensures same { SameWriter (ScalarsTo self.old) (ScalarsTo self.new) }
        ensures ok { OnOk result (PutsOne (ScalarsTo self.old) message (ScalarsTo self.new)) }
        ensures returned { IfErr result (λ e. e.message ≡ message) }
        ensures refused { IfErr result (λ _. WriterLooked (ScalarsTo self.old) (ScalarsTo self.new)) }
        ensures closed { IsErrAnd result (λ e. e.why ≡ Closed) ↔ IsClosed (ScalarsTo self.old) }
        ensures full { IsErrAnd result (λ e. e.why ≡ Full) → sure_room self.new ≡ 0 }
        ensures succeeds { IsNotClosed (ScalarsTo self.old) → 0 < sure_room self.old → IsOk result }
    {
        let has_room = self.has_room();
        if !has_room || self.edge.is_closed() {
            let why = if self.edge.is_closed() {
                Why::Closed
            } else {
                Why::Full
            };
            return Err(Refused { message, why });
        }
        self.room -= 1;
        self.free -= 1;
        if self.gathered.gathers(&mut self.edge, &message) {
            return Ok(());
        }
        self.edge.put(message)
    }

    // Puts these items where room is certain. They are dropped where `End` was put before.
    #[inline(always)]
    pub(crate) fn put_all(&mut self, items: Items<'_>)
        requires kind { TakesItems (Some (kind_of self.old.edge)) items }
        requires certain { length (item_messages items) ≤ sure_room self.old }
        ensures { PutsMany (item_messages items.entry) self.old self.new }
    {
        let count = items.len();
        self.room -= count;
        self.free -= count;
        if self.edge.is_closed() {
            return;
        }
        if self.gathered.makes_places(&mut self.edge, count) {
            self.gathered.add_all(items);
            return;
        }
        self.edge.put_all(items);
    }

    // Puts all that is gathered on the edge.
    #[inline(always)]
    pub(crate) fn put_out(&mut self)
        ensures edge { words.SameWriter self.old.edge self.new.edge }
        ensures back { self.new.back ≡ self.old.back }
        ensures put { sent self.new.edge ≡ put_by self.old }
        ensures out { many_messages self.new.gathered.items ≡ [] }
        ensures room { (self.new.room ≡ self.old.room) × (self.new.free ≡ self.old.free) }
    {
        if self.gathered.len() > 0 {
            self.gathered.put_on(&mut self.edge);
        }
    }

    // Whether one message more is certain of room.
    #[inline(always)]
    pub(crate) fn has_room(&mut self) -> bool
        ensures looked { LooksForRoom self.old self.new }
        ensures value { IsTrue result ↔ (0 < sure_room self.new) }
    {
        if self.room == 0 {
            self.look_back();
        }
        if self.free == 0 {
            self.look_ahead();
        }
        self.free > 0 && self.room > 0
    }

    // How many messages more are certain of room.
    #[inline(always)]
    pub(crate) fn space(&mut self) -> usize
        ensures looked { LooksForRoom self.old self.new }
        ensures value { result ≡ sure_room self.new }
    {
        if self.room <= self.capacity / 2 {
            self.look_back();
        }
        // It looks at the places of the edge only where it does not know of enough.
        if self.free < self.room {
            self.look_ahead();
        }
        self.room.min(self.free)
    }

    // How many messages were put, gathered or not. The count stays at `u64::MAX`.
    pub(crate) fn sent_count(&self) -> u64
        ensures { result ≡ u64_saturate (length (put_by self.now)) }
    {
        self.edge
            .sent_count()
            .saturating_add(self.gathered.len() as u64)
    }
}
