// What is called at the end that takes scalars.
ghost use Rattle.std.specs.Prelude.{◌≡◌, ◌<◌, ◌≤◌, ℕ, pos, false, Some, length, IsSome, IfSome, IfNone};
ghost use Rattle.flow_messages.specs.declared.message.Kind.TheVariants.{Int as IntKind};
ghost use Rattle.flow_messages.specs.declared.message.Msg.TheVariants.{Item as ItemMsg};
ghost use Rattle.flow_messages.specs.declared.message.Item.TheVariants.{Int as IntItem};
ghost use Rattle.flow_messages.specs.Stores.{content_of};
ghost use Rattle.flow_rings.specs.Edge.{certain_held, kind_of, SameWriter};
ghost use Rattle.flow_messages.specs.Kinds.{FitsEdge};
ghost use Rattle.flow_messages.specs.Signals.{signals, signal_of, ended};
ghost use Rattle.flow_edges.specs.lanes.Credits.{Owes, LeavesNone};
ghost use Rattle.flow_edges.specs.lanes.Followed.{TakesInTurn};
ghost use Rattle.flow_edges.specs.declared.lanes.ends.LaneReader.TheVariants.{Scalars as ScalarsFrom};
ghost use Rattle.flow_edges.specs.lanes.Lane.{reader_kind, TakesNone, TakesOne};
ghost use Rattle.flow_edges.specs.lanes.Taken.{taken_from, held_in, HasTold, HoldsWhatCame, OnlyTells, SamePocket, SkipsHeld, TookFirst};

use crate::lanes::pocket::Pocket;
use flow_messages::history::History;
use flow_messages::{Item, Msg};
use flow_rings::{EdgeReader, EdgeWriter};

// A pocket that holds as many is not filled: a look at the edge costs more than to take them.
const ENOUGH: usize = 16;

// So many times messages are taken over in one look at most.
const TIMES: usize = 2;

// The message that says a number.
#[inline(always)]
fn saying(number: u64) -> Msg
    ensures { result ≡ ItemMsg (IntItem (pos number)) }
{
    Msg::Item(Item::Int(i128::from(number)))
}

// Tells the writer how many messages were taken, where there is room for that. How many are still untold.
#[inline(never)]
pub(crate) fn tell(back: &mut EdgeWriter, owed: u64) -> u64
    requires { kind_of back.old ≡ Some IntKind }
    ensures same { SameWriter back.old back.new }
    ensures owes { (taken : ℕ) → Owes taken owed back.old → Owes taken result back.new }
    ensures told { (taken : ℕ) → Owes taken owed back.old → LeavesNone back.old owed result }
    ensures rest { (taken : ℕ) → Owes taken owed back.old → LeavesNone back.new result result }
{
    if owed == 0 || owed == u64::MAX {
        return owed;
    }
    if back.put(saying(owed)).is_ok() {
        return 0;
    }
    owed
}

// Takes so many messages that are certain.
pub(crate) fn take_each(reader: &mut EdgeReader, count: usize)
    requires { count ≤ length (certain_held reader.old) }
    ensures { TakesInTurn count reader.old reader.new }
{
    for _ in 0..count {
        let _ = reader.take();
    }
}

impl Pocket {
    // Messages that came are held, as many as some takes over give. Where none is held then the writer may wait for room, so it is
    // told how many were taken.
    #[inline(never)]
    pub(crate) fn fill(&mut self)
        ensures { HoldsWhatCame self.old self.new }
    {
        self.take_over();
        if self.inbox.store.len() == 0 {
            self.tell();
        }
    }

    // Messages are taken over from the edge, some times.
    #[inline(always)]
    fn take_over(&mut self)
        ensures back { self.new.back ≡ self.old.back }
        ensures came { HoldsWhatCame self.old self.new }
    {
        for _ in 0..TIMES {
            if !self.take_some() {
                return;
            }
        }
    }

    // Messages are taken over from the edge. Whether there may be more, and there is room for them.
    #[inline(always)]
    fn take_some(&mut self) -> bool
        ensures back { self.new.back ≡ self.old.back }
        ensures came { HoldsWhatCame self.old self.new }
    {
        let more = self.edge.take_into(&mut self.inbox);
        self.came = History::new().followed_by(&self.inbox.arrived);
        more & (self.inbox.store.len() < self.inbox.store.capacity)
    }

    // Messages that came are held, where none is.
    #[inline(always)]
    pub(crate) fn fill_if_empty(&mut self)
        ensures { HoldsWhatCame self.old self.new }
    {
        if self.inbox.store.len() == 0 {
            self.fill();
        }
    }

    // Messages that came are held, where few are.
    #[inline(always)]
    pub(crate) fn fill_if_few(&mut self)
        ensures { HoldsWhatCame self.old self.new }
    {
        if self.inbox.store.len() < ENOUGH {
            self.fill();
        }
    }

    // Tells the writer how many were taken, once they are a quarter of the lane.
    #[inline(always)]
    fn tell_if_many(&mut self)
        ensures { OnlyTells self.old self.new }
    {
        let quarter = self.inbox.store.capacity / 4;
        if self.owed >= quarter as u64 {
            self.tell();
        }
    }

    // Tells the writer how many were taken, where there is room for that.
    #[inline(always)]
    pub(crate) fn tell(&mut self)
        ensures kept { OnlyTells self.old self.new }
        ensures told { HasTold self.new }
    {
        self.owed = tell(&mut self.back, self.owed);
    }

    // Takes the oldest message, if there is one.
    #[inline(always)]
    pub(crate) fn take(&mut self) -> Option<Msg>
        ensures same { SamePocket self.old self.new }
        ensures some { IfSome result (λ m. TakesOne (ScalarsFrom self.old) m (ScalarsFrom self.new)) }
        ensures none { IfNone result (TakesNone (ScalarsFrom self.old) (ScalarsFrom self.new)) }
        ensures open { IfSome result (λ _. ended (signals (taken_from self.old)) ≡ false) }
        ensures fits { IfSome result (λ m. FitsEdge (reader_kind (ScalarsFrom self.old)) (signal_of m)) }
        ensures succeeds { 0 < length (held_in self.old) → IsSome result }
    {
        self.fill_if_empty();
        let message = self.inbox.take()?;
        self.owed = self.owed.saturating_add(1);
        self.tell_if_many();
        Some(message)
    }

    // Takes so many of the messages that are certain, and drops them.
    #[inline(always)]
    pub(crate) fn take_many(&mut self, count: usize)
        requires { count ≤ length (held_in self.old) }
        ensures { TookFirst count self.old self.new }
    {
        if count <= self.inbox.store.len() {
            self.skip(count);
        } else {
            self.take_one_by_one(count);
        }
    }

    // Takes so many messages, one after another.
    fn take_one_by_one(&mut self, count: usize)
        requires { count ≤ length (held_in self.old) }
        ensures { TookFirst count self.old self.new }
    {
        for _ in 0..count {
            let _ = self.take();
        }
    }

    // Takes so many of the messages that are held, and drops them.
    #[inline(always)]
    fn skip(&mut self, count: usize)
        requires { count ≤ length (content_of self.old.inbox.store) }
        ensures { SkipsHeld count self.old self.new }
    {
        self.inbox.skip(count);
        self.owed = self.owed.saturating_add(count as u64);
        self.tell_if_many();
    }
}
