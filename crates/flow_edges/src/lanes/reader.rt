// The end that takes messages.
ghost use Rattle.std.specs.Prelude.{◌≡◌, ◌<◌, ◌≤◌, ◌↔◌, false, [], ◌∷◌, ◌++◌, length, take, IsTrue, IsSome, IfSome, IfNone};
ghost use Rattle.std.specs.Io.Iter.{u64_saturate};
ghost use mathlib.Core.List.{IsPrefix};
ghost use Rattle.flow_messages.specs.Contents.{item_messages};
ghost use Rattle.flow_messages.specs.Flats.{scalar_first};
ghost use Rattle.flow_messages.specs.Kinds.{FitsEdge};
ghost use Rattle.flow_messages.specs.Signals.{signals, signal_of, ended};
ghost use Rattle.flow_edges.specs.lanes.Lane.{received, certain_held, reader_kind, IsAllTold, KeepsCertain, ReaderLooked, SameReader, TakesNone, TakesOne};

use crate::lanes::ends::LaneReader;
use crate::lanes::taking::take_each;
use flow_messages::{Items, Msg};

impl LaneReader {
    /// Whether the lane is certain to hold a message. Only the writer adds more.
    #[inline(always)]
    pub fn ready(&mut self) -> bool
        ensures same { SameReader self.old self.new }
        ensures looked { ReaderLooked self.old self.new }
        ensures value { IsTrue result ↔ (0 < length (certain_held self.new)) }
    {
        match self {
            LaneReader::Messages(edge) => edge.ready(),
            LaneReader::Scalars(pocket) => {
                pocket.fill_if_few();
                pocket.inbox.store.len() > 0
            }
        }
    }

    /// Whether the lane is certain to hold a message, and the next is no vector.
    #[inline(always)]
    pub fn scalar_is_next(&mut self) -> bool
        ensures same { SameReader self.old self.new }
        ensures looked { ReaderLooked self.old self.new }
        ensures value { result ≡ scalar_first (signals (certain_held self.new)) }
    {
        match self {
            LaneReader::Messages(edge) => edge.scalar_is_next(),
            LaneReader::Scalars(pocket) => {
                pocket.fill_if_empty();
                pocket.inbox.store.scalar_first()
            }
        }
    }

    /// Takes the oldest message that was not taken, or none where none is certain to be there.
    /// Nothing is taken after an `End`, and from a lane of scalars only items of its kind.
    #[inline(always)]
    pub fn take(&mut self) -> Option<Msg>
        ensures same { SameReader self.old self.new }
        ensures some { IfSome result (λ m. TakesOne self.old m self.new) }
        ensures none { IfNone result (TakesNone self.old self.new) }
        ensures open { IfSome result (λ _. ended (signals (received self.old)) ≡ false) }
        ensures fits { IfSome result (λ m. FitsEdge (reader_kind self.old) (signal_of m)) }
        ensures succeeds { 0 < length (certain_held self.old) → IsSome result }
    {
        match self {
            LaneReader::Messages(edge) => edge.take(),
            LaneReader::Scalars(pocket) => pocket.take(),
        }
    }

    /// Takes so many of the messages that are certain, and drops them.
    #[inline(always)]
    pub fn skip(&mut self, count: usize)
        requires { count ≤ length (certain_held self.old) }
        ensures same { SameReader self.old self.new }
        ensures taken { received self.new ≡
            received self.old ++ take count (certain_held self.old) }
        ensures ahead { KeepsCertain self.old (take count (certain_held self.old)) self.new }
    {
        match self {
            LaneReader::Scalars(pocket) => pocket.take_many(count),
            LaneReader::Messages(edge) => take_each(edge, count),
        }
    }

    /// Tells the writer how many messages were taken, where there is room to tell it.
    #[inline(always)]
    pub fn tell(&mut self)
        ensures same { SameReader self.old self.new }
        ensures taken { received self.new ≡ received self.old }
        ensures held { certain_held self.new ≡ certain_held self.old }
        ensures told { IsAllTold self.new }
    {
        match self {
            LaneReader::Messages(_) => {}
            LaneReader::Scalars(pocket) => pocket.tell(),
        }
    }

    /// How many messages were taken. The count stays at `u64::MAX`.
    pub fn received_count(&self) -> u64
        ensures { result ≡ u64_saturate (length (received self.now)) }
    {
        match self {
            LaneReader::Messages(edge) => edge.received_count(),
            LaneReader::Scalars(pocket) => pocket.inbox.taken,
        }
    }

    /// The oldest message that was not taken, where the lane was seen to hold one and can show it. It stays.
    #[inline(always)]
    pub fn front(&self) -> Option<&Msg>
        ensures { IfSome result (λ m. IsPrefix (m.now ∷ []) (certain_held self.now)) }
    {
        match self {
            LaneReader::Messages(edge) => edge.front(),
            LaneReader::Scalars(pocket) => pocket.inbox.store.front(),
        }
    }

    /// Items of one kind that the next takes are certain to give, or the first of them.
    #[inline(always)]
    pub fn shown(&self) -> Items<'_>
        ensures { IsPrefix (item_messages result) (certain_held self.now) }
    {
        match self {
            LaneReader::Messages(_) => Items::Nothing,
            LaneReader::Scalars(pocket) => pocket.inbox.store.shown(),
        }
    }
}
