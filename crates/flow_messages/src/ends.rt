// The ends of a set of edges.
use crate::flat::{Block, Flat};
use crate::items::Items;
use crate::message::{Kind, Msg};

/// Why a message was not put on an edge.
#[derive(Clone, Copy, Debug, PartialEq, Eq)]
pub enum Why {
    /// The edge holds as many messages as it may.
    Full,
    /// `End` was put on it before.
    Closed,
}

/// A message that was not put on an edge. It comes back.
#[derive(Debug, Drop)]
pub struct Refused {
    pub message: Msg,
    pub why: Why,
}

/// Some ends of some edges, each named by its edge's number.
///
/// No call takes memory, and none waits. Ends that hold items of one kind side by side show them as slices, so that many are
/// read, taken or put in one call; others show none, and then go one message at a time.
pub trait Ends {
    ghost use Rattle.std.specs.Prelude.{◌≡◌, ◌<◌, ◌≤◌, ◌↔◌, true, false, [], ◌∷◌, ◌++◌, IsTrue, IsOk, IsSome, IfSome, IfNone, OnOk, IfErr, IsErrAnd, length};
    ghost use mathlib.Core.List.{IsPrefix};
    ghost use Rattle.flow_messages.specs.Signals.{signal_of, orderly};
    ghost use Rattle.flow_messages.specs.Flats.{flat_signals, flats_appended, scalar_first, BlockFitsEdge, HasPlace};
    ghost use Rattle.flow_messages.specs.Kinds.{FitsEdge, TakesItems, TakesKind};
    ghost use Rattle.flow_messages.specs.Ends.{View, held, LookedForRoom, LookedForMessages, Put, Taken, PutAll};
    ghost use Rattle.flow_messages.specs.Ends.{HasEnded, HasNotEnded, CanPut, GivesBack, FoundNone, TakenFirst, TakenInto, PutFlats, SentFlats, ScalarIsNext, NoScalarIsNext};
    ghost use Rattle.flow_messages.specs.Blocks.{item_signals};
    ghost use Rattle.flow_messages.specs.declared.ends.Why.TheVariants.{Full, Closed};

    /// What was put and taken on each edge, and what is certain.
    ghost view: { Self → View };

    /// The two are the same ends, before and after.
    ghost same: { Self → Self → Type 0 };

    /// Nothing that was put is kept back: all of it lies where its reader looks.
    ghost all_out: { Self → Type 0 };

    /// Whether the end that puts messages on this edge is there.
    fn has_writer(&self, edge: usize) -> bool
        ensures { result ≡ (view self.now).writes edge };

    /// Whether the end that takes messages from this edge is there.
    fn has_reader(&self, edge: usize) -> bool
        ensures { result ≡ (view self.now).reads edge };

    /// Whether the edge takes items of this kind. An edge of no kind takes all.
    fn takes(&self, edge: usize, kind: Kind) -> bool
        requires { (view self.now).writes edge ≡ true }
        ensures { IsTrue result ↔ TakesKind ((view self.now).kind edge) kind };

    /// Whether the edge is certain to have room for one more message.
    fn room(&mut self, edge: usize) -> bool
        requires { (view self.old).writes edge ≡ true }
        ensures same { same self.old self.new }
        ensures looked { LookedForRoom (view self.old) edge (view self.new) }
        ensures value { IsTrue result ↔ (0 < (view self.new).room edge) };

    /// Whether the edge is certain to hold a message.
    fn ready(&mut self, edge: usize) -> bool
        requires { (view self.old).reads edge ≡ true }
        ensures same { same self.old self.new }
        ensures looked { LookedForMessages (view self.old) edge (view self.new) }
        ensures value { IsTrue result ↔ (0 < held (view self.new) edge) };

    /// How many messages more the edge is certain to have room for: not fewer than it was certain of before.
    fn space(&mut self, edge: usize) -> usize
        requires { (view self.old).writes edge ≡ true }
        ensures same { same self.old self.new }
        ensures looked { LookedForRoom (view self.old) edge (view self.new) }
        ensures value { result ≤ (view self.new).room edge }
        ensures sure { (view self.old).room edge ≤ result };

    /// Whether the edge is certain to have room for so many messages more.
    fn room_for(&mut self, edge: usize, count: usize) -> bool
        requires { (view self.old).writes edge ≡ true }
        ensures same { same self.old self.new }
        ensures looked { LookedForRoom (view self.old) edge (view self.new) }
        ensures value { IsTrue result → count ≤ (view self.new).room edge }
        ensures sure { count ≤ (view self.old).room edge → IsTrue result }
    {
        count <= self.space(edge)
    }

    /// Whether a message is certain to be there, and the next is no vector.
    fn scalar_is_next(&mut self, edge: usize) -> bool
        requires { (view self.old).reads edge ≡ true }
        ensures same { same self.old self.new }
        ensures looked { LookedForMessages (view self.old) edge (view self.new) }
        ensures value { result ≡ scalar_first ((view self.new).coming edge) };

    /// The message that the next take is certain to give, where these ends can show it. It stays.
    fn front(&self, edge: usize) -> Option<&Msg>
        requires { (view self.now).reads edge ≡ true }
        ensures { IfSome result (λ m. IsPrefix (signal_of m.now ∷ [])
            ((view self.now).coming edge)) }
    {
        None
    }

    /// Puts a message after all others.
    ///
    /// It is refused as `Closed` exactly where `End` was put on the edge before, and as `Full` only
    /// where no room was certain. Then nothing was put, and the message comes back.
    fn put(&mut self, edge: usize, message: Msg) -> Result<(), Refused>
        requires writes { (view self.old).writes edge ≡ true }
        requires fits { FitsEdge ((view self.old).kind edge) (signal_of message) }
        ensures same { same self.old self.new }
        ensures ok { OnOk result (Put (view self.old) edge (signal_of message) (view self.new)) }
        ensures refused { IfErr result (GivesBack message (view self.old) edge (view self.new)) }
        ensures closed { IsErrAnd result (λ e. e.why ≡ Closed) ↔ HasEnded (view self.old) edge }
        ensures full { IsErrAnd result (λ e. e.why ≡ Full) → (view self.new).room edge ≡ 0 }
        ensures succeeds { HasNotEnded (view self.old) edge → 0 < (view self.old).room edge →
            IsOk result };

    /// Takes the oldest message that was not taken, or none where none is certain to be there.
    fn take(&mut self, edge: usize) -> Option<Msg>
        requires { (view self.old).reads edge ≡ true }
        ensures same { same self.old self.new }
        ensures some { IfSome result (λ m. Taken (view self.old) edge (signal_of m)
            (view self.new)) }
        ensures none { IfNone result (FoundNone (view self.old) edge (view self.new)) }
        ensures succeeds { 0 < held (view self.old) edge → IsSome result };

    /// Items of one kind that the next takes are certain to give, where these ends show them side by side, or the first of
    /// them.
    fn shown(&self, edge: usize) -> Items<'_>
        requires { (view self.now).reads edge ≡ true }
        ensures { IsPrefix (item_signals result) ((view self.now).coming edge) }
    {
        let _ = edge;
        Items::Nothing
    }

    /// Takes so many of the messages that are certain, and drops them.
    fn skip(&mut self, edge: usize, count: usize)
        requires reads { (view self.old).reads edge ≡ true }
        requires certain { count ≤ held (view self.old) edge }
        ensures same { same self.old self.new }
        ensures taken { TakenFirst (view self.old) edge count (view self.new) }
    {
        for _ in 0..count {
            let _ = self.take(edge);
        }
    }

    /// Puts these items where room is certain. They are dropped where `End` was put on the edge before.
    fn put_all(&mut self, edge: usize, items: Items<'_>)
        requires writes { (view self.old).writes edge ≡ true }
        requires kind { TakesItems ((view self.old).kind edge) items }
        requires certain { length (item_signals items) ≤ (view self.old).room edge }
        ensures same { same self.old self.new }
        ensures put { PutAll (view self.old) edge (item_signals items.entry) (view self.new) }
    {
        for at in 0..items.len() {
            let _ = self.put(edge, items.message(at));
        }
    }

    /// Puts the messages of a block after all others, in order, and empties it.
    ///
    /// Where room is certain for fewer of them, or `End` was put on the edge before, the answer is false:
    /// then nothing was put, and the block is as it was. An `End` may only be the last of the block.
    fn put_block(&mut self, edge: usize, block: &mut Block) -> bool
        requires writes { (view self.old).writes edge ≡ true }
        requires fit { BlockFitsEdge ((view self.old).kind edge) block.old.items }
        requires last { orderly (flat_signals block.old.items) ≡ true }
        ensures same { same self.old self.new }
        ensures put { IsTrue result →
            PutFlats (view self.old) edge block.old.items (view self.new) }
        ensures sent { IsTrue result →
            SentFlats (view self.old) edge block.old.items (view self.new) }
        ensures emptied { IsTrue result → block.new.items ≡ [] }
        ensures refused { result ≡ false → LookedForRoom (view self.old) edge (view self.new) }
        ensures kept { result ≡ false → block.new.items ≡ block.old.items }
        ensures succeeds { CanPut (view self.old) edge (length block.old.items) →
            IsTrue result }
    {
        if !self.room_for(edge, block.len()) {
            return false;
        }
        for flat in block.as_slice() {
            if self.put(edge, flat.message()).is_err() {
                return false;
            }
        }
        block.clear();
        true
    }

    /// Takes the oldest messages that were not taken, up to the first vector, at most `most`, as far as the block has
    /// room, and appends them to it in order. The answer is how many: not none where a scalar was certain to come
    /// next, the block had room and `most` is not 0.
    fn take_block(&mut self, edge: usize, block: &mut Block, most: usize) -> usize
        requires { (view self.old).reads edge ≡ true }
        ensures same { same self.old self.new }
        ensures before { block.new.items ≡ block.old.items ++ flats_appended block.old block.new }
        ensures taken { TakenInto (view self.old) edge block.old block.new (view self.new) }
        ensures count { result ≡ length (flats_appended block.old block.new) }
        ensures most { result ≤ most }
        ensures all { result < most → HasPlace block.new →
            NoScalarIsNext (view self.new) edge }
        ensures succeeds { ScalarIsNext (view self.old) edge → 0 < most → HasPlace block.old →
            0 < result }
    {
        for taken in 0..most {
            if block.is_full() {
                return taken;
            }
            if !self.scalar_is_next(edge) {
                return taken;
            }
            let Some(message) = self.take(edge) else {
                unreachable!()
            };
            let Some(flat) = Flat::of(&message) else {
                unreachable!()
            };
            block.push(flat);
        }
        most
    }

    /// Puts out all that was put and is kept back, for their readers to find.
    fn put_out(&mut self)
        ensures same { same self.old self.new }
        ensures view { view self.new ≡ view self.old }
        ensures out { all_out self.new };

    ghost same_refl: { (a : Self) → same a a };

    ghost same_trans: { (a b c : Self) → same a b → same b c → same a c };
}
