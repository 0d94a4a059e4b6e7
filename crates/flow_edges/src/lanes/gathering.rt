// How scalars are gathered, and put on an edge together.
ghost use Rattle.std.specs.Prelude.{◌≡◌, ◌≢◌, ◌+◌, ◌<◌, ◌≤◌, ◌↔◌, true, false, [], ◌∷◌, ◌++◌, Some, length, IsTrue, IfOk};
ghost use Rattle.std.specs.Vec.{vec_len, vec_capacity};
ghost use Rattle.flow_messages.specs.Signals.{signals, ended};
ghost use Rattle.flow_messages.specs.Contents.{item_messages};
ghost use Rattle.flow_messages.specs.Kinds.{TakesItems};
ghost use Rattle.flow_messages.specs.declared.message.Kind.TheVariants.{Vec as VecKind};
ghost use Rattle.flow_words.specs.Edge.{sent, certain_room, followed_unless_ended};
ghost use Rattle.flow_edges.specs.lanes.Many.{many_messages, many_kind, places_for};
ghost use Rattle.flow_edges.specs.lanes.Counted.{gathered_in, put_by_both, AddsToBoth, CanGoOn, GathersToo, KeepsRoomBut, SameGathering};

use crate::lanes::gathered::{Gathered, Many};
use flow_messages::{Item, Items, Kind, Msg};
use flow_words::WordWriter;
use std::alloc::{AllocError, Global};

// So many items and fewer are gathered one by one: to copy them as a block costs more.
const FEW: usize = 8;

// No scalars, with places for so many of this kind.
fn no_items(alloc: Global, kind: Kind, most: usize) -> Result<Many, AllocError>
    requires { kind ≢ VecKind }
    ensures none { IfOk result (λ items. many_messages items ≡ []) }
    ensures kind { IfOk result (λ items. many_kind items ≡ kind) }
    ensures places { IfOk result (λ items. most ≤ places_for most items) }
{
    match kind {
        Kind::Unit => Ok(Many::Units(0)),
        Kind::Bool => {
            let flags = Vec::with_capacity(alloc, most)?;
            Ok(Many::Flags(flags))
        }
        Kind::Int => {
            let ints = Vec::with_capacity(alloc, most)?;
            Ok(Many::Ints(ints))
        }
        Kind::Vec => unreachable!(),
    }
}

// Puts these items after those of a vector, where their places are reserved.
#[inline(always)]
fn append<T: Copy + Drop>(items: &mut Vec<T>, more: &[T])
    requires room { vec_len items.old + length more.now ≤ vec_capacity items.old }
    ensures items { items.new.items ≡ items.old.items ++ more.now }
    ensures capacity { vec_capacity items.old ≤ vec_capacity items.new }
{
    if more.len() > FEW {
        let _fits = items.extend_from_slice(more);
        return;
    }
    for at in 0..more.len() {
        items.push_reserved(more[at]);
    }
}

impl Gathered {
    // Nothing is gathered, and the places for so many scalars of this kind are reserved.
    pub(crate) fn new(alloc: Global, kind: Kind, most: usize) -> Result<Gathered, AllocError>
        requires { kind ≢ VecKind }
        ensures none { IfOk result (λ g. many_messages g.items ≡ []) }
        ensures kind { IfOk result (λ g. many_kind g.items ≡ kind) }
    {
        let items = no_items(alloc, kind, most)?;
        Ok(Gathered { items, most })
    }

    // The scalars that are gathered.
    #[inline(always)]
    fn shown(&self) -> Items<'_>
        ensures messages { item_messages result ≡ gathered_in self.now }
        ensures kind { TakesItems (Some (many_kind self.now.items)) result }
    {
        match &self.items {
            Many::Units(count) => Items::Units(*count),
            Many::Flags(flags) => Items::Flags(flags.as_slice()),
            Many::Ints(ints) => Items::Ints(ints.as_slice()),
        }
    }

    // How many are gathered.
    #[inline(always)]
    pub(crate) fn len(&self) -> usize
        ensures { result ≡ length (gathered_in self.now) }
    {
        self.shown().len()
    }

    // Whether there are places for so many more.
    #[inline(always)]
    fn has_places(&self, count: usize) -> bool
        ensures { IsTrue result ↔
            (length (gathered_in self.now) + count ≤ self.now.most) }
    {
        count <= self.most - self.len()
    }

    // These items are gathered.
    #[inline(always)]
    pub(crate) fn add_all(&mut self, items: Items<'_>)
        requires kind { TakesItems (Some (many_kind self.old.items)) items }
        requires places { length (gathered_in self.old) + length (item_messages items) ≤
            self.old.most }
        ensures { GathersToo (item_messages items.entry) self.old self.new }
    {
        match (&mut self.items, items) {
            (Many::Units(gathered), Items::Units(count)) => *gathered += count,
            (Many::Flags(gathered), Items::Flags(flags)) => append(gathered, flags),
            (Many::Ints(gathered), Items::Ints(ints)) => append(gathered, ints),
            (_, Items::Nothing) => {}
            _ => unreachable!(),
        }
    }

    // Whether the message is a scalar of 64 bits at most and of the kind. Then it is gathered.
    #[inline(always)]
    fn add(&mut self, message: &Msg) -> bool
        requires { length (gathered_in self.old) < self.old.most }
        ensures kind { many_kind self.new.items ≡ many_kind self.old.items }
        ensures added { IsTrue result → gathered_in self.new ≡
            gathered_in self.old ++ message.now ∷ [] }
        ensures kept { result ≡ false →
            gathered_in self.new ≡ gathered_in self.old }
    {
        match (&mut self.items, message) {
            (Many::Units(gathered), Msg::Item(Item::Unit)) => {
                *gathered += 1;
                true
            }
            (Many::Flags(gathered), Msg::Item(Item::Bool(truth))) => {
                gathered.push_reserved(*truth);
                true
            }
            (Many::Ints(gathered), Msg::Item(Item::Int(number))) => {
                let Ok(narrow) = i64::try_from(*number) else {
                    return false;
                };
                gathered.push_reserved(narrow);
                true
            }
            _ => false,
        }
    }

    // Nothing is gathered any more.
    #[inline(always)]
    fn clear(&mut self)
        ensures none { gathered_in self.new ≡ [] }
        ensures kind { many_kind self.new.items ≡ many_kind self.old.items }
    {
        match &mut self.items {
            Many::Units(count) => *count = 0,
            Many::Flags(flags) => flags.clear(),
            Many::Ints(ints) => ints.clear(),
        }
    }

    // Puts all that is gathered on the edge. It is dropped where `End` was put before.
    #[inline(never)]
    pub(crate) fn put_on(&mut self, edge: &mut WordWriter)
        requires fits { CanGoOn self.old edge.old }
        ensures none { gathered_in self.new ≡ [] }
        ensures same { SameGathering self.old edge.old self.new edge.new }
        ensures put { sent edge.new ≡
            followed_unless_ended (sent edge.old) (gathered_in self.old) }
        ensures room { certain_room edge.old ≤
            certain_room edge.new + length (gathered_in self.old) }
    {
        edge.put_all(self.shown());
        self.clear();
    }

    // Whether there are places for so many more, or are since all that was gathered went on the edge. Else nothing is gathered.
    #[inline(always)]
    pub(crate) fn makes_places(&mut self, edge: &mut WordWriter, count: usize) -> bool
        requires fits { CanGoOn self.old edge.old }
        requires open { ended (signals (sent edge.old)) ≡ false }
        ensures same { SameGathering self.old edge.old self.new edge.new }
        ensures kept { put_by_both self.new edge.new ≡ put_by_both self.old edge.old }
        ensures open { ended (signals (sent edge.new)) ≡ false }
        ensures room { KeepsRoomBut 0 self.old edge.old self.new edge.new }
        ensures places { IsTrue result →
            length (gathered_in self.new) + count ≤ self.new.most }
        ensures alone { result ≡ false → gathered_in self.new ≡ [] }
    {
        if self.has_places(count) {
            return true;
        }
        if self.len() == 0 {
            return false;
        }
        self.put_on(edge);
        self.has_places(count)
    }

    // Whether the message is gathered. Else all that was gathered went on the edge.
    #[inline(always)]
    pub(crate) fn gathers(&mut self, edge: &mut WordWriter, message: &Msg) -> bool
        requires fits { CanGoOn self.old edge.old }
        requires open { ended (signals (sent edge.old)) ≡ false }
        ensures same { SameGathering self.old edge.old self.new edge.new }
        ensures added { IsTrue result → AddsToBoth message.now self.old edge.old self.new edge.new }
        ensures used { IsTrue result → KeepsRoomBut 1 self.old edge.old self.new edge.new }
        ensures open { ended (signals (sent edge.new)) ≡ false }
        ensures alone { result ≡ false → gathered_in self.new ≡ [] }
        ensures out { result ≡ false → sent edge.new ≡ put_by_both self.old edge.old }
        ensures room { result ≡ false → KeepsRoomBut 0 self.old edge.old self.new edge.new }
    {
        if !self.makes_places(edge, 1) {
            return false;
        }
        if self.add(message) {
            return true;
        }
        self.put_on(edge);
        false
    }
}
