// What a worker is shown of its inputs, where it puts what it writes, and how far it went.

ghost use Rattle.std.specs.Prelude.{◌≡◌, ◌<◌, ◌≤◌, ℕ, true, List, [], length};
ghost use Rattle.std.specs.List.{All};
ghost use mathlib.Core.List.{IsPrefix};
ghost use Rattle.flow_messages.specs.Blocks.{item_signals};
ghost use Rattle.flow_messages.specs.Ends.{SameEnds, held};
ghost use Rattle.flow_messages.specs.Kinds.{TakesKind};
ghost use Rattle.flow_base.specs.Along.{AreApart, HasRoom};
ghost use Rattle.flow_base.specs.Visits.{edge_of, LeavesAlone};
ghost use Rattle.flow_base.specs.Standing.{PutsWritten};
ghost use Rattle.flow_base.specs.OnPorts.{FitsAt, IsLower, PutFrom, SkippedAt, TakeKindsOf, coming_at, room_at};

use crate::worker::Worker;
use flow_messages::{Ends, Items, Kind};

/// How many places there are for what a worker writes in one call. A slice borrows the ends that show it, and a put changes
/// them, so nothing is written straight to an edge.
pub const PLACES: usize = 256;

/// Where a worker puts what it writes. Each output gets what is there of its kind. It is lent, and what it held before is
/// nobody's.
#[derive(Drop)]
pub struct Written {
    pub flags: [bool; PLACES],
    pub ints: [i64; PLACES],
}

impl Written {
    // Places to write to.
    pub(crate) fn new() -> Written {
        Written {
            flags: [false; PLACES],
            ints: [0; PLACES],
        }
    }
}

/// How far a worker went along slices.
#[derive(Clone, Copy, Debug, PartialEq, Eq)]
pub struct Moved {
    /// How many items of port 0 it read.
    pub first: usize,
    /// How many items of port 1 it read.
    pub second: usize,
    /// How many units it wrote to each output of that kind.
    pub units: usize,
    /// How many truth values it wrote to each output of that kind.
    pub flags: usize,
    /// How many integers it wrote to each output of that kind.
    pub ints: usize,
    /// How many steps these were.
    pub steps: usize,
}

impl Moved {
    /// It moved nothing.
    pub fn nothing() -> Moved
        ensures { result ≡
            record { first = 0; second = 0; units = 0; flags = 0; ints = 0; steps = 0 } }
    {
        Moved {
            first: 0,
            second: 0,
            units: 0,
            flags: 0,
            ints: 0,
            steps: 0,
        }
    }
}

// What these ends show of this port, where there is such a port.
#[inline(always)]
pub(crate) fn shown_at<'e, E: Ends>(ends: &'e E, inputs: &[usize], port: usize) -> Items<'e>
    requires { All (λ e. (E.view ends.now).reads e ≡ true) inputs.now }
    ensures shown { IsPrefix (item_signals result) (coming_at (E.view ends.now) inputs.now port) }
    ensures none { length inputs.now ≤ port → item_signals result ≡ [] }
{
    if port >= inputs.len() {
        return Items::Nothing;
    }
    ends.shown(inputs[port])
}

// Takes so many of the messages that are certain at this port, and drops them.
#[inline(always)]
pub(crate) fn skip_at<E: Ends>(ends: &mut E, inputs: &[usize], port: usize, count: usize)
    requires reads { All (λ e. (E.view ends.old).reads e ≡ true) inputs.now }
    requires there { 0 < count → port < length inputs.now }
    requires certain { count ≤ held (E.view ends.old) (edge_of inputs.now port) }
    ensures same { E.same ends.old ends.new }
    ensures taken { SkippedAt inputs.now port count (E.view ends.old) (E.view ends.new) }
{
    if count > 0 {
        ends.skip(inputs[port], count);
    }
}

// Puts what was written to outputs of this kind on the edge of one, where there is room.
#[inline(always)]
fn put_on<E: Ends>(ends: &mut E, edge: usize, kind: Kind, block: &Written, moved: Moved)
    requires writes { (E.view ends.old).writes edge ≡ true }
    requires kind { TakesKind ((E.view ends.old).kind edge) kind }
    requires room { HasRoom moved ((E.view ends.old).room edge) }
    requires places { HasRoom moved 256 }
    ensures same { E.same ends.old ends.new }
    ensures put { PutFrom block.now moved kind edge (E.view ends.old) (E.view ends.new) }
{
    match kind {
        Kind::Unit => ends.put_all(edge, Items::Units(moved.units)),
        Kind::Bool => ends.put_all(edge, Items::Flags(&block.flags[..moved.flags])),
        Kind::Int => ends.put_all(edge, Items::Ints(&block.ints[..moved.ints])),
        Kind::Vec => {}
    }
}

// Puts what a worker wrote on the edge of each of its outputs, where there is room.
#[inline(always)]
pub(crate) fn put_on_each<W: Worker, E: Ends>(
    worker: &W,
    ends: &mut E,
    outputs: &[usize],
    block: &Written,
    moved: Moved,
)
    requires writes { All (λ e. (E.view ends.old).writes e ≡ true) outputs.now }
    requires kinds { TakeKindsOf W.machine (W.state worker.now) outputs.now (E.view ends.old) }
    requires apart { AreApart outputs.now }
    requires room { (q : ℕ) → q < length outputs.now →
        FitsAt (E.view ends.old) outputs.now q moved }
    requires places { HasRoom moved 256 }
    ensures same { E.same ends.old ends.new }
    ensures put { PutsWritten W.Worker worker.now E.view outputs.now block.now moved ends.old ends.new }
{
    for port in 0..outputs.len() {
        put_on(ends, outputs[port], worker.kind_out(port), block, moved);
    }
}

// How many messages each of the outputs has room for.
#[inline(always)]
pub(crate) fn least_space<E: Ends>(ends: &mut E, outputs: &[usize]) -> usize
    requires { All (λ e. (E.view ends.old).writes e ≡ true) outputs.now }
    ensures same { E.same ends.old ends.new }
    ensures ends { SameEnds (E.view ends.old) (E.view ends.new) }
    ensures room { (q : ℕ) → q < length outputs.now →
        result ≤ room_at (E.view ends.new) outputs.now q }
    ensures alone { (ins : List ℕ) → LeavesAlone ins outputs.now (E.view ends.old) (E.view ends.new) }
{
    let mut least = usize::MAX;
    for port in 0..outputs.len() {
        least = least.min(ends.space(outputs[port]));
    }
    least
}

// Whether no two edges are the same: each has a greater number than the one before it, as it has where the outputs were
// joined in their order.
#[inline(always)]
pub(crate) fn rise(edges: &[usize]) -> bool
    ensures { result ≡ true → (p q : ℕ) → p < q → q < length edges.now → IsLower edges.now p q }
{
    for port in 1..edges.len() {
        if edges[port] <= edges[port - 1] {
            return false;
        }
    }
    true
}

// Whether there are at most two inputs, and they have edges of their own. Slices of more are not shown.
#[inline(always)]
pub(crate) fn at_most_two_apart(inputs: &[usize]) -> bool
    ensures { result ≡ true → AreApart inputs.now }
{
    inputs.len() < 2 || inputs.len() == 2 && inputs[0] != inputs[1]
}
