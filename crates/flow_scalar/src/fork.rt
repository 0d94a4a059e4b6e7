// Copies of each item.

ghost use Rattle.std.specs.Prelude.{◌*◌, suc, ◌≡◌, ◌+◌, ◌<◌, ◌≤◌, ℕ, true, false, Ok, List, [], ◌∷◌, length, IfSome};
ghost use mathlib.Core.List.{IsPrefix};
ghost use Rattle.std.specs.List.{All};
ghost use Rattle.flow_messages.specs.Cells.{cell_of, is_of};
ghost use Rattle.flow_messages.specs.Ends.{SameEnds};
ghost use Rattle.flow_messages.specs.Kinds.{FitsEdge};
ghost use Rattle.flow_messages.specs.Signals.{carry};
ghost use Rattle.flow_messages.specs.Blocks.{item_signals};
ghost use Rattle.flow_base.specs.Machines.{Leads, on_kind};
ghost use Rattle.flow_base.specs.Nodes.{NodeState, behaviour_of, node_state};
ghost use Rattle.flow_base.specs.Visits.{edge_of, PortsHaveEdges, TakeKinds, Went, Wrote};
ghost use Rattle.flow_base.specs.declared.node.Phase.TheVariants.{Working};
ghost use Rattle.flow_scalar.specs.ForkCopies.{Copied};
ghost use Rattle.flow_scalar.specs.ForkShown.{ItemComes, ItemIsHeld};
ghost use Rattle.flow_scalar.specs.ForkMachine.{ForkPorts, ForkState, fork_ports, fork_machine, idle, holding};

use flow_base::{Ask, Moved, Stop, Worker, Written, put_in_space, take_front};
use flow_messages::{Ends, Flat, Item, Items, Kind, Msg};
use snesl_data::FaultKind;
use std::alloc::AllocError;

/// Reads items of one kind and writes each to every output, the outputs in order. Each item is an instance. An item of
/// another kind is a fault of kind `Shape`.
///
/// A vector is copied for each output but the last, which gets the vector itself; a copy shares its elements. Where a copy
/// is refused, nothing was written, and the same output is next.
///
/// Row: `ForkRow` (specs/Rows.antt).
#[derive(Drop)]
pub struct Fork {
    kind: Kind,
    outputs: usize,
    held: Option<Item>,
    // The output that gets the held item next.
    next: usize,
    ghost several: { 2 ≤ outputs },
    ghost is_output: { next < outputs },
}

impl Fork {
    ghost use Rattle.flow_scalar.specs.ForkSteps.{ForkGave, ForkWent};

    /// A worker with so many outputs that reads items of this kind.
    pub fn new(kind: Kind, outputs: usize) -> Fork
        requires { 2 ≤ outputs }
        ensures state { ⟦<Fork as Worker>⟧.state result ≡ (fork_ports kind outputs, idle) }
        ensures outputs { suc (fork_ports kind outputs).others ≡ outputs }
    {
        Fork {
            kind,
            outputs,
            held: None,
            next: 0,
        }
    }

    // Gives the item that it holds to the outputs that come next, as long as there is room, in at most `most` steps.
    // How many. A vector is left to single steps: its copies take memory.
    #[inline(always)]
    fn give_on<E: Ends>(&mut self, outputs: &[usize], ends: &mut E, most: usize) -> usize
        requires outputs { self.old.outputs ≡ length outputs.now }
        requires writes { All (λ e. (E.view ends.old).writes e ≡ true) outputs.now }
        requires kinds { TakeKinds outputs.now (λ _. self.old.kind) (E.view ends.old) }
        ensures same { E.same ends.old ends.new }
        ensures ends { SameEnds (E.view ends.old) (E.view ends.new) }
        ensures within { result ≤ most }
        ensures ports { self.new.outputs ≡ self.old.outputs }
        ensures kind { self.new.kind ≡ self.old.kind }
        ensures went { ForkGave E.Ends outputs.now self.old ends.old self.new ends.new result }
    {
        let item = match &self.held {
            None | Some(Item::Vec(_) | Item::Typed(_)) => return 0,
            Some(item) => copy_of(item),
        };
        // An item of another kind is left to single steps; it holds none.
        if !self.kind.fits(&item) {
            return 0;
        }
        for made in 0..most {
            let edge = outputs[self.next];
            if ends.space(edge) == 0 {
                return made;
            }
            put_copy(ends, edge, &item);
            if self.next + 1 == self.outputs {
                self.held = None;
                return made + 1;
            }
            self.next += 1;
        }
        most
    }

    // Takes the item that is shown, where it holds none, if `most` is not 0. How many steps.
    #[inline(always)]
    fn take_on<E: Ends>(
        &mut self,
        inputs: &[usize],
        outputs: &[usize],
        ends: &mut E,
        most: usize,
    ) -> usize
        requires wired { PortsHaveEdges inputs.now outputs.now 1 (length outputs.now)
            (E.view ends.old) }
        ensures same { E.same ends.old ends.new }
        ensures ends { SameEnds (E.view ends.old) (E.view ends.new) }
        ensures within { result ≤ most }
        ensures ports { self.new.outputs ≡ self.old.outputs }
        ensures kind { self.new.kind ≡ self.old.kind }
        ensures went { ForkWent E.Ends inputs.now outputs.now self.old ends.old self.new ends.new
            result }
    {
        if most == 0 || self.held.is_some() {
            return 0;
        }
        let Some(item) = item_shown(ends, inputs[0], self.kind) else {
            return 0;
        };
        take_front(ends, inputs[0]);
        self.held = Some(item);
        self.next = 0;
        1
    }

    // One step after another, at most `most`, for visits into which hardly an instance fits. How many.
    #[inline(never)]
    fn step_on<E: Ends>(
        &mut self,
        inputs: &[usize],
        outputs: &[usize],
        ends: &mut E,
        most: usize,
    ) -> usize
        requires outputs { self.old.outputs ≡ length outputs.now }
        requires wired { PortsHaveEdges inputs.now outputs.now 1 (length outputs.now)
            (E.view ends.old) }
        requires kinds { TakeKinds outputs.now (λ _. self.old.kind) (E.view ends.old) }
        ensures same { E.same ends.old ends.new }
        ensures ends { SameEnds (E.view ends.old) (E.view ends.new) }
        ensures within { result ≤ most }
        ensures went { ForkWent E.Ends inputs.now outputs.now self.old ends.old self.new ends.new
            result }
    {
        let mut made = 0;
        for _ in 0..most {
            made += self.take_on(inputs, outputs, ends, most - made);
            let given = self.give_on(outputs, ends, most - made);
            if given == 0 {
                return made;
            }
            made += given;
        }
        made
    }
}

// How many instances make at most so many steps: each is a step for the item and one for each output. Most forks have two
// outputs, and a division by a number that is known takes less.
#[inline(always)]
fn instances_within(most: usize, outputs: usize) -> usize
    ensures { result + outputs * result ≤ most }
{
    if most <= outputs {
        return 0;
    }
    if outputs == 2 {
        return most / 3;
    }
    most / (outputs + 1)
}

// Copies items of the kind that are shown to the block, at most `room`. How many.
#[inline(always)]
fn copy_shown(kind: Kind, shown: Items<'_>, room: usize, block: &mut Written) -> usize
    requires places { room ≤ 256 }
    ensures room { result ≤ room }
    ensures copied { Copied kind result (item_signals shown.entry) block.new }
{
    match kind {
        Kind::Unit => shown.units().min(room),
        Kind::Bool => {
            let flags = shown.flags();
            let count = flags.len().min(room);
            block.flags[..count].copy_from_slice(&flags[..count]);
            count
        }
        Kind::Int => {
            let ints = shown.ints();
            let count = ints.len().min(room);
            block.ints[..count].copy_from_slice(&ints[..count]);
            count
        }
        Kind::Vec => 0,
    }
}

// Another item that carries the same. It takes no memory, and so cannot fail.
#[inline(always)]
fn copy_of(item: &Item) -> Item
    requires scalar { is_of Kind.Vec (cell_of item.now) ≡ false }
    ensures { cell_of result ≡ cell_of item.now }
{
    match item {
        Item::Unit => Item::Unit,
        Item::Bool(truth) => Item::Bool(*truth),
        Item::Int(number) => Item::Int(*number),
        Item::Vec(_) | Item::Typed(_) => unreachable!(),
    }
}

// Puts a copy of the item, where there is room: mostly a block of one, which needs no message.
#[inline(always)]
fn put_copy<E: Ends>(ends: &mut E, edge: usize, item: &Item)
    requires scalar { is_of Kind.Vec (cell_of item.now) ≡ false }
    requires writes { (E.view ends.old).writes edge ≡ true }
    requires fits { FitsEdge ((E.view ends.old).kind edge) (carry (cell_of item.now)) }
    requires certain { 0 < (E.view ends.old).room edge }
    ensures same { E.same ends.old ends.new }
    ensures wrote { Wrote (E.view ends.old) edge (carry (cell_of item.now)) (E.view ends.new) }
{
    match item {
        Item::Unit => ends.put_all(edge, Items::Units(1)),
        Item::Bool(truth) => ends.put_all(edge, Items::Flags(&[*truth])),
        Item::Int(number) => match i64::try_from(*number) {
            Ok(narrow) => ends.put_all(edge, Items::Ints(&[narrow])),
            Err(_) => put_in_space(ends, edge, Msg::Item(Item::Int(*number))),
        },
        Item::Vec(_) | Item::Typed(_) => unreachable!(),
    }
}

// The item of this kind that comes first on the edge, where one is shown.
#[inline(always)]
fn item_shown<E: Ends>(ends: &E, edge: usize, kind: Kind) -> Option<Item>
    requires { (E.view ends.now).reads edge ≡ true }
    ensures first { IfSome result (λ x. ItemComes (E.view ends.now) edge x) }
    ensures leads { IfSome result (λ x. (others : ℕ) → ItemIsHeld kind x others) }
{
    let items = ends.shown(edge);
    if items.len() == 0 {
        return None;
    }
    match items.message(0) {
        Msg::Item(item) if kind.fits(&item) => Some(item),
        _ => None,
    }
}

impl Worker for Fork {
    ghost use Rattle.flow_scalar.specs.ForkMachine.{ForkPorts, fork_ports, ForkState, fork_state, fork_machine, is_scalar_kind};
    ghost use Rattle.flow_scalar.specs.laws.Fork.{fork_laws};

    ghost Parameters = { ForkPorts };

    ghost State = { ForkState };

    ghost state = { λ n. (fork_ports n.kind n.outputs, fork_state n.outputs n.next n.held) };

    ghost machine = { fork_machine };

    ghost passes = { λ p. is_scalar_kind p.kind };

    ghost laws = { fork_laws };

    #[inline(always)]
    fn ask(&self) -> Ask {
        match self.held {
            None => Ask::Begin,
            Some(_) => Ask::Give(self.next),
        }
    }

    fn inputs(&self) -> usize {
        1
    }

    fn outputs(&self) -> usize {
        self.outputs
    }

    fn kind_in(&self, _port: usize) -> Kind {
        self.kind
    }

    fn kind_out(&self, _port: usize) -> Kind {
        self.kind
    }

    fn passes(&self) -> bool {
        !matches!(self.kind, Kind::Vec)
    }

    fn follows(&self, item: Flat) -> Option<Flat> {
        Some(item)
    }

    #[inline(always)]
    fn take(&mut self, item: Item) -> Result<(), Stop> {
        if !self.kind.fits(&item) {
            return Err(Stop::Faulted(FaultKind::Shape));
        }
        self.held = Some(item);
        self.next = 0;
        Ok(())
    }

    #[inline(always)]
    fn give(&mut self) -> Result<Item, AllocError> {
        if self.next + 1 < self.outputs {
            let copy = match &self.held {
                Some(item) => item.copy()?,
                None => unreachable!(),
            };
            self.next += 1;
            return Ok(copy);
        }
        match self.held.take() {
            Some(item) => Ok(item),
            None => unreachable!(),
        }
    }

    fn is_between(&self) -> bool {
        self.held.is_none()
    }

    // An item is a step, and so is each of its copies.
    #[inline(always)]
    fn along(
        &mut self,
        first: Items<'_>,
        second: Items<'_>,
        block: &mut Written,
        space: usize,
        most: usize,
    ) -> Moved {
        if self.held.is_some() {
            return Moved::nothing();
        }
        let room = space.min(instances_within(most, self.outputs));
        let count = copy_shown(self.kind, first, room, block);
        Moved {
            first: count,
            second: 0,
            units: count,
            flags: count,
            ints: count,
            steps: count + self.outputs * count,
        }
    }

    // Where hardly an instance fits, it goes on from within one.
    #[inline(always)]
    fn blocks<E: Ends>(
        &mut self,
        inputs: &[usize],
        outputs: &[usize],
        ends: &mut E,
        most: usize,
    ) -> usize {
        if most / 2 > outputs.len() {
            return 0;
        }
        self.step_on(inputs, outputs, ends, most)
    }
}
