// An item for each element of a segment.

ghost use Rattle.std.specs.Prelude.{◌≡◌, ◌*◌, ◌<◌, ◌≤◌, ℕ, ℤ, FitsSigned, true, false, [], ◌∷◌, get_or, length, pos, replicate, IfNone, IfSome};
ghost use Rattle.std.specs.Int.{w64};
ghost use mathlib.Core.List.{IsPrefix};
ghost use Rattle.flow_messages.specs.Cells.{cell_of, flag, int, is_of};
ghost use Rattle.flow_messages.specs.Ends.{SameEnds, PutAll, TakenAll};
ghost use Rattle.flow_messages.specs.Kinds.{FitsEdge, TakesKind};
ghost use Rattle.flow_messages.specs.Signals.{carry};
ghost use Rattle.flow_messages.specs.declared.message.Kind.TheVariants.{Vec as VecKind};
ghost use Rattle.flow_base.specs.Nodes.{behaviour_of, node_state};
ghost use Rattle.flow_base.specs.Visits.{edge_of, PortsHaveEdges, Went};
ghost use Rattle.flow_base.specs.declared.node.Phase.TheVariants.{Working};
ghost use Rattle.flow_segment.specs.DistMachine.{dist_machine, dist_view};
ghost use Rattle.flow_segment.specs.DistSteps.{DistWent, PutCopies, TookItem};

use flow_base::{Ask, BLOCK, SHORT_BLOCK, Stop, Worker, put_in_space, take_front};
use flow_messages::{Ends, Flat, Item, Items, Kind, Msg};
use snesl_data::FaultKind;
use std::alloc::AllocError;

/// Reads an item and a segment, and writes the item once for each element of the segment. Each such pair is an
/// instance.
///
/// Reads port 0, items of one kind, and port 1, flags; writes port 0, items of that kind. Fault: `Shape` where an item
/// is of another kind.
///
/// Each item that is written is a copy, which shares the elements of a vector. Where a copy is refused, nothing was
/// written, and the same copy is next.
///
/// Row: `DistRow` (specs/Rows.antt).
#[derive(Drop)]
pub struct Dist {
    kind: Kind,
    held: Option<Item>,
    // Whether a copy of the held item is to be written.
    copies: bool,
}

// Truth values that are copied.
const TRUES: [bool; BLOCK] = [true; BLOCK];

const FALSES: [bool; BLOCK] = [false; BLOCK];

// Puts the integer in each place.
#[inline(always)]
fn fill(places: &mut [i64], value: i64)
    ensures length { length places.new ≡ length places.old }
    ensures filled { (k : ℕ) → k < length places.old → get_or places.new k (pos 0) ≡ value }
{
    for place in 0..places.len() {
        places[place] = value;
    }
}

// How many flags at the front stand for elements, up to so many.
#[inline(always)]
fn elements_ahead(flags: &[bool], most: usize) -> usize
    ensures most { result ≤ most }
    ensures shown { result ≤ length flags.now }
    ensures ahead { (k : ℕ) → k < result → get_or flags.now k true ≡ false }
{
    let least = most.min(flags.len());
    for place in 0..least {
        if flags[place] {
            return place;
        }
    }
    least
}

// Whether the flag at this place is shown and ends a segment.
#[inline(always)]
fn ends_at(flags: &[bool], place: usize) -> bool
    ensures shown { result ≡ true → place < length flags.now }
    ensures ends { result ≡ true → get_or flags.now place false ≡ true }
{
    place < flags.len() && flags[place]
}

// Whether copies of the item can be put in a block: it is of this kind, no vector, and no integer of more than 64 bits.
#[inline(always)]
fn fits_a_block(item: &Item, kind: Kind) -> bool
    ensures kind { result ≡ true → is_of kind (cell_of item.now) ≡ true }
    ensures scalar { result ≡ true → is_of VecKind (cell_of item.now) ≡ false }
    ensures narrow { result ≡ true → (n : ℤ) → cell_of item.now ≡ int n → FitsSigned w64 n }
{
    match (kind, item) {
        (Kind::Int, Item::Int(value)) => i64::try_from(*value).is_ok(),
        (Kind::Unit, Item::Unit) | (Kind::Bool, Item::Bool(_)) => true,
        _ => false,
    }
}

// Puts so many copies of an item that fits a block.
#[inline(always)]
fn put_copies<E: Ends>(item: &Item, to: usize, count: usize, ends: &mut E, block: &mut [i64])
    requires scalar { is_of VecKind (cell_of item.now) ≡ false }
    requires narrow { (n : ℤ) → cell_of item.now ≡ int n → FitsSigned w64 n }
    requires block { count ≤ 64 }
    requires lent { count ≤ length block.old }
    requires writes { (E.view ends.old).writes to ≡ true }
    requires kind { FitsEdge ((E.view ends.old).kind to) (carry (cell_of item.now)) }
    requires certain { count ≤ (E.view ends.old).room to }
    ensures same { E.same ends.old ends.new }
    ensures put { PutCopies (E.view ends.old) to count item.now (E.view ends.new) }
{
    match item {
        Item::Unit => ends.put_all(to, Items::Units(count)),
        Item::Bool(truth) => {
            if *truth {
                ends.put_all(to, Items::Flags(&TRUES[..count]));
            } else {
                ends.put_all(to, Items::Flags(&FALSES[..count]));
            }
        }
        Item::Int(value) => {
            let copies = &mut block[..count];
            match i64::try_from(*value) {
                Ok(narrow) => fill(copies, narrow),
                Err(_) => unreachable!(),
            }
            ends.put_all(to, Items::Ints(copies));
        }
        Item::Vec(_) | Item::Typed(_) => unreachable!(),
    }
}

// Takes the item of this kind that is shown in front, where it is no vector.
#[inline(always)]
fn take_shown<E: Ends>(kind: Kind, from: usize, ends: &mut E) -> Option<Item>
    requires reads { (E.view ends.old).reads from ≡ true }
    ensures same { E.same ends.old ends.new }
    ensures none { IfNone result (E.view ends.new ≡ E.view ends.old) }
    ensures taken { IfSome result (λ item.
        TookItem (E.view ends.old) from item (E.view ends.new)) }
    ensures kind { IfSome result (λ item. is_of kind (cell_of item) ≡ true) }
{
    let items = ends.shown(from);
    if items.len() == 0 {
        return None;
    }
    let Msg::Item(item) = items.message(0) else {
        return None;
    };
    if !kind.fits(&item) {
        return None;
    }
    ends.skip(from, 1);
    Some(item)
}

// The flag that comes next on the edge, where it is shown.
#[inline(always)]
fn flag_shown<E: Ends>(ends: &E, edge: usize) -> Option<bool>
    requires { (E.view ends.now).reads edge ≡ true }
    ensures { IfSome result (λ b. IsPrefix (carry (flag b) ∷ []) ((E.view ends.now).coming edge)) }
{
    let [first, ..] = ends.shown(edge).flags() else {
        return None;
    };
    Some(*first)
}

impl Dist {
    ghost use Rattle.flow_segment.specs.DistMachine.{at_start};

    /// A worker for items of this kind, before its first item.
    pub fn new(kind: Kind) -> Dist
        ensures { ⟦<Dist as Worker>⟧.state result ≡ (kind, at_start) }
    {
        Dist {
            kind,
            held: None,
            copies: false,
        }
    }

    // Where no item is held, holds the next, if it is shown. How many steps it made.
    #[inline(always)]
    fn hold_next<E: Ends>(&mut self, inputs: &[usize], outputs: &[usize], ends: &mut E) -> usize
        requires empty { self.old.held ≡ None }
        requires idle { self.old.copies ≡ false }
        requires wired { PortsHaveEdges inputs.now outputs.now 2 1 (E.view ends.old) }
        ensures idle { self.new.copies ≡ false }
        ensures kind { self.new.kind ≡ self.old.kind }
        ensures same { E.same ends.old ends.new }
        ensures ends { SameEnds (E.view ends.old) (E.view ends.new) }
        ensures within { result ≤ 1 }
        ensures went { DistWent E.Ends inputs.now outputs.now self.old ends.old self.new ends.new
            result }
    {
        let Some(item) = take_shown(self.kind, inputs[0], ends) else {
            return 0;
        };
        self.held = Some(item);
        1
    }

    // Writes a copy of the item that is held for the next flag, or lets the item go where that ends its segment. How many
    // steps it made.
    #[inline(always)]
    fn copy_on<E: Ends>(
        &mut self,
        inputs: &[usize],
        outputs: &[usize],
        ends: &mut E,
        most: usize,
    ) -> usize
        requires idle { self.old.copies ≡ false }
        requires some { 0 < most }
        requires wired { PortsHaveEdges inputs.now outputs.now 2 1 (E.view ends.old) }
        requires kind { TakesKind ((E.view ends.old).kind (edge_of outputs.now 0)) self.old.kind }
        ensures idle { self.new.copies ≡ false }
        ensures kind { self.new.kind ≡ self.old.kind }
        ensures same { E.same ends.old ends.new }
        ensures ends { SameEnds (E.view ends.old) (E.view ends.new) }
        ensures within { result ≤ most }
        ensures went { DistWent E.Ends inputs.now outputs.now self.old ends.old self.new ends.new
            result }
    {
        let Some(item) = &self.held else {
            return 0;
        };
        let (flags, to) = (inputs[1], outputs[0]);
        let has_room = ends.room(to);
        let Some(ends_segment) = flag_shown(ends, flags) else {
            return 0;
        };
        if ends_segment {
            take_front(ends, flags);
            self.held = None;
            return 1;
        }
        // An item of another kind, and a copy that is refused, are left to single steps.
        if !has_room || most < 2 || !self.kind.fits(item) {
            return 0;
        }
        let Ok(copy) = item.copy() else {
            return 0;
        };
        take_front(ends, flags);
        put_in_space(ends, to, Msg::Item(copy));
        2
    }

    // Where no item is held, holds the next. Otherwise writes copies for the elements of its segment that are shown, and
    // reads the flag that ends the segment where it comes next. How many steps it made.
    #[inline(always)]
    fn round<E: Ends>(
        &mut self,
        inputs: &[usize],
        outputs: &[usize],
        ends: &mut E,
        most: usize,
        block: &mut [i64],
    ) -> usize
        requires idle { self.old.copies ≡ false }
        requires some { 0 < most }
        requires wired { PortsHaveEdges inputs.now outputs.now 2 1 (E.view ends.old) }
        requires kind { TakesKind ((E.view ends.old).kind (edge_of outputs.now 0)) self.old.kind }
        ensures idle { self.new.copies ≡ false }
        ensures kind { self.new.kind ≡ self.old.kind }
        ensures same { E.same ends.old ends.new }
        ensures ends { SameEnds (E.view ends.old) (E.view ends.new) }
        ensures within { result ≤ most }
        ensures went { DistWent E.Ends inputs.now outputs.now self.old ends.old self.new ends.new
            result }
    {
        let Some(item) = &self.held else {
            return self.hold_next(inputs, outputs, ends);
        };
        let (flags, to) = (inputs[1], outputs[0]);
        // Other copies are written one by one.
        if !fits_a_block(item, self.kind) {
            return self.copy_on(inputs, outputs, ends, most);
        }
        let room = ends.space(to).min(BLOCK).min(block.len()).min(most / 2);
        let shown = ends.shown(flags).flags();
        let count = elements_ahead(shown, room);
        // The flag that ends the segment is taken with those of its elements.
        if count < most - count && ends_at(shown, count) {
            ends.skip(flags, count + 1);
            put_copies(item, to, count, ends, block);
            self.held = None;
            return 2 * count + 1;
        }
        if count == 0 {
            return 0;
        }
        ends.skip(flags, count);
        put_copies(item, to, count, ends, block);
        2 * count
    }

    // Rounds through a block that is lent. Each is an item, or copies of it and the flag that ends its segment. How many steps.
    #[inline(never)]
    fn rounds<E: Ends>(
        &mut self,
        inputs: &[usize],
        outputs: &[usize],
        ends: &mut E,
        most: usize,
        block: &mut [i64],
    ) -> usize
        requires idle { self.old.copies ≡ false }
        requires wired { PortsHaveEdges inputs.now outputs.now 2 1 (E.view ends.old) }
        requires kind { TakesKind ((E.view ends.old).kind (edge_of outputs.now 0)) self.old.kind }
        ensures same { E.same ends.old ends.new }
        ensures ends { SameEnds (E.view ends.old) (E.view ends.new) }
        ensures within { result ≤ most }
        ensures went { DistWent E.Ends inputs.now outputs.now self.old ends.old self.new ends.new
            result }
    {
        let mut made = 0;
        'rounds: loop {
            if made == most {
                return made;
            }
            let steps = self.round(inputs, outputs, ends, most - made, block);
            if steps == 0 {
                return made;
            }
            made += steps;
        }
    }
}

impl Worker for Dist {
    ghost use Rattle.flow_messages.specs.declared.message.Kind.{Kind};
    ghost use Rattle.flow_segment.specs.DistMachine.{DistState, dist_machine, dist_view};
    ghost use Rattle.flow_segment.specs.laws.Dist.{dist_laws};

    ghost Parameters = { Kind };

    ghost State = { DistState };

    ghost state = { dist_view };

    ghost machine = { dist_machine };

    ghost passes = { λ _. false };

    ghost laws = { dist_laws };

    #[inline(always)]
    fn ask(&self) -> Ask {
        match (&self.held, self.copies) {
            (None, _) => Ask::Begin,
            (Some(_), false) => Ask::Take(1),
            (Some(_), true) => Ask::Give(0),
        }
    }

    fn inputs(&self) -> usize {
        2
    }

    fn outputs(&self) -> usize {
        1
    }

    fn kind_in(&self, port: usize) -> Kind {
        match port {
            0 => self.kind,
            _ => Kind::Bool,
        }
    }

    fn kind_out(&self, _port: usize) -> Kind {
        self.kind
    }

    fn passes(&self) -> bool {
        false
    }

    // It is not asked.
    fn follows(&self, _item: Flat) -> Option<Flat> {
        None
    }

    #[inline(always)]
    fn take(&mut self, item: Item) -> Result<(), Stop> {
        if self.held.is_none() {
            if !self.kind.fits(&item) {
                return Err(Stop::Faulted(FaultKind::Shape));
            }
            self.held = Some(item);
            self.copies = false;
            return Ok(());
        }
        match item {
            Item::Bool(false) => self.copies = true,
            Item::Bool(true) => self.held = None,
            _ => return Err(Stop::Faulted(FaultKind::Shape)),
        }
        Ok(())
    }

    #[inline(always)]
    fn give(&mut self) -> Result<Item, AllocError> {
        let copy = match &self.held {
            Some(item) => item.copy()?,
            None => unreachable!(),
        };
        self.copies = false;
        Ok(copy)
    }

    fn is_between(&self) -> bool {
        !self.copies
    }

    #[inline(always)]
    fn blocks<E: Ends>(
        &mut self,
        inputs: &[usize],
        outputs: &[usize],
        ends: &mut E,
        most: usize,
    ) -> usize {
        if self.copies || ends.shown(inputs[1]).flags().is_empty() {
            return 0;
        }
        if most < BLOCK {
            return self.rounds(inputs, outputs, ends, most, &mut [0; SHORT_BLOCK]);
        }
        self.rounds(inputs, outputs, ends, most, &mut [0; BLOCK])
    }
}
