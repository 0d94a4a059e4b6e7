// The items that are to be kept.

ghost use Rattle.std.specs.Prelude.{◌≡◌, ◌≤◌, false, length, take};
ghost use Rattle.flow_segment.specs.PackMachine.{kept, trues};

use flow_base::{Ask, Moved, Stop, Worker, Written};
use flow_messages::{Flat, Item, Items, Kind};
use snesl_data::FaultKind;
use std::alloc::AllocError;
use std::mem;

// How far a truth value and its item are.
#[derive(Debug, Drop)]
enum Pair {
    // A truth value comes next.
    Start,
    // The item comes next, and is kept where this is true.
    Item(bool),
    // This item is to be written.
    Copy(Item),
}

/// Reads a truth value and an item, and writes the item where the truth value is true. Each such pair is an instance.
///
/// Reads port 0, truth values, and port 1, items of one kind; writes port 0, of that kind. Fault: `Shape` where an item
/// is of another kind. Row: `PackRow` (specs/Rows.antt).
#[derive(Debug, Drop)]
pub struct Pack {
    kind: Kind,
    pair: Pair,
}

// Puts the items that are kept side by side, at the front of the block. How many they are.
#[inline(always)]
fn keep<T: Copy>(truths: &[bool], items: &[T], block: &mut [T]) -> usize
    requires items { length items.now ≡ length truths.now }
    requires block { length truths.now ≤ length block.old }
    ensures within { result ≤ length truths.now }
    ensures kept { take result block.new ≡ kept truths.now items.now }
{
    let mut count = 0;
    for at in 0..truths.len() {
        // Each item is put, since a jump for each truth value costs more. The next takes the place of one that is dropped.
        block[count] = items[at];
        count += usize::from(truths[at]);
    }
    count
}

// How many of the truth values are true.
#[inline(always)]
fn trues_in(truths: &[bool]) -> usize
    ensures trues { result ≡ trues truths.now }
    ensures within { result ≤ length truths.now }
{
    let mut found = 0;
    for at in 0..truths.len() {
        found += usize::from(truths[at]);
    }
    found
}

impl Pack {
    ghost use Rattle.flow_segment.specs.PackMachine.{at_start};

    /// A worker for items of this kind, before its first pair.
    pub fn new(kind: Kind) -> Pack
        ensures { ⟦<Pack as Worker>⟧.state result ≡ (kind, at_start) }
    {
        Pack {
            kind,
            pair: Pair::Start,
        }
    }
}

impl Worker for Pack {
    ghost use Rattle.flow_messages.specs.declared.message.Kind.{Kind};
    ghost use Rattle.flow_segment.specs.PackMachine.{PackState, pack_machine, pack_view};
    ghost use Rattle.flow_segment.specs.laws.Pack.{pack_laws};

    ghost Parameters = { Kind };

    ghost State = { PackState };

    ghost state = { pack_view };

    ghost machine = { pack_machine };

    ghost passes = { λ _. false };

    ghost laws = { pack_laws };

    #[inline(always)]
    fn ask(&self) -> Ask {
        match self.pair {
            Pair::Start => Ask::Begin,
            Pair::Item(_) => Ask::Take(1),
            Pair::Copy(_) => Ask::Give(0),
        }
    }

    fn inputs(&self) -> usize {
        2
    }

    fn outputs(&self) -> usize {
        1
    }

    fn kind_in(&self, port: usize) -> Kind {
        match port {
            0 => Kind::Bool,
            _ => self.kind,
        }
    }

    fn kind_out(&self, _port: usize) -> Kind {
        self.kind
    }

    fn passes(&self) -> bool {
        false
    }

    // It is not asked.
    fn follows(&self, _item: Flat) -> Option<Flat> {
        None
    }

    #[inline(always)]
    fn take(&mut self, item: Item) -> Result<(), Stop> {
        if let Pair::Item(keep) = self.pair {
            if !self.kind.fits(&item) {
                return Err(Stop::Faulted(FaultKind::Shape));
            }
            self.pair = if keep { Pair::Copy(item) } else { Pair::Start };
            return Ok(());
        }
        match item {
            Item::Bool(keep) => {
                self.pair = Pair::Item(keep);
                Ok(())
            }
            _ => Err(Stop::Faulted(FaultKind::Shape)),
        }
    }

    #[inline(always)]
    fn give(&mut self) -> Result<Item, AllocError> {
        match mem::replace(&mut self.pair, Pair::Start) {
            Pair::Copy(item) => Ok(item),
            _ => unreachable!(),
        }
    }

    fn is_between(&self) -> bool {
        matches!(self.pair, Pair::Start)
    }

    // A pair that is kept is three steps, and one that is not is two.
    #[inline(always)]
    fn along(
        &mut self,
        first: Items<'_>,
        second: Items<'_>,
        block: &mut Written,
        space: usize,
        most: usize,
    ) -> Moved {
        let Pair::Start = self.pair else {
            return Moved::nothing();
        };
        let truths = first.flags();
        let room = truths.len().min(space).min(most / 3);
        match self.kind {
            Kind::Int => {
                let items = second.ints();
                let whole = room.min(items.len());
                let count = keep(&truths[..whole], &items[..whole], &mut block.ints);
                Moved {
                    first: whole,
                    second: whole,
                    units: 0,
                    flags: 0,
                    ints: count,
                    steps: 2 * whole + count,
                }
            }
            Kind::Bool => {
                let items = second.flags();
                let whole = room.min(items.len());
                let count = keep(&truths[..whole], &items[..whole], &mut block.flags);
                Moved {
                    first: whole,
                    second: whole,
                    units: 0,
                    flags: count,
                    ints: 0,
                    steps: 2 * whole + count,
                }
            }
            Kind::Unit => {
                let items = second.units();
                let whole = room.min(items);
                let count = trues_in(&truths[..whole]);
                Moved {
                    first: whole,
                    second: whole,
                    units: count,
                    flags: 0,
                    ints: 0,
                    steps: 2 * whole + count,
                }
            }
            Kind::Vec => Moved::nothing(),
        }
    }
}
