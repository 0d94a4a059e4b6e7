// Two sequences of segments, joined place by place.

ghost use Rattle.std.specs.Prelude.{◌≡◌, false};

use flow_base::{Ask, Stop, Worker};
use flow_messages::{Flat, Item, Kind};
use snesl_data::FaultKind;
use std::alloc::AllocError;
use std::mem;

// Whose segment is copied.
#[derive(Clone, Copy, Debug)]
enum Side {
    Left,
    Right,
}

// How far a pair of segments is.
#[derive(Debug, Drop)]
enum Turn {
    // It is between two pairs.
    Start,
    // A flag of this side comes next.
    Flag(Side),
    // An item of this side comes next.
    Item(Side),
    // This item of this side is to be written.
    Copy(Side, Item),
}

impl Turn {
    ghost use Rattle.flow_segment.specs.InterleaveMachine.{interleave_state, after_flag};

    // After a flag of this side, which ends its segment or not.
    fn after_flag(side: Side, ends: bool) -> Turn
        ensures { interleave_state result ≡ after_flag side ends }
    {
        match (side, ends) {
            (_, false) => Turn::Item(side),
            (Side::Left, true) => Turn::Flag(Side::Right),
            (Side::Right, true) => Turn::Start,
        }
    }
}

/// Reads pairs of segments, with the items of both, and writes the items of the left one and then those of the right
/// one. A pair of segments is an instance.
///
/// Reads port 0, the flags of the left, port 1, those of the right, port 2, the items of the left, and port 3, those of
/// the right, all of one kind; writes port 0, of that kind. Fault: `Shape` where an item is of another kind. Row:
/// `InterleaveRow` (specs/Rows.antt).
#[derive(Debug, Drop)]
pub struct Interleave {
    kind: Kind,
    turn: Turn,
}

impl Interleave {
    ghost use Rattle.flow_segment.specs.InterleaveMachine.{at_start};

    /// A worker for items of this kind, before its first pair of segments.
    pub fn new(kind: Kind) -> Interleave
        ensures { ⟦<Interleave as Worker>⟧.state result ≡ (kind, at_start) }
    {
        Interleave {
            kind,
            turn: Turn::Start,
        }
    }
}

impl Worker for Interleave {
    ghost use Rattle.flow_messages.specs.declared.message.Kind.{Kind};
    ghost use Rattle.flow_segment.specs.InterleaveMachine.{InterleaveState, interleave_machine, interleave_view};
    ghost use Rattle.flow_segment.specs.laws.Interleave.{interleave_laws};

    ghost Parameters = { Kind };

    ghost State = { InterleaveState };

    ghost state = { interleave_view };

    ghost machine = { interleave_machine };

    ghost passes = { λ _. false };

    ghost laws = { interleave_laws };

    #[inline(always)]
    fn ask(&self) -> Ask {
        match self.turn {
            Turn::Start => Ask::Begin,
            Turn::Flag(Side::Left) => Ask::Take(0),
            Turn::Flag(Side::Right) => Ask::Take(1),
            Turn::Item(Side::Left) => Ask::Take(2),
            Turn::Item(Side::Right) => Ask::Take(3),
            Turn::Copy(_, _) => Ask::Give(0),
        }
    }

    fn inputs(&self) -> usize {
        4
    }

    fn outputs(&self) -> usize {
        1
    }

    fn kind_in(&self, port: usize) -> Kind {
        match port {
            0 | 1 => Kind::Bool,
            _ => self.kind,
        }
    }

    fn kind_out(&self, _port: usize) -> Kind {
        self.kind
    }

    fn passes(&self) -> bool {
        false
    }

    // It is not asked.
    fn follows(&self, _item: Flat) -> Option<Flat> {
        None
    }

    #[inline(always)]
    fn take(&mut self, item: Item) -> Result<(), Stop> {
        if let Turn::Item(side) = self.turn {
            if !self.kind.fits(&item) {
                return Err(Stop::Faulted(FaultKind::Shape));
            }
            self.turn = Turn::Copy(side, item);
            return Ok(());
        }
        let side = match self.turn {
            Turn::Flag(side) => side,
            _ => Side::Left,
        };
        match item {
            Item::Bool(ends) => {
                self.turn = Turn::after_flag(side, ends);
                Ok(())
            }
            _ => Err(Stop::Faulted(FaultKind::Shape)),
        }
    }

    #[inline(always)]
    fn give(&mut self) -> Result<Item, AllocError> {
        match mem::replace(&mut self.turn, Turn::Start) {
            Turn::Copy(side, item) => {
                self.turn = Turn::Flag(side);
                Ok(item)
            }
            _ => unreachable!(),
        }
    }
}
