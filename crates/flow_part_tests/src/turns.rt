// The numbers of turns, and how many are idle in a row.
ghost use Rattle.std.specs.Prelude.{◌<◌};

use crate::pairs::second_and_first;
use flow_base::Transducer;
use flow_edges::lanes::Rings;
use flow_shares::{Gate, NoGate, Share, pump};
use std::cell::Cell;
use std::test::Fail;

// The shares and the turns of the calls, in order; 9 where there was no call.
#[derive(Drop)]
struct Told {
    calls: Cell<usize>,
    shares: Cell<[usize; 6]>,
    turns: Cell<[usize; 6]>,
}

impl Gate for Told {
    fn turn(&self, share: usize, turn: usize) {
        let call = self.calls.get();
        let (mut shares, mut turns) = (self.shares.get(), self.turns.get());
        if call < 6 {
            shares[call] = share;
            turns[call] = turn;
        }
        self.calls.set(call.wrapping_add(1));
        self.shares.set(shares);
        self.turns.set(turns);
    }
}

// What the gate of a pump is told, which has one step a turn and four idle turns.
#[derive(Clone, Copy)]
struct Pumped {
    // A source and a sink of it.
    sketch: &'static str,
    calls: usize,
    shares: [usize; 6],
    turns: [usize; 6],
}

const PUMPS: [Pumped; 2] = [
    // One turn puts the one message for which there is room, and four are idle.
    Pumped {
        sketch: "node 0 source units 3\nnode 0 sink unit\nedge 0.0 1.0",
        calls: 5,
        shares: [1, 1, 1, 1, 1, 9],
        turns: [0, 1, 2, 3, 4, 9],
    },
    // One turn puts the end, for which there is room, and one finds the source over.
    Pumped {
        sketch: "node 0 source units 0\nnode 0 sink unit\nedge 0.0 1.0",
        calls: 2,
        shares: [1, 1, 9, 9, 9, 9],
        turns: [0, 1, 9, 9, 9, 9],
    },
];

// Whether the second of two shares moves a message in such a pump, and whether it is spent then.
fn second_pumped<T: Transducer + Drop>(
    mut shares: Vec<Share<T, Rings>>,
    gate: &Told,
) -> Option<(bool, bool)> {
    if shares.len() != 2 {
        return None;
    }
    let second = shares.swap_remove(1);
    if second.starved() {
        return None;
    }
    let second = pump(second, 1, 4, gate);
    Some((second.moved(), second.spent()))
}

#[test]
fn gate_hears_each_turn_of_a_pump_by_its_number(rt: HostRuntime) -> Result<(), Fail> {
    for pumped in PUMPS {
        let gate = Told {
            calls: Cell::new(0),
            shares: Cell::new([9; 6]),
            turns: Cell::new([9; 6]),
        };
        let ends = second_pumped(second_and_first(rt.alloc(), pumped.sketch)?, &gate);
        let told = (gate.calls.get(), gate.shares.get(), gate.turns.get());
        let wanted = (pumped.calls, pumped.shares, pumped.turns);
        assert_eq!(rt; (ends, told), (Some((true, false)), wanted));
    }
    Ok(())
}

// Counts the turns of a share, and before each of an even number has another share pumped, which takes what was put.
#[derive(Drop)]
struct Taker<T: Transducer> {
    other: Cell<Option<Share<T, Rings>>>,
    turns: Cell<usize>,
}

impl<T: Transducer + Drop> Gate for Taker<T> {
    fn turn(&self, _: usize, turn: usize) {
        self.turns.set(self.turns.get().wrapping_add(1));
        if turn % 2 == 1 {
            return;
        }
        if let Some(other) = self.other.replace(None)
            && !other.starved()
        {
            self.other.set(Some(pump(other, 1, 1, &NoGate)));
        }
    }
}

// How many turns the second of two shares makes where the first takes what it puts before each other one, and whether it is
// spent then.
fn turns_beside<T: Transducer + Drop>(
    mut shares: Vec<Share<T, Rings>>,
    idle_turns: usize,
) -> Option<(usize, bool)>
    requires { 0 < idle_turns }
{
    if shares.len() != 2 {
        return None;
    }
    let source = shares.swap_remove(1);
    if source.starved() {
        return None;
    }
    let taker = Taker {
        other: Cell::new(Some(shares.swap_remove(0))),
        turns: Cell::new(0),
    };
    let source = pump(source, 1, idle_turns, &taker);
    Some((taker.turns.get(), source.spent()))
}

// Three units and an end move in turns 0, 2, 4 and 6, between which there is no room. So two idle turns never come in a row, and
// turn 7 finds the source over.
#[test]
fn idle_turns_are_counted_in_a_row(rt: HostRuntime) -> Result<(), Fail> {
    let sketch = "node 0 source units 3\nnode 0 sink unit\nedge 0.0 1.0";
    let told = [
        turns_beside(second_and_first(rt.alloc(), sketch)?, 1),
        turns_beside(second_and_first(rt.alloc(), sketch)?, 2),
        turns_beside(second_and_first(rt.alloc(), sketch)?, 3),
    ];
    assert_eq!(rt;
        told,
        [Some((2, false)), Some((8, false)), Some((8, false))]
    );
    Ok(())
}
