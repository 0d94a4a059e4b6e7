// Shares without nodes.
ghost use Rattle.std.specs.Prelude.{◌≡◌, false, length, IfOk};
ghost use Rattle.std.specs.List.{All};
ghost use Rattle.flow_edges.specs.lanes.Rings.{ends_of};
ghost use Rattle.flow_part_tests.specs.NoEnds.{HasNoEnds};

use flow_base::Transducer;
use flow_edges::lanes::Rings;
use flow_messages::Table;
use flow_networks::Placed;
use flow_scalar::Source;
use flow_shares::meetings::Opening;
use flow_shares::{Gate, NoGate, Share, pump};
use std::alloc::{AllocError, Global};
use std::cell::Cell;
use std::test::Fail;

// A share over rings.
fn bare(alloc: Global, number: usize) -> Result<Share<Source, Rings>, AllocError>
    ensures fed { IfOk result (λ share. share.starved ≡ false) }
    ensures none { IfOk result (λ share. length share.nodes.items ≡ 0) }
    ensures ends { IfOk result (λ share. HasNoEnds (ends_of share.ends)) }
{
    let ends = <Rings as Opening>::none(alloc, &[], 1)?;
    Ok(Share::new(number, Vec::new(alloc), ends))
}

/// The shares of numbers 7 and 3.
pub fn two_bare(alloc: Global) -> Result<Vec<Share<Source, Rings>>, AllocError>
    ensures fed { IfOk result (λ shares. All (λ share. share.starved ≡ false) shares.items) }
    ensures none { IfOk result
        (λ shares. All (λ share. length share.nodes.items ≡ 0) shares.items) }
    ensures ends { IfOk result
        (λ shares. All (λ share. HasNoEnds (ends_of share.ends)) shares.items) }
{
    Ok(vec![in alloc; bare(alloc, 7)?, bare(alloc, 3)?]?)
}

/// The numbers of two shares.
pub fn numbers_of<T: Transducer>(shares: &[Share<T, Rings>]) -> Option<(usize, usize)> {
    match shares {
        [first, second] => Some((first.number(), second.number())),
        _ => None,
    }
}

/// Counts the turns of the share with number 3.
#[derive(Drop)]
struct Count {
    turns: Cell<usize>,
}

impl Gate for Count {
    fn turn(&self, share: usize, turn: usize) {
        if share == 3 && turn == self.turns.get() {
            self.turns.set(turn.wrapping_add(1));
        }
    }
}

#[test]
fn a_share_without_nodes_calls_no_gate(rt: HostRuntime) -> Result<(), Fail> {
    let nodes: Vec<Placed<Source>> = Vec::new(rt.alloc());
    let share = Share::new(3, nodes, Table::new(rt.alloc(), &[], 1)?);
    let gate = Count {
        turns: Cell::new(0),
    };
    let share = pump(share, 8, 2, &gate);
    let once = (
        gate.turns.get(),
        share.number(),
        share.spent(),
        share.starved(),
        share.moved(),
    );
    let share = pump(share, 8, 1, &NoGate);
    let count = share.nodes().len();
    let (nodes, _) = share.into_parts();
    assert_eq!(rt;
        (once, count, nodes.len()),
        ((0, 3, false, false, false), 0, 0)
    );
    Ok(())
}
