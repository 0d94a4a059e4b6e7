// Running a share: turn after turn.
ghost use Rattle.std.specs.Prelude.{◌≡◌, ◌<◌, true, false, [], ◌∷◌, ◌++◌, length, IfOk, OnErr};
ghost use Rattle.std.specs.List.{All};
ghost use Rattle.flow_messages.specs.Ends.{SameEnds};
ghost use Rattle.flow_networks.specs.Skeletons.{AreSamePlaces};
ghost use Rattle.flow_shares.specs.Pumps.{IsPumped, ShareIsStuck, ShareIsCalm, ShareRanOn, ShareLost, ShareRanApart, ShareRanOften};
ghost use Rattle.flow_shares.specs.Shares.{most_turns, HasItsEnds, AreApart, IsOwn, TakesMemory};
ghost use Rattle.flow_shares.specs.Running.{HeardEachTurn, NoneMoved, SomeMoved, NoneCanMove, MovesIfItCan, RanOn, RanAndLost, RanApart, OftenIfSpent};

use crate::gate::Gate;
use crate::over::are_over;
use crate::pass::pass;
use crate::share::Share;
use flow_base::Transducer;
use flow_messages::Ends;
use flow_messages::history::History;
use flow_networks::Placed;
use std::alloc::AllocError;
use std::thread;

/// The most turns of a pump.
pub const MAX_TURNS: usize = 65_536;

/// Visits the nodes of a share in turns, in ascending order and with at most `chunk` steps each, and gives the share back.
///
/// It ends after `idle_turns` turns in a row that moved nothing, or after one where all nodes are over: then no node can
/// step by what its ends are certain of, and nothing that was put is kept back. It ends at once where the share has no
/// node; after [`MAX_TURNS`] turns, and then the share is spent; and where memory was refused to a node, and then the share
/// is starved. The gate is called before each turn. Nodes at the front that are over are not visited again.
pub fn pump<T: Transducer, E: Ends, G: Gate>(
    share: Share<T, E>,
    chunk: usize,
    idle_turns: usize,
    gate: &G,
) -> Share<T, E>
    requires some { 0 < chunk }
    requires idle { 0 < idle_turns }
    requires fed { share.starved ≡ false }
    ensures pumped { IsPumped share result }
    ensures starves { result.starved ≡ true → TakesMemory result.nodes.items }
    ensures spent { result.spent ≡ true → result.starved ≡ false }
    ensures often { result.spent ≡ true → ShareRanOften share result idle_turns }
    ensures heard { result.spent ≡ true → HeardEachTurn G.heard gate.now share.number }
    ensures none { length share.nodes.items ≡ 0 → result.spent ≡ false }
{
    after_turns(share, chunk, idle_turns, gate)
}

// The share after its turns: what a pump promises, clause by clause.
fn after_turns<T: Transducer, E: Ends, G: Gate>(
    share: Share<T, E>,
    chunk: usize,
    idle_turns: usize,
    gate: &G,
) -> Share<T, E>
    requires some { 0 < chunk }
    requires idle { 0 < idle_turns }
    requires fed { share.starved ≡ false }
    ensures number { result.number ≡ share.number }
    ensures places { AreSamePlaces share.nodes.items result.nodes.items }
    ensures same { E.same share.ends result.ends }
    ensures ends { SameEnds (E.view share.ends) (E.view result.ends) }
    ensures moved { result.starved ≡ false → ShareRanOn share result }
    ensures spares { result.starved ≡ false → ShareRanApart share result }
    ensures lost { result.starved ≡ true → ShareLost share result }
    ensures busy { result.starved ≡ false → result.moved ≡ true → ShareIsCalm share result → ⊥ }
    ensures calm { result.starved ≡ false → result.moved ≡ false → ShareIsCalm share result }
    ensures progress { result.starved ≡ false → ShareIsCalm share result → ShareIsStuck share }
    ensures rest { result.starved ≡ false → result.spent ≡ false → ShareIsStuck result }
    ensures out { result.starved ≡ false → result.spent ≡ false → E.all_out result.ends }
    ensures starves { result.starved ≡ true → TakesMemory result.nodes.items }
    ensures spent { result.spent ≡ true → result.starved ≡ false }
    ensures often { result.spent ≡ true → ShareRanOften share result idle_turns }
    ensures heard { result.spent ≡ true → HeardEachTurn G.heard gate.now share.number }
    ensures none { length share.nodes.items ≡ 0 → result.spent ≡ false }
{
    let Share {
        number,
        mut nodes,
        mut ends,
        ..
    } = share;
    match take_turns(number, &mut nodes, &mut ends, chunk, idle_turns, gate) {
        Ok(Turns { spent, moved }) => Share {
            number,
            nodes,
            ends,
            spent,
            starved: false,
            moved,
        },
        Err(_) => Share {
            number,
            nodes,
            ends,
            spent: false,
            starved: true,
            moved: false,
        },
    }
}

// What came of the turns of a share.
struct Turns {
    // Whether all were made that may be, and it did not come to rest.
    spent: bool,
    // Whether one moved a message.
    moved: bool,
}

// Tells the gate of the next turn. Its number is that of the turns made before it, which only proofs keep.
fn begin_turn<G: Gate>(gate: &G, share: usize, turn: usize, made: &mut History<usize>)
    requires few { turn < most_turns }
    requires counted { turn ≡ length made.old.items }
    ensures heard { G.heard gate.now share turn }
    ensures made { made.new.items ≡ made.old.items ++ turn ∷ [] }
{
    gate.turn(share, turn);
    *made = made.with(&turn);
}

// Visits each node as `pass` does, and puts out what the ends keep back where none made a step: it is all that another thread may
// wait for. Whether one made a step.
fn pass_or_put_out<T: Transducer, E: Ends>(
    nodes: &mut Vec<Placed<T>>,
    ends: &mut E,
    chunk: usize,
) -> Result<bool, AllocError>
    requires some { 0 < chunk }
    requires there { All (HasItsEnds (E.view ends.old)) nodes.old.items }
    requires apart { AreApart nodes.old.items }
    requires own { All (IsOwn (E.view ends.old)) nodes.old.items }
    ensures places { AreSamePlaces nodes.old.items nodes.new.items }
    ensures same { E.same ends.old ends.new }
    ensures ends { SameEnds (E.view ends.old) (E.view ends.new) }
    ensures moved { IfOk result (λ any. RanOn E.view nodes.old ends.old nodes.new ends.new) }
    ensures spares { IfOk result (λ _. RanApart E.view nodes.old ends.old nodes.new ends.new) }
    ensures lost { OnErr result (RanAndLost E.view nodes.old ends.old nodes.new ends.new) }
    ensures starves { OnErr result (TakesMemory nodes.new.items) }
    ensures busy { IfOk result (λ any. any ≡ true → SomeMoved E.view ends.old ends.new) }
    ensures calm { IfOk result (λ any. any ≡ false → NoneMoved E.view ends.old ends.new) }
    ensures stuck { IfOk result (λ any. any ≡ false → NoneCanMove E.view nodes.old ends.old) }
    ensures rest { IfOk result (λ any. any ≡ false → NoneCanMove E.view nodes.new ends.new) }
    ensures out { IfOk result (λ any. any ≡ false → E.all_out ends.new) }
{
    if pass(nodes, ends, chunk)? {
        return Ok(true);
    }
    ends.put_out(); // before the thread rests
    Ok(false)
}

// The longest pause, in yields.
const LONGEST_PAUSE: usize = 8;

// Lets other threads go first: the longer, the more turns in a row moved nothing.
fn pause(idle: usize) {
    for _ in 0..idle.min(LONGEST_PAUSE) {
        thread::yield_now();
    }
}

/// Makes turns until `idle_turns` in a row moved nothing, or one where all nodes are over, and at most [`MAX_TURNS`].
///
/// An error where memory was refused to a node.
fn take_turns<T: Transducer, E: Ends, G: Gate>(
    number: usize,
    nodes: &mut Vec<Placed<T>>,
    ends: &mut E,
    chunk: usize,
    idle_turns: usize,
    gate: &G,
) -> Result<Turns, AllocError>
    requires some { 0 < chunk }
    requires idle { 0 < idle_turns }
    requires there { All (HasItsEnds (E.view ends.old)) nodes.old.items }
    requires apart { AreApart nodes.old.items }
    requires own { All (IsOwn (E.view ends.old)) nodes.old.items }
    ensures places { AreSamePlaces nodes.old.items nodes.new.items }
    ensures same { E.same ends.old ends.new }
    ensures ends { SameEnds (E.view ends.old) (E.view ends.new) }
    ensures moved { IfOk result (λ turns. RanOn E.view nodes.old ends.old nodes.new ends.new) }
    ensures spares { IfOk result (λ _. RanApart E.view nodes.old ends.old nodes.new ends.new) }
    ensures lost { OnErr result (RanAndLost E.view nodes.old ends.old nodes.new ends.new) }
    ensures busy { IfOk result (λ turns. turns.moved ≡ true → SomeMoved E.view ends.old ends.new) }
    ensures calm { IfOk result (λ turns. turns.moved ≡ false → NoneMoved E.view ends.old ends.new) }
    ensures progress { IfOk result (λ _. MovesIfItCan E.view nodes.old ends.old ends.new) }
    ensures rest { IfOk result (λ turns. turns.spent ≡ false →
        NoneCanMove E.view nodes.new ends.new) }
    ensures out { IfOk result (λ turns. turns.spent ≡ false → E.all_out ends.new) }
    ensures starves { OnErr result (TakesMemory nodes.new.items) }
    ensures often { IfOk result (OftenIfSpent E.view nodes.old ends.old nodes.new ends.new idle_turns) }
    ensures heard { IfOk result (λ turns. turns.spent ≡ true →
        HeardEachTurn G.heard gate.now number) }
    ensures none { IfOk result (λ turns. length nodes.old.items ≡ 0 → turns.spent ≡ false) }
{
    if nodes.is_empty() {
        ends.put_out();
        return Ok(Turns {
            spent: false,
            moved: false,
        });
    }
    let (mut idle, mut moved) = (0, false);
    let mut made: History<usize> = History::new();
    for turn in 0..MAX_TURNS {
        begin_turn(gate, number, turn, &mut made);
        if pass_or_put_out(nodes, ends, chunk)? {
            idle = 0;
            moved = true;
        } else {
            idle += 1;
            if idle == idle_turns || are_over(nodes) {
                return Ok(Turns {
                    spent: false,
                    moved,
                });
            }
            // Nothing is certain here: another thread may have a message or room for it.
            pause(idle);
        }
    }
    Ok(Turns { spent: true, moved })
}
