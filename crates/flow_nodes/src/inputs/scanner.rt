// The items of one edge, scanned from a text.

ghost use Rattle.std.specs.Prelude.{◌≡◌, ℕ, ◌+◌, ◌<◌, ◌≤◌, false, IsTrue, List, ◌∷◌, ◌++◌, [], length, map, take, IfSome, IfNone, option_to_list};
ghost use Rattle.snesl_values.specs.InputTokens.{next_lexeme, next_at};
ghost use Rattle.snesl_values.specs.Marks.{found_from};
ghost use Rattle.flow_nodes.specs.declared.inputs.turns.Piece.TheVariants.{Flag, Int};
ghost use Rattle.flow_nodes.specs.declared.inputs.turns.Component.{Component};
ghost use Rattle.flow_nodes.specs.declared.inputs.turns.Leaf.{Leaf};
ghost use Rattle.flow_nodes.specs.inputs.Turns.{state, depth_of};
ghost use Rattle.flow_nodes.specs.inputs.Left.{left};
ghost use Rattle.flow_nodes.specs.inputs.Scans.{FindsElement, FindsFlags, FindsInt, FindsInts, FindsPiece};

use crate::inputs::brackets::past;
use crate::inputs::turns::{Component, Leaf, Mode, Piece, State, is_done, made, step_at, turn};
use snesl_values::{Found, Mark, mark_at, sign_mark};

// How many items are scanned at most before they are written.
pub(crate) const BLOCK: usize = 16;

// What was found, if anything was, and where the scan stands then.
#[derive(Clone, Copy, Debug, PartialEq, Eq)]
pub(crate) struct Scanned {
    pub(crate) piece: Option<Piece>,
    pub(crate) at: usize,
    pub(crate) state: State,
}

// How many items were scanned, and where the scan stands after them.
#[derive(Clone, Copy, Debug, PartialEq, Eq)]
pub(crate) struct Ahead {
    pub(crate) count: usize,
    pub(crate) at: usize,
    pub(crate) state: State,
}

// The token that comes next from the offset `at` on, as `mark_at` gives it. A bracket or a comma that
// stands there is known by its byte.
#[inline(always)]
fn next_mark(text: &[u8], at: usize) -> Option<Found>
    requires { at ≤ length text.now }
    ensures next { result ≡ found_from (next_at text.now at) (next_lexeme text.now at) }
    ensures moves { IfSome result (λ found. at < found.end) }
    ensures within { IfSome result (λ found. found.end ≤ length text.now) }
{
    if at == text.len() {
        return None;
    }
    match sign_mark(text[at]) {
        Mark::Other => mark_at(text, at),
        mark => Some(Found { mark, end: at + 1 }),
    }
}

// The next piece that is written from this state and offset on, if there is one, and where the scan
// stands after it.
#[inline(always)]
pub(crate) fn scan(
    text: &[u8],
    way: &[Component],
    leaf: Leaf,
    mut at: usize,
    mut state: State,
) -> Scanned
    requires within { at ≤ length text.now }
    requires shallow { depth_of state.mode ≤ at }
    ensures first { FindsPiece text.now way.now leaf at state result }
    ensures none { IfNone result.piece (left text.now way.now leaf result.at result.state ≡ []) }
    ensures within { result.at ≤ length text.now }
    ensures shallow { depth_of result.state.mode ≤ result.at }
{
    'tokens: loop {
        if is_done(state) {
            return Scanned {
                piece: None,
                at,
                state,
            };
        }
        let (from, mode) = past(text, state.mode, at);
        at = from;
        state.mode = mode;
        match next_mark(text, at) {
            Some(found) => {
                let (piece, next) = turn(way, leaf, state, found.mark, at);
                at = found.end;
                state = next;
                if piece.is_some() {
                    return Scanned { piece, at, state };
                }
            }
            None => {
                return Scanned {
                    piece: None,
                    at,
                    state,
                };
            }
        }
    }
}

// The integer of 64 bits that is written next after an element of a sequence, where it is the next element,
// and the offset after it. The scan stands after an element again. It says what `scan` would, and
// is faster.
#[inline(always)]
fn next_element(
    text: &[u8],
    way: &[Component],
    leaf: Leaf,
    at: usize,
    state: State,
) -> Option<(i64, usize)>
    requires { at ≤ length text.now }
    ensures first { IfSome result (λ found.
        FindsInt text.now way.now leaf at state found.0 found.1) }
    ensures moves { IfSome result (λ found. at < found.1) }
    ensures within { IfSome result (λ found. found.1 ≤ length text.now) }
{
    let (Leaf::Ints, Mode::Behind) = (leaf, state.mode) else {
        return None;
    };
    let Some(Component::Elements) = made(way, state.level) else {
        return None;
    };
    let None = step_at(way, state.level) else {
        return None;
    };
    if at == text.len() {
        return None;
    }
    let Mark::Comma = sign_mark(text[at]) else {
        return None;
    };
    match mark_at(text, at + 1) {
        Some(found) => match found.mark {
            Mark::Number(number) => match i64::try_from(number) {
                Ok(narrow) => Some((narrow, found.end)),
                Err(_) => None,
            },
            _ => None,
        },
        None => None,
    }
}

// Scans the integers of 64 bits that are written next: so many, or as many as come before the end or
// another item.
#[inline(never)]
pub(crate) fn ints_ahead(
    text: &[u8],
    way: &[Component],
    leaf: Leaf,
    mut at: usize,
    mut state: State,
    ints: &mut [i64; BLOCK],
    most: usize,
) -> Ahead
    requires within { at ≤ length text.now }
    requires shallow { depth_of state.mode ≤ at }
    requires block { most ≤ 16 }
    ensures first { FindsInts text.now way.now leaf at state ints.new result }
    ensures most { result.count ≤ most }
    ensures long { length ints.new ≡ 16 }
    ensures within { result.at ≤ length text.now }
    ensures shallow { depth_of result.state.mode ≤ result.at }
{
    for count in 0..most {
        if let Some((number, end)) = next_element(text, way, leaf, at, state) {
            ints[count] = number;
            at = end;
            continue;
        }
        let found = scan(text, way, leaf, at, state);
        match found.piece {
            Some(Piece::Int(item)) => {
                let Ok(narrow) = i64::try_from(item) else {
                    return Ahead { count, at, state };
                };
                ints[count] = narrow;
                at = found.at;
                state = found.state;
            }
            // Nothing is left, and what was passed over need not be passed again.
            None => {
                return Ahead {
                    count,
                    at: found.at,
                    state: found.state,
                };
            }
            Some(_) => return Ahead { count, at, state },
        }
    }
    Ahead {
        count: most,
        at,
        state,
    }
}

// Whether an element ends here, by a comma, of a sequence whose flags are written.
#[inline(always)]
fn is_element_end(text: &[u8], at: usize, mode: Mode) -> bool
    requires { at ≤ length text.now }
    ensures first { IsTrue result → FindsElement text.now at mode }
    ensures within { IsTrue result → at < length text.now }
{
    let Mode::Counting(0) = mode else {
        return false;
    };
    if at == text.len() {
        return false;
    }
    let Mark::Comma = sign_mark(text[at]) else {
        return false;
    };
    true
}

// Scans the truth values that are written next: so many, or as many as come before the end or another
// item.
#[inline(never)]
pub(crate) fn flags_ahead(
    text: &[u8],
    way: &[Component],
    leaf: Leaf,
    mut at: usize,
    mut state: State,
    flags: &mut [bool; BLOCK],
    most: usize,
) -> Ahead
    requires within { at ≤ length text.now }
    requires shallow { depth_of state.mode ≤ at }
    requires block { most ≤ 16 }
    ensures first { FindsFlags text.now way.now leaf at state flags.new result }
    ensures most { result.count ≤ most }
    ensures long { length flags.new ≡ 16 }
    ensures within { result.at ≤ length text.now }
    ensures shallow { depth_of result.state.mode ≤ result.at }
{
    for count in 0..most {
        (at, state.mode) = past(text, state.mode, at);
        if is_element_end(text, at, state.mode) {
            flags[count] = false;
            at += 1;
            continue;
        }
        let found = scan(text, way, leaf, at, state);
        match found.piece {
            Some(Piece::Flag(item)) => {
                flags[count] = item;
                at = found.at;
                state = found.state;
            }
            // Nothing is left, and what was passed over need not be passed again.
            None => {
                return Ahead {
                    count,
                    at: found.at,
                    state: found.state,
                };
            }
            Some(_) => return Ahead { count, at, state },
        }
    }
    Ahead {
        count: most,
        at,
        state,
    }
}
