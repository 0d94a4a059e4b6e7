// Turns of a scanner: what a token makes of its state.

ghost use Rattle.std.specs.Prelude.{◌≡◌, ◌+◌, ◌<◌, ◌^◌, slice_get, IfSome};
ghost use Rattle.flow_nodes.specs.inputs.Items.{leaf_kind};
ghost use Rattle.flow_nodes.specs.inputs.Turns.{writes_nothing, wrote, lost, at_leaf, at_value, at_opened, turn_after_value, passed, passing, flagging, counting, inside_vector, made, turn, depth_of, is_done};

use flow_messages::Kind;
use snesl_values::{Bracket, Mark};

/// A step on the way from a type to one of its edges.
#[derive(Clone, Copy, Debug, PartialEq, Eq)]
pub enum Component {
    /// To the elements of a sequence.
    Elements,
    /// To the first part of a pair.
    First,
    /// To the second part of a pair.
    Second,
}

/// What the edge at the end of the way carries.
#[derive(Clone, Copy, Debug, PartialEq, Eq)]
pub enum Leaf {
    /// The flags of sequences.
    Flags,
    /// Truth values.
    Bools,
    /// Integers.
    Ints,
    /// Vectors, each as one item.
    Vectors,
}

impl Leaf {
    /// The kind of its items.
    pub fn kind(self) -> Kind
        ensures { result ≡ leaf_kind self }
    {
        match self {
            Leaf::Flags | Leaf::Bools => Kind::Bool,
            Leaf::Ints => Kind::Int,
            Leaf::Vectors => Kind::Vec,
        }
    }
}

/// Where a scanner stands.
#[derive(Clone, Copy, Debug, PartialEq, Eq)]
pub enum Mode {
    /// A value comes next.
    Value,
    /// An element comes next, or the end of the sequence.
    Opened,
    /// A value was read whole.
    Behind,
    /// In a part of a pair that is passed over, with so many brackets open in it.
    Passing(usize),
    /// A sequence was opened whose flags are written.
    Flagging,
    /// After the first token of that sequence's elements, with so many brackets open in it.
    Counting(usize),
    /// In a vector that was written, with so many brackets open in it.
    Within(usize),
    /// Nothing is written any more.
    Lost,
}

/// The state of a scanner.
#[derive(Clone, Copy, Debug, PartialEq, Eq)]
pub struct State {
    /// How many steps of the way were made.
    pub level: usize,
    /// Where it stands.
    pub mode: Mode,
}

/// What is written on an edge.
#[derive(Clone, Copy, Debug, PartialEq, Eq)]
pub enum Piece {
    /// A truth value, or a flag of a sequence.
    Flag(bool),
    Int(i128),
    /// The vector that is read from this place on, an offset in bytes from the start of the text.
    VectorAt(usize),
}

// What is written at a token, if anything is, and the state after it.
pub(crate) type Transition = (Option<Piece>, State);

// Nothing is written.
#[inline(always)]
fn writes_nothing(level: usize, mode: Mode) -> Transition
    ensures { result ≡ writes_nothing level mode }
{
    (None, State { level, mode })
}

// This is written.
#[inline(always)]
fn wrote(piece: Piece, level: usize, mode: Mode) -> Transition
    ensures { result ≡ wrote piece level mode }
{
    (Some(piece), State { level, mode })
}

// No value of the type is spelled here, and nothing is written any more.
#[inline(always)]
fn lost() -> Transition
    ensures { result ≡ lost }
{
    writes_nothing(0, Mode::Lost)
}

// A token at the end of the way.
#[inline(always)]
fn at_leaf(leaf: Leaf, level: usize, mark: Mark, place: usize) -> Transition
    ensures { result ≡ at_leaf leaf level mark place }
{
    match (leaf, mark) {
        (Leaf::Flags, Mark::Open(Bracket::Curly)) => writes_nothing(level, Mode::Flagging),
        (Leaf::Bools, Mark::Truth(truth)) => wrote(Piece::Flag(truth), level, Mode::Behind),
        (Leaf::Ints, Mark::Number(number)) => wrote(Piece::Int(number), level, Mode::Behind),
        (Leaf::Vectors, Mark::Open(Bracket::Square)) => {
            wrote(Piece::VectorAt(place), level, Mode::Within(0))
        }
        _ => lost(),
    }
}

// A token where a value comes next, by the next step of the way.
#[inline(always)]
fn at_value(
    step: Option<Component>,
    leaf: Leaf,
    level: usize,
    mark: Mark,
    place: usize,
) -> Transition
    requires { IfSome step (λ _. level < usize.MAX) }
    ensures { result ≡ at_value step leaf level mark place }
{
    match (step, mark) {
        (None, _) => at_leaf(leaf, level, mark, place),
        (Some(Component::Elements), Mark::Open(Bracket::Curly)) => writes_nothing(
            level + 1,
            Mode::Opened,
        ),
        (Some(Component::First), Mark::Open(Bracket::Round)) => writes_nothing(
            level + 1,
            Mode::Value,
        ),
        (Some(Component::Second), Mark::Open(Bracket::Round)) => writes_nothing(
            level + 1,
            Mode::Passing(0),
        ),
        _ => lost(),
    }
}

// A token after a value, by the innermost step that was made.
#[inline(always)]
fn turn_after_value(step: Option<Component>, level: usize, mark: Mark) -> Transition
    ensures { result ≡ turn_after_value step level mark }
{
    match (step, mark) {
        (Some(Component::Elements), Mark::Comma) => writes_nothing(level, Mode::Value),
        (Some(Component::First), Mark::Comma) => writes_nothing(level, Mode::Passing(0)),
        (Some(Component::Elements), Mark::Close(Bracket::Curly))
        | (Some(Component::Second), Mark::Close(Bracket::Round)) => {
            writes_nothing(level.saturating_sub(1), Mode::Behind)
        }
        _ => lost(),
    }
}

// A token where a sequence was opened on the way.
#[inline(always)]
fn at_opened(
    step: Option<Component>,
    leaf: Leaf,
    level: usize,
    mark: Mark,
    place: usize,
) -> Transition
    requires { IfSome step (λ _. level < usize.MAX) }
    ensures { result ≡ at_opened step leaf level mark place }
{
    match mark {
        Mark::Close(Bracket::Curly) => writes_nothing(level.saturating_sub(1), Mode::Behind),
        _ => at_value(step, leaf, level, mark, place),
    }
}

// A token in a part that is passed over, outside its brackets: the comma after a first part, and
// the end of a pair.
#[inline(always)]
fn passed(step: Option<Component>, level: usize, mark: Mark) -> Transition
    ensures { result ≡ passed step level mark }
{
    match (step, mark) {
        (Some(Component::Second), Mark::Comma) => writes_nothing(level, Mode::Value),
        (Some(Component::First), Mark::Close(Bracket::Round)) => {
            writes_nothing(level.saturating_sub(1), Mode::Behind)
        }
        _ => writes_nothing(level, Mode::Passing(0)),
    }
}

// A token in a part that is passed over.
#[inline(always)]
fn passing(step: Option<Component>, level: usize, depth: usize, mark: Mark) -> Transition
    requires { depth + 1 < 2 ^ 64 }
    ensures { result ≡ passing step level depth mark }
{
    match mark {
        Mark::Open(_) => writes_nothing(level, Mode::Passing(depth + 1)),
        Mark::Close(_) => {
            if depth == 0 {
                passed(step, level, mark)
            } else {
                writes_nothing(level, Mode::Passing(depth - 1))
            }
        }
        _ => {
            if depth == 0 {
                passed(step, level, mark)
            } else {
                writes_nothing(level, Mode::Passing(depth))
            }
        }
    }
}

// A token where a sequence was opened whose flags are written.
#[inline(always)]
fn flagging(level: usize, mark: Mark) -> Transition
    ensures { result ≡ flagging level mark }
{
    match mark {
        Mark::Close(_) => wrote(Piece::Flag(true), level, Mode::Behind),
        Mark::Open(_) => wrote(Piece::Flag(false), level, Mode::Counting(1)),
        _ => wrote(Piece::Flag(false), level, Mode::Counting(0)),
    }
}

// A token in the elements of that sequence.
#[inline(always)]
fn counting(level: usize, depth: usize, mark: Mark) -> Transition
    requires { depth + 1 < 2 ^ 64 }
    ensures { result ≡ counting level depth mark }
{
    match mark {
        Mark::Open(_) => writes_nothing(level, Mode::Counting(depth + 1)),
        Mark::Close(_) => {
            if depth == 0 {
                wrote(Piece::Flag(true), level, Mode::Behind)
            } else {
                writes_nothing(level, Mode::Counting(depth - 1))
            }
        }
        Mark::Comma => {
            if depth == 0 {
                wrote(Piece::Flag(false), level, Mode::Counting(0))
            } else {
                writes_nothing(level, Mode::Counting(depth))
            }
        }
        _ => writes_nothing(level, Mode::Counting(depth)),
    }
}

// A token in a vector.
#[inline(always)]
fn inside_vector(level: usize, depth: usize, mark: Mark) -> Transition
    requires { depth + 1 < 2 ^ 64 }
    ensures { result ≡ inside_vector level depth mark }
{
    match mark {
        Mark::Open(_) => writes_nothing(level, Mode::Within(depth + 1)),
        Mark::Close(_) => {
            if depth == 0 {
                writes_nothing(level, Mode::Behind)
            } else {
                writes_nothing(level, Mode::Within(depth - 1))
            }
        }
        _ => writes_nothing(level, Mode::Within(depth)),
    }
}

// The step at this level of the way, if there is one.
#[inline(always)]
pub(crate) fn step_at(way: &[Component], level: usize) -> Option<Component>
    ensures step { result ≡ slice_get way.now level }
    ensures within { IfSome result (λ _. level < usize.MAX) }
{
    match way.get(level) {
        Some(step) => Some(*step),
        None => None,
    }
}

// The innermost step that was made, if one was.
#[inline(always)]
pub(crate) fn made(way: &[Component], level: usize) -> Option<Component>
    ensures { result ≡ made way.now level }
{
    if level == 0 {
        None
    } else {
        step_at(way, level - 1)
    }
}

// What a token makes of a state. The token was looked for from the offset `place` on.
#[inline(always)]
pub(crate) fn turn(
    way: &[Component],
    leaf: Leaf,
    state: State,
    mark: Mark,
    place: usize,
) -> Transition
    requires { depth_of state.mode + 1 < 2 ^ 64 }
    ensures { result ≡ turn way.now leaf state mark place }
{
    let level = state.level;
    match state.mode {
        Mode::Value => at_value(step_at(way, level), leaf, level, mark, place),
        Mode::Opened => at_opened(step_at(way, level), leaf, level, mark, place),
        Mode::Behind => turn_after_value(made(way, level), level, mark),
        Mode::Passing(depth) => passing(made(way, level), level, depth, mark),
        Mode::Flagging => flagging(level, mark),
        Mode::Counting(depth) => counting(level, depth, mark),
        Mode::Within(depth) => inside_vector(level, depth, mark),
        Mode::Lost => lost(),
    }
}

// Whether nothing is written any more, whatever comes.
#[inline(always)]
pub(crate) fn is_done(state: State) -> bool
    ensures { result ≡ is_done state }
{
    match state.mode {
        Mode::Behind => state.level == 0,
        Mode::Lost => true,
        _ => false,
    }
}
