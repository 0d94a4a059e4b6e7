// Where in a job a refusal has its place.

ghost use Rattle.std.specs.Prelude.{◌≡◌};
ghost use Rattle.snesl_look.specs.findings.Places.{end_of, marked, place_in_input, place_in_program, place_of, place_or_front};

use crate::findings::marks::mark_len;
use crate::{Position, position_of};
use snesl_data::Refusal;

// The place of what has none in the text.
const FRONT: Position = Position { line: 1, column: 1 };

// The place of an offset of the program.
fn place_in_program(program: &[u8], at: usize) -> Position
    ensures { result ≡ place_in_program program.now at }
{
    position_of(program, at)
}

// The place of an offset of the input text, which stands behind the program and the line `---`.
fn place_in_input(program: &[u8], input: &[u8], at: usize) -> Position
    ensures { result ≡ place_in_input program.now input.now at }
{
    let separator = position_of(program, program.len());
    let position = position_of(input, at);
    Position {
        line: separator.line.saturating_add(position.line),
        column: position.column,
    }
}

/// The place in the whole job that a refusal has, where it names an offset: one of the input text stands behind the program and the
/// line `---`.
pub fn place_of(refusal: Refusal, program: &[u8], input: &[u8]) -> Option<Position>
    ensures { result ≡ place_of refusal program.now input.now }
{
    match refusal {
        Refusal::BadInput(at) => Some(place_in_input(program, input, at)),
        _ => Some(place_in_program(program, refusal.at()?)),
    }
}

// The place of a refusal, or the front of the job.
pub(crate) fn place_or_front(refusal: Refusal, program: &[u8], input: &[u8]) -> Position
    ensures { result ≡ place_or_front refusal program.now input.now }
{
    place_of(refusal, program, input).unwrap_or(FRONT)
}

// How many bytes what stands at the place of a refusal has.
fn marked(refusal: Refusal, program: &[u8], input: &[u8]) -> usize
    ensures { result ≡ marked refusal program.now input.now }
{
    match (refusal, refusal.at()) {
        (Refusal::BadInput(at), _) => mark_len(input, at),
        (_, Some(at)) => mark_len(program, at),
        (_, None) => 0,
    }
}

// The column behind what stands there.
pub(crate) fn end_of(refusal: Refusal, program: &[u8], input: &[u8]) -> usize
    ensures { result ≡ end_of refusal program.now input.now }
{
    let column = place_or_front(refusal, program, input).column;
    column.saturating_add(marked(refusal, program, input))
}
