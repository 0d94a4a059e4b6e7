// The parts of a drawing.

ghost use Rattle.std.specs.Prelude.{◌≡◌, ◌++◌, IfOk, OnOk, decimal, false, take};
ghost use Rattle.snesl_draw.specs.Quoting.{quoted};
ghost use Rattle.snesl_draw.specs.Lines.{edge_label, form_title, in_one_line, input_part, line_and_column, node_title, one_blank, part_of_input, shortened, width_of};

use crate::drawing::{DrawnEdge, DrawnForm, DrawnNode, InputStream};
use crate::quoting::quoted;
use crate::words::kind_word;
use itoa::Buffer;
use snesl_data::is_blank;
use snesl_look::position_of;
use std::alloc::{AllocError, Global};

// Of a form so many bytes are shown at most.
const MOST_SHOWN: usize = 40;

// `…`, which says that more is there.
const MORE: [u8; 3] = [0xe2, 0x80, 0xa6];

// An edge is no thicker.
const MOST_WIDTH: usize = 3;

pub(crate) fn append_text(text: &mut Vec<u8>, more: &str) -> Result<(), AllocError>
    ensures { OnOk result (text.new.items ≡ text.old.items ++ more.now) }
{
    text.extend_from_slice(more.as_bytes())
}

pub(crate) fn append_number(text: &mut Vec<u8>, number: usize) -> Result<(), AllocError>
    ensures { OnOk result (text.new.items ≡ text.old.items ++ decimal number) }
{
    let mut buffer = Buffer::new();
    append_text(text, buffer.format(number))
}

// The line and the column of an offset.
pub(crate) fn append_place(text: &mut Vec<u8>, program: &[u8], at: usize) -> Result<(), AllocError>
    ensures { OnOk result (text.new.items ≡ text.old.items ++ line_and_column program.now at) }
{
    let position = position_of(program, at);
    append_number(text, position.line)?;
    append_text(text, ":")?;
    append_number(text, position.column)
}

// What a form is called: where it begins, and its text, each in a line that begins at the left.
pub(crate) fn append_form_title(
    text: &mut Vec<u8>,
    alloc: Global,
    program: &[u8],
    form: DrawnForm,
) -> Result<(), AllocError>
    ensures { OnOk result (text.new.items ≡ text.old.items ++ form_title program.now form) }
{
    let line = in_one_line(alloc, form.piece.spelled(program))?;
    append_place(text, program, form.piece.at)?;
    append_text(text, "\\l")?;
    append_cut(text, alloc, &line)?;
    append_text(text, "\\l")
}

// A text in one line.
fn in_one_line(alloc: Global, text: &[u8]) -> Result<Vec<u8>, AllocError>
    ensures { IfOk result (λ line. line.items ≡ in_one_line false text.now) }
{
    let mut line = Vec::with_capacity(alloc, text.len())?;
    let mut after_blank = false;
    for byte in text {
        append_one_blank(&mut line, after_blank, *byte)?;
        after_blank = is_blank(*byte);
    }
    Ok(line)
}

// One blank for blanks and line feeds in a row, and another byte itself.
fn append_one_blank(line: &mut Vec<u8>, after_blank: bool, byte: u8) -> Result<(), AllocError>
    ensures { OnOk result (line.new.items ≡ line.old.items ++ one_blank after_blank byte) }
{
    if !is_blank(byte) {
        line.push(byte)?;
    } else if !after_blank {
        line.push(b' ')?;
    }
    Ok(())
}

// A text, or its beginning and `…`.
fn append_cut(text: &mut Vec<u8>, alloc: Global, line: &[u8]) -> Result<(), AllocError>
    ensures { OnOk result (text.new.items ≡ text.old.items ++ shortened line.now) }
{
    if MOST_SHOWN < line.len() {
        append_quoted(text, alloc, beginning(line))?;
        return text.extend_from_slice(&MORE);
    }
    append_quoted(text, alloc, line)
}

// As much of a text as is shown.
fn beginning(line: &[u8]) -> &[u8]
    ensures { result.now ≡ take 40 line.now }
{
    let most = MOST_SHOWN.min(line.len());
    &line[..most]
}

fn append_quoted(text: &mut Vec<u8>, alloc: Global, more: &[u8]) -> Result<(), AllocError>
    ensures { OnOk result (text.new.items ≡ text.old.items ++ quoted more.now) }
{
    let made = quoted(alloc, more)?;
    text.extend_from_slice(&made)
}

// The number of a node, and what it is called.
pub(crate) fn append_title(
    text: &mut Vec<u8>,
    alloc: Global,
    program: &[u8],
    node: DrawnNode,
) -> Result<(), AllocError>
    ensures { OnOk result (text.new.items ≡ text.old.items ++ node_title program.now node) }
{
    append_number(text, node.number)?;
    append_text(text, " ")?;
    append_text(text, node.word)?;
    append_input(text, alloc, program, node.input)
}

// The stream of an input, where a node writes one.
fn append_input(
    text: &mut Vec<u8>,
    alloc: Global,
    program: &[u8],
    input: Option<InputStream>,
) -> Result<(), AllocError>
    ensures { OnOk result (text.new.items ≡ text.old.items ++ input_part program.now input) }
{
    match input {
        Some(input) => {
            append_text(text, " ")?;
            append_quoted(text, alloc, input.name.spelled(program))?;
            append_part(text, input.part)
        }
        None => Ok(()),
    }
}

// Which stream of an input it is, where there are several.
fn append_part(text: &mut Vec<u8>, part: &str) -> Result<(), AllocError>
    ensures { OnOk result (text.new.items ≡ text.old.items ++ part_of_input part.now) }
{
    if part.is_empty() {
        return Ok(());
    }
    append_text(text, ": ")?;
    append_text(text, part)
}

// What goes over an edge.
pub(crate) fn append_carried(text: &mut Vec<u8>, edge: DrawnEdge) -> Result<(), AllocError>
    ensures { OnOk result (text.new.items ≡ text.old.items ++ edge_label edge) }
{
    append_text(text, kind_word(edge.kind))?;
    match edge.messages {
        Some(messages) => {
            append_text(text, " ")?;
            append_messages(text, messages)
        }
        None => Ok(()),
    }
}

// How many messages went over an edge.
pub(crate) fn append_messages(text: &mut Vec<u8>, messages: u64) -> Result<(), AllocError>
    ensures { OnOk result (text.new.items ≡ text.old.items ++ decimal messages) }
{
    let mut buffer = Buffer::new();
    append_text(text, buffer.format(messages))
}

// How thick an edge is for its messages.
pub(crate) fn append_width(text: &mut Vec<u8>, messages: u64) -> Result<(), AllocError>
    ensures { OnOk result (text.new.items ≡ text.old.items ++ decimal (width_of messages)) }
{
    append_number(text, width_of(messages))
}

fn width_of(messages: u64) -> usize
    ensures { result ≡ width_of messages }
{
    let mut buffer = Buffer::new();
    let digits = buffer.format(messages).len();
    MOST_WIDTH.min((digits + 1) / 2)
}
