// Tables of single nodes, as text, and their rows written again from what the nodes do.
//
// An empty line stands between two rows, and between a row and a remark, which begins with `#`. The lines of a row:
//
//   node WORDS          the node at offset 7, before it has read or written anything (`node_words.rt` of flow_samples)
//   in WORDS            for each of its inputs the messages that come in (`words.rt`); there may be none
//   steps NUMBER        how often the node reads or writes; where no line tells, it goes on until it rests
//   out WORDS           for each of its outputs the messages that go out
//   prints TEXT         the text that a Print has at last; no other node has one
//   ends                at last the node has ended,
//   faults KIND OFFSET  or met this fault,
//   reads PORT          or wants a message that is not there,
//   writes PORT         or has one to write

use flow_base::{Printing, Transducer};
use flow_messages::{Item, Msg};
use flow_samples::{WordError, message, node_of, number_of};
use kahn::Want;
use snesl_data::{Datum, text_of};
use std::alloc::{AllocError, Global};
use std::str::SplitWhitespace;

// The place of each node in the program text.
const AT: usize = 7;

// More steps than any row takes.
const MOST_STEPS: usize = 1_000;

/// The row, with what its node does in place of what it is to do: the same text, where the row holds. It is no row where a
/// word of it stands for nothing.
pub fn written_again(alloc: Global, row: &str) -> Result<Vec<u8>, WordError> {
    let (first, _) = row.split_once('\n').ok_or(WordError::Unread)?;
    let words = first.strip_prefix("node ").ok_or(WordError::Unread)?;
    let mut text = Vec::new(alloc);
    write_again(alloc, &mut text, row, node_of(alloc, words, AT)?)?;
    Ok(text)
}

// Writes the row of this node, which is let go.
fn write_again<T: Transducer + Printing + Drop>(
    alloc: Global,
    text: &mut Vec<u8>,
    row: &str,
    mut node: T,
) -> Result<(), WordError> {
    write_row(alloc, text, row, &mut node)
}

fn write_row<T: Transducer + Printing>(
    alloc: Global,
    text: &mut Vec<u8>,
    row: &str,
    node: &mut T,
) -> Result<(), WordError> {
    let steps = copy_given(text, row, node.inputs())?;
    let mut ins = ins_of(alloc, row)?;
    let mut outs = outs_of(alloc, node.outputs())?;
    feed(alloc, node, &mut ins, &mut outs, steps)?;
    Ok(add_told(alloc, text, node, &outs)?)
}

// Copies the lines that tell of the node, its inputs and how often it reads or writes; how often that is.
fn copy_given(text: &mut Vec<u8>, row: &str, inputs: usize) -> Result<usize, WordError> {
    let mut lines = row.lines();
    for _ in 0..=inputs {
        add_line(text, lines.next().unwrap_or(""), b"")?;
    }
    let line = lines.next().unwrap_or("");
    match line.strip_prefix("steps ") {
        Some(number) => {
            add_line(text, line, b"")?;
            number_of(number)
        }
        None => Ok(MOST_STEPS),
    }
}

// The words of the inputs of a row.
fn ins_of<'a>(alloc: Global, row: &'a str) -> Result<Vec<SplitWhitespace<'a>>, AllocError> {
    let mut ins = Vec::new(alloc);
    for line in row.lines() {
        let mut words = line.split_whitespace();
        if words.next() == Some("in") {
            ins.push(words)?;
        }
    }
    Ok(ins)
}

// What is written to so many outputs, before anything is.
fn outs_of(alloc: Global, outputs: usize) -> Result<Vec<Vec<u8>>, AllocError> {
    let mut outs = Vec::new(alloc);
    for _ in 0..outputs {
        outs.push(Vec::<u8>::new(alloc))?;
    }
    Ok(outs)
}

// Feeds a node with what comes in, until it wants a message that is not there, or has ended or faulted, or has read and
// written so often.
fn feed<T: Transducer>(
    alloc: Global,
    node: &mut T,
    ins: &mut [SplitWhitespace<'_>],
    outs: &mut [Vec<u8>],
    steps: usize,
) -> Result<(), WordError> {
    for _ in 0..steps {
        if !moves(alloc, node, ins, outs)? {
            break;
        }
    }
    Ok(())
}

// Whether the node reads or writes a message.
fn moves<T: Transducer>(
    alloc: Global,
    node: &mut T,
    ins: &mut [SplitWhitespace<'_>],
    outs: &mut [Vec<u8>],
) -> Result<bool, WordError> {
    match node.want() {
        Want::Read(port) => {
            let Some(words) = ins.get_mut(port) else {
                return Ok(false);
            };
            let Some(word) = words.next() else {
                return Ok(false);
            };
            node.give(port, message(alloc, word)?)?;
        }
        Want::Write(port) => {
            let Some(text) = outs.get_mut(port) else {
                return Ok(false);
            };
            append(alloc, text, &node.emit()?)?;
        }
        Want::Ended | Want::Faulted(_) => return Ok(false),
    }
    Ok(true)
}

// Writes the word of a message after others: a vector as it is printed.
fn append(alloc: Global, text: &mut Vec<u8>, message: &Msg) -> Result<(), AllocError> {
    if !text.is_empty() {
        text.push(b' ')?;
    }
    match message {
        Msg::End => text.extend_from_slice(b"."),
        Msg::Item(Item::Unit) => text.extend_from_slice(b"u"),
        Msg::Item(Item::Bool(false)) => text.extend_from_slice(b"F"),
        Msg::Item(Item::Bool(true)) => text.extend_from_slice(b"T"),
        Msg::Item(Item::Int(number)) => {
            let said = text_of(alloc, &Datum::Int(*number))?;
            text.extend_from_slice(&said)
        }
        Msg::Item(Item::Vec(elements)) => {
            let said = text_of(alloc, &Datum::Vec(elements.share()?))?;
            text.extend_from_slice(&said)
        }
        Msg::Item(Item::Typed(typed)) => {
            let said = text_of(alloc, &Datum::Vec(typed.elements.share()?))?;
            text.extend_from_slice(&said)
        }
    }
}

// Adds the lines of what a node wrote and printed, and of what it wants at last.
fn add_told<T: Transducer + Printing>(
    alloc: Global,
    text: &mut Vec<u8>,
    node: &T,
    outs: &[Vec<u8>],
) -> Result<(), AllocError> {
    for out in outs {
        add_line(text, "out", out)?;
    }
    if let Some(printed) = node.printed() {
        add_line(text, "prints", printed)?;
    }
    let wanted = words_of(alloc, node.want())?;
    add_line(text, wanted.as_str(), b"")
}

// The line of what a node wants.
fn words_of(alloc: Global, want: Want) -> Result<String, AllocError> {
    match want {
        Want::Ended => String::from_str(alloc, "ends"),
        Want::Read(port) => format!(in alloc; "reads {port}"),
        Want::Write(port) => format!(in alloc; "writes {port}"),
        Want::Faulted(fault) => {
            let (kind, at) = (fault.kind, fault.at);
            format!(in alloc; "faults {kind:?} {at}")
        }
    }
}

// Adds a line after others: a field, and its words, if it has any.
fn add_line(text: &mut Vec<u8>, field: &str, words: &[u8]) -> Result<(), AllocError> {
    if !text.is_empty() {
        text.push(b'\n')?;
    }
    text.extend_from_slice(field.as_bytes())?;
    if !words.is_empty() {
        text.push(b' ')?;
        text.extend_from_slice(words)?;
    }
    Ok(())
}
