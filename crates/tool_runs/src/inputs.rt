// An input text of nested sequences, read by itself, and the sources over it.
//
// Neither reading it nor its sources take memory for its values: so it takes as many growths of memory for one inner sequence as
// for a thousand, which `.ci/dev growths` sees. The text is made in one growth, however long it is.

ghost use Rattle.std.specs.Prelude.{◌≡◌, IfOk};
ghost use Rattle.snesl_data.specs.Types.{ty_of, int, seq};

use anyhow::{Result, ensure};
use flow_base::Transducer;
use flow_nodes::inputs::TextSource;
use kahn::Want;
use snesl_data::{Dialect, Ty};
use snesl_values::{Inputs, read_inputs};
use std::alloc::{AllocError, Global};
use std::sync::Arc;

// Of how many inner sequences a text is made at most, and what it has room for.
const MOST: u64 = 1_000;

const ROOM: usize = 4_096;

// The edges of the type: two of flags, and one of numbers.
const EDGES: usize = 3;

// More messages than a source over the longest text writes.
const MOST_MESSAGES: usize = 10_000;

/// What the sources wrote: so many messages, and so many calls that were refused for want of memory.
#[derive(Clone, Copy)]
struct Written {
    messages: usize,
    refused: usize,
}

/// Reads a text of so many inner sequences, drives the sources of its edges to their ends, and prints what came of it. The error
/// is that there would be too many, that memory was refused to anything else, or that a line could not be printed.
pub fn try_inputs<R: Print + AllocGlobal>(rt: &R, count: u64) -> Result<()> {
    ensure!(count <= MOST, "at most 1,000 inner sequences are made");
    let alloc = rt.alloc();
    let ty = sequences_type(alloc)?;
    let name = Vec::from_slice(alloc, b"xs")?;
    let decls = vec![in alloc; (name, sequences_type(alloc)?)]?;
    let text = text_of_sequences(alloc, count)?;
    let inputs = match read_inputs(Dialect::One, alloc, &decls, &text) {
        Ok(inputs) => inputs,
        Err(error) => {
            println!(rt; "read_inputs: {error}")?;
            return Ok(());
        }
    };
    let written = written_of(alloc, &inputs, &ty)?;
    let (read, messages, refused) = (inputs.len(), written.messages, written.refused);
    println!(rt; "read_inputs: {read}, sources: {messages} messages, calls refused: {refused}")?;
    Ok(())
}

// The type `{{int}}`.
fn sequences_type(alloc: Global) -> Result<Ty, AllocError>
    ensures { IfOk result (λ ty. ty_of ty ≡ seq (seq int)) }
{
    let number = Box::new(alloc, Ty::Int)?;
    let numbers = Box::new(alloc, Ty::Seq(number))?;
    Ok(Ty::Seq(numbers))
}

// The text of an input `xs` of so many inner sequences, and of one where there are none.
fn text_of_sequences(alloc: Global, count: u64) -> Result<Vec<u8>, AllocError> {
    let mut text = Vec::with_capacity(alloc, ROOM)?;
    text.extend_from_slice(b"xs = {{1}")?;
    for _ in 1..count {
        text.extend_from_slice(b",{1}")?;
    }
    text.push(b'}')?;
    Ok(text)
}

// What the sources of the first input write, edge by edge.
fn written_of(alloc: Global, inputs: &Inputs, ty: &Ty) -> Result<Written>
    requires { ty_of ty.now ≡ seq (seq int) }
{
    let mut written = Written {
        messages: 0,
        refused: 0,
    };
    for edge in 0..EDGES {
        let place = inputs.place(0).unwrap_or(0);
        let text = Arc::clone(inputs.text())?;
        ensure!(place <= text.len(), "an input lies outside its text");
        let mut source = TextSource::new(alloc, text, place, ty, edge)?;
        drive(&mut source, &mut written);
    }
    Ok(written)
}

// Has a source write until it ends.
fn drive<T: Transducer>(source: &mut T, written: &mut Written) {
    for _ in 0..MOST_MESSAGES {
        match source.want() {
            Want::Write(_) => {
                if source.emit().is_ok() {
                    written.messages = written.messages.saturating_add(1);
                } else {
                    written.refused = written.refused.saturating_add(1);
                }
            }
            _ => break,
        }
    }
}
