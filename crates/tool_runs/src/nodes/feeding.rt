// A node that is fed through its trait, message by message.

use crate::nodes::inlets::Inlet;
use flow_base::{Printing, Transducer};
use flow_messages::{Item, Msg};
use kahn::Want;
use snesl_data::{Datum, text_of};
use std::alloc::{AllocError, Global};
use std::fmt;

// More steps than any of the nodes takes.
const MOST_STEPS: usize = 100;

/// What comes in at a node, and what it did. It is shown as the messages that the node read and wrote, in order, with `<` or `>` and
/// the port before each, and after them the text that it gathered, where it gathers one.
#[derive(Drop)]
pub struct Fed {
    alloc: Global,
    inlets: Vec<Inlet>,
    done: String,
    refused: usize,
    changed: bool,
}

// What came of a step.
#[derive(Clone, Copy, Debug, PartialEq, Eq)]
enum Feed {
    Made,
    // Memory was refused to the node.
    Refused,
    // It has ended or faulted, or wants a message that is not there.
    Last,
}

impl fmt::Display for Fed {
    fn fmt<W: fmt::Write>(&self, f: &mut fmt::Formatter<W>) -> fmt::Result {
        write!(f, "{}", self.done)
    }
}

impl Fed {
    /// A node that has done nothing is to be fed with this.
    pub fn new(alloc: Global, inlets: Vec<Inlet>) -> Fed {
        Fed {
            alloc,
            inlets,
            done: String::new(alloc),
            refused: 0,
            changed: false,
        }
    }

    /// To how many calls of the node memory was refused.
    pub fn refused(&self) -> usize {
        self.refused
    }

    /// Whether the node wanted, after each such call, what it wanted before, and had printed what it had.
    pub fn is_unchanged(&self) -> bool {
        !self.changed
    }

    /// Feeds the node until it has ended or faulted, or wants a message that is not there. The error is that memory was refused
    /// to anything but the node.
    pub fn feed<T: Transducer + Printing>(&mut self, node: &mut T) -> Result<(), AllocError> {
        for _ in 0..MOST_STEPS {
            let before = seen(node);
            match self.step(node)? {
                Feed::Made => {}
                Feed::Refused => {
                    self.refused = self.refused.saturating_add(1);
                    self.changed = self.changed || seen(node) != before;
                }
                Feed::Last => break,
            }
        }
        if let Some(text) = node.printed() {
            let word = format!(in self.alloc; " `{}`", text.escape_ascii())?;
            self.done.push_str(word.as_str())?;
        }
        Ok(())
    }

    // A step of the node. A message that it could not take is still the next.
    fn step<T: Transducer>(&mut self, node: &mut T) -> Result<Feed, AllocError> {
        match node.want() {
            Want::Read(port) => {
                let Some(message) = self.next(port)? else {
                    return Ok(Feed::Last);
                };
                let word = word_of(self.alloc, '<', port, &message)?;
                if node.give(port, message).is_err() {
                    return Ok(Feed::Refused);
                }
                self.advance(port);
                self.done.push_str(word.as_str())?;
                Ok(Feed::Made)
            }
            Want::Write(port) => {
                let Ok(message) = node.emit() else {
                    return Ok(Feed::Refused);
                };
                let word = word_of(self.alloc, '>', port, &message)?;
                self.done.push_str(word.as_str())?;
                Ok(Feed::Made)
            }
            Want::Ended | Want::Faulted(_) => Ok(Feed::Last),
        }
    }

    // A copy of the next message at a port, if there is one.
    fn next(&self, port: usize) -> Result<Option<Msg>, AllocError> {
        match self.inlets.get(port) {
            Some(inlet) => inlet.next(),
            None => Ok(None),
        }
    }

    // The next message at a port was read.
    fn advance(&mut self, port: usize) {
        if let Some(inlet) = self.inlets.get_mut(port) {
            inlet.advance();
        }
    }
}

// What a node wants, and how many bytes it has printed.
fn seen<T: Transducer + Printing>(node: &T) -> (Want, usize) {
    let printed = match node.printed() {
        Some(text) => text.len(),
        None => 0,
    };
    (node.want(), printed)
}

// The word of a message that is read or written at a port: a vector as it is printed, and `.` for the end.
fn word_of(alloc: Global, way: char, port: usize, message: &Msg) -> Result<String, AllocError> {
    match message {
        Msg::End => format!(in alloc; " {way}{port} ."),
        Msg::Item(Item::Unit) => format!(in alloc; " {way}{port} unit"),
        Msg::Item(Item::Bool(truth)) => format!(in alloc; " {way}{port} {truth}"),
        Msg::Item(Item::Int(number)) => format!(in alloc; " {way}{port} {number}"),
        Msg::Item(Item::Vec(elements)) => {
            let text = text_of(alloc, &Datum::Vec(elements.share()?))?;
            format!(in alloc; " {way}{port} {}", text.escape_ascii())
        }
        Msg::Item(Item::Typed(typed)) => {
            let text = text_of(alloc, &Datum::Vec(typed.elements.share()?))?;
            format!(in alloc; " {way}{port} {}", text.escape_ascii())
        }
    }
}
