// What comes in at the inputs of nodes.

use flow_messages::{Item, Msg};
use snesl_data::{Builder, Datum, Elements, Ty};
use std::alloc::{AllocError, Global};

/// The messages that come in at an input, the next as the first that was not read.
#[derive(Drop)]
pub struct Inlet {
    messages: Vec<Msg>,
    read: usize,
}

impl Inlet {
    // All of these messages are to be read.
    fn new(messages: Vec<Msg>) -> Inlet {
        Inlet { messages, read: 0 }
    }

    /// A copy of the next message, if there is one. Its only error is that too many share a vector.
    pub fn next(&self) -> Result<Option<Msg>, AllocError> {
        match self.messages.get(self.read) {
            Some(Msg::Item(item)) => Ok(Some(Msg::Item(item.copy()?))),
            Some(Msg::End) => Ok(Some(Msg::End)),
            None => Ok(None),
        }
    }

    /// The next message was read.
    pub fn advance(&mut self) {
        self.read = self.read.saturating_add(1);
    }
}

/// Truth values, and the end. This and the next ones fail only where memory is refused.
pub fn flags(alloc: Global, truths: &[bool]) -> Result<Inlet, AllocError> {
    let mut messages = Vec::new(alloc);
    for truth in truths {
        messages.push(Msg::Item(Item::Bool(*truth)))?;
    }
    messages.push(Msg::End)?;
    Ok(Inlet::new(messages))
}

/// Numbers, and the end.
pub fn numbers(alloc: Global, all: &[i128]) -> Result<Inlet, AllocError> {
    let mut messages = Vec::new(alloc);
    for number in all {
        messages.push(Msg::Item(Item::Int(*number)))?;
    }
    messages.push(Msg::End)?;
    Ok(Inlet::new(messages))
}

/// The vectors `[1,2]` and `[]`, and the end.
pub fn vectors(alloc: Global) -> Result<Inlet, AllocError> {
    let mut messages = Vec::new(alloc);
    messages.push(vector_message(alloc, &[1, 2])?)?;
    messages.push(vector_message(alloc, &[])?)?;
    messages.push(Msg::End)?;
    Ok(Inlet::new(messages))
}

/// The vector `[(8,[1,2]),(9,[])]`, and the end.
pub fn pairs(alloc: Global) -> Result<Inlet, AllocError> {
    let mut all = Vec::new(alloc);
    all.push(pair(alloc, 8, &[1, 2])?)?;
    all.push(pair(alloc, 9, &[])?)?;
    let vector = Item::of_elements(Elements::of_data(alloc, all)?);
    let mut messages = Vec::new(alloc);
    messages.push(Msg::Item(vector))?;
    messages.push(Msg::End)?;
    Ok(Inlet::new(messages))
}

/// The type of its elements.
pub fn pairs_type(alloc: Global) -> Result<Ty, AllocError> {
    let number = Box::new(alloc, Ty::Int)?;
    let numbers = Ty::Vec(Box::new(alloc, Ty::Int)?);
    Ok(Ty::Pair(number, Box::new(alloc, numbers)?))
}

/// The elements of a vector of numbers.
pub fn vector(alloc: Global, all: &[i128]) -> Result<Elements, AllocError> {
    let mut elements = Builder::Empty;
    for number in all {
        elements.push(alloc, Datum::Int(*number))?;
    }
    elements.finish(alloc).map_err(|_| AllocError)
}

fn vector_message(alloc: Global, all: &[i128]) -> Result<Msg, AllocError> {
    let vector = vector(alloc, all)?;
    Ok(Msg::Item(Item::of_elements(vector)))
}

// A pair of a number and a vector.
fn pair(alloc: Global, first: i128, second: &[i128]) -> Result<Datum, AllocError> {
    let second = Datum::Vec(vector(alloc, second)?);
    let first = Box::new(alloc, Datum::Int(first))?;
    Ok(Datum::Pair(first, Box::new(alloc, second)?))
}
