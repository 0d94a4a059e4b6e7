// What is drawn of a network.

use flow_messages::Kind;
use flow_networks::Edge;
use snesl_grammar::tree::Span;

/// The network of a program, as it is drawn.
#[derive(Debug, Drop)]
pub struct Drawing {
    pub nodes: Vec<DrawnNode>,
    pub edges: Vec<DrawnEdge>,
    pub forms: Vec<DrawnForm>,
}

/// A node: its number, what it is called, the offset of the form that it comes from, and the stream of an input that it writes,
/// if it does.
#[derive(Clone, Copy, Debug, PartialEq, Eq)]
pub struct DrawnNode {
    pub number: usize,
    pub word: &'static str,
    pub at: usize,
    pub input: Option<InputStream>,
}

/// A stream of an input: the input's name, and which of its streams it is, or an empty text where there is one only.
#[derive(Clone, Copy, Debug, PartialEq, Eq)]
pub struct InputStream {
    pub name: Span,
    pub part: &'static str,
}

/// An edge, the kind of its items, and how many messages went over it, where that is known.
#[derive(Clone, Copy, Debug, PartialEq, Eq)]
pub struct DrawnEdge {
    pub edge: Edge,
    pub kind: Kind,
    pub messages: Option<u64>,
}

/// A form that nodes come from: the offset that it keeps, the number of the first of its nodes, and which piece of the program it
/// is.
#[derive(Clone, Copy, Debug, PartialEq, Eq)]
pub struct DrawnForm {
    pub at: usize,
    pub first: usize,
    pub piece: Span,
}
