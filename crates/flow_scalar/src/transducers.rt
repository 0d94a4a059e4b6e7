// The transducers over scalars: each is a node whose worker has the same name.
use crate::workers;
use flow_base::Node;

/// Reads two scalars, and writes what an operator gives. See [`workers::Binary`](crate::workers::Binary).
pub type Binary = Node<workers::Binary>;

/// Writes the same item for each unit that it reads. See [`workers::Const`](crate::workers::Const).
pub type Const = Node<workers::Const>;

/// Writes each message that it reads to all its outputs, in order. See [`workers::Fork`](crate::workers::Fork).
pub type Fork = Node<workers::Fork>;

/// Writes the numbers from 0 on below each number that it reads, with their flags. See [`workers::Iota`](crate::workers::Iota).
pub type Iota = Node<workers::Iota>;

/// Writes how many elements each segment has. See [`workers::Length`](crate::workers::Length).
pub type Length = Node<workers::Length>;

/// Writes what a reduction gives for each segment. See [`workers::Reduce`](crate::workers::Reduce).
pub type Reduce = Node<workers::Reduce>;

/// Writes for each element the sum of those before it in its segment. See [`workers::ScanAdd`](crate::workers::ScanAdd).
pub type ScanAdd = Node<workers::ScanAdd>;

/// Reads all messages, and writes none. See [`workers::Sink`](crate::workers::Sink).
pub type Sink = Node<workers::Sink>;

/// Reads a scalar, and writes what an operator gives. See [`workers::Unary`](crate::workers::Unary).
pub type Unary = Node<workers::Unary>;

/// Writes a unit for each element of the segments whose flags it reads. See [`workers::UnitsOf`](crate::workers::UnitsOf).
pub type UnitsOf = Node<workers::UnitsOf>;
