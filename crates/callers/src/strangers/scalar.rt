// Transducers over scalars.
use flow_edges::{Block, Flat, Item, Kind, Msg};
use flow_scalar::{
    Binary, BinaryOperator, Const, Fork, Iota, Length, Node, Port, Reduce, Reduction, Scalar,
    ScanAdd, Side, Sink, Source, Stream, Transducer, Unary, UnaryOperator, UnitsOf, Want, workers,
};
use snesl_values::Dialect;
use std::alloc::AllocError;

/// What a transducer wants.
pub fn wanted(node: &impl Transducer) -> Want {
    node.want()
}

/// The port that a transducer wants to read or to write, if it wants one.
pub fn port_wanted(want: &Want) -> Option<usize> {
    match want {
        Want::Read(port) | Want::Write(port) => Some(*port),
        Want::Ended | Want::Faulted(_) => None,
    }
}

/// Gives a message to a transducer, if it wants to read.
pub fn given<T: Transducer>(node: &mut T, message: Msg) -> Result<bool, AllocError> {
    let Want::Read(port) = node.want() else {
        return Ok(false);
    };
    node.give(port, message)?;
    Ok(true)
}

/// The message that a transducer wants to write, if it wants to.
pub fn emitted<T: Transducer>(node: &mut T) -> Result<Option<Msg>, AllocError> {
    if let Want::Write(_) = node.want() {
        return Ok(Some(node.emit()?));
    }
    Ok(None)
}

/// The first unit of three.
pub fn first_unit() -> Result<Msg, AllocError> {
    let mut units = Source::new(Stream::Units(3));
    units.emit()
}

/// What a constant wants.
pub fn constant() -> Want {
    wanted(&Const::new(workers::Const::new(Scalar::Int(5)), 0))
}

/// Whether a transducer that reads units passes a block of one on, and what it writes then.
pub fn passed<T: Transducer>(node: &mut T, out: &mut Block) -> bool {
    if node.kind_in(0) != Kind::Unit {
        return false;
    }
    let mut block = Block::new();
    block.push(Flat::Unit);
    node.pass(&block, out)
}

/// The number and the kind of a transducer's outputs.
pub fn outputs_of(node: &impl Transducer) -> Port {
    node.port(Side::Out, 0)
}

/// A sink is the node of the worker that has its name.
pub fn sink() -> Node<workers::Sink> {
    Sink::new(workers::Sink::new(Kind::Int), 0)
}

/// What operators want.
pub fn operators() -> [Want; 2] {
    let unary = Unary::new(workers::Unary::new(Dialect::One, UnaryOperator::Not), 0);
    let binary = Binary::new(workers::Binary::new(Dialect::One, BinaryOperator::Add), 7);
    [wanted(&unary), wanted(&binary)]
}

/// What a copy to two outputs and a sink want.
pub fn copies() -> [Want; 2] {
    let fork = Fork::new(workers::Fork::new(Kind::Unit, 2), 0);
    let sink = Sink::new(workers::Sink::new(Kind::Unit), 0);
    [wanted(&fork), wanted(&sink)]
}

/// What counts and folds want.
pub fn folds() -> [Want; 5] {
    let iota = Iota::new(workers::Iota::new(), 0);
    let units = UnitsOf::new(workers::UnitsOf::new(), 0);
    let scan = ScanAdd::new(workers::ScanAdd::new(Dialect::One), 0);
    let sum = Reduce::new(workers::Reduce::new(Dialect::One, Reduction::Sum), 0);
    let length = Length::new(workers::Length::new(Dialect::One), 0);
    [
        wanted(&iota),
        wanted(&units),
        wanted(&scan),
        wanted(&sum),
        wanted(&length),
    ]
}

/// An item of an integer.
pub fn five() -> Msg {
    Msg::Item(Item::Int(5))
}
