// The steps of a plan.

use flow_messages::Kind;
use snesl_data::Ty;
use snesl_data::operators::{BinaryOperator, Reduction, Scalar, UnaryOperator};

/// Which transducer a step is. All compute in the dialect of the program.
#[derive(Debug, Drop)]
pub enum Operation {
    /// The beginning of the control stream: one Unit.
    Control,
    /// The beginning of a stream of an input. Its list is empty until the inputs are set.
    Input(Kind),
    Const(Scalar),
    Unary(UnaryOperator),
    Binary(BinaryOperator),
    Iota,
    UnitsOf,
    ScanAdd,
    Reduce(Reduction),
    Length,
    Dist(Kind),
    Pack(Kind),
    PackGroups,
    FlagOfBool,
    SameFlags,
    ConcatFlags,
    PartFlags,
    TheCheck,
    AppendFlags,
    Interleave(Kind),
    InterleaveGroups,
    /// Over values of the type.
    Print(Ty),
    /// Vectors of elements of the type.
    Tab(Ty),
    Seq(Ty),
    Index(Ty),
}

/// A transducer of a plan: what it is, the offset of the form that it comes from, in bytes of the
/// program text, and the numbers of the streams that it reads, port by port. The streams that it
/// writes have the next numbers.
#[derive(Debug, Drop)]
pub struct Step {
    pub at: usize,
    pub operation: Operation,
    pub reads: Vec<usize>,
}
