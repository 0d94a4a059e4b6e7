// Operators and built-in functions.

/// An operator between two operands.
#[derive(Clone, Copy, Debug, PartialEq, Eq)]
pub enum Operator {
    Or,
    And,
    /// `==`
    Equal,
    Less,
    /// `<=`
    AtMost,
    Greater,
    /// `>=`
    AtLeast,
    /// `++`
    Append,
    Add,
    Subtract,
    Multiply,
    Divide,
    Remainder,
    /// `!`
    Index,
}

/// An operator before its operand.
#[derive(Clone, Copy, Debug, PartialEq, Eq)]
pub enum Prefix {
    /// `-`
    Negate,
    Not,
}

/// A function that the language has.
#[derive(Clone, Copy, Debug, PartialEq, Eq)]
pub enum Builtin {
    /// The numbers from 0 up to and without its argument.
    Iota,
    /// At each place of a sequence the sum of the elements before it.
    ScanAdd,
    /// The sum of a sequence.
    ReduceAdd,
    /// The greatest element of a sequence.
    ReduceMax,
    /// Whether all elements of a sequence are true.
    ReduceAnd,
    /// Whether some element of a sequence is true.
    ReduceOr,
    /// The number of the elements of a sequence.
    Length,
    /// The elements of the elements of a sequence.
    Concat,
    /// A sequence in parts.
    Part,
    /// The one element of a sequence.
    The,
    /// A sequence as a vector.
    Tab,
    /// A vector as a sequence.
    Seq,
    /// The first part of a pair.
    Fst,
    /// The second part of a pair.
    Snd,
}
