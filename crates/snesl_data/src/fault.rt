// Faults.

ghost use Rattle.std.specs.Prelude.{◌≡◌};
ghost use Rattle.snesl_data.specs.Faults.{number_of_fault};

/// What went wrong while a program was evaluated.
#[derive(Clone, Copy, Debug, PartialEq, Eq)]
pub enum FaultKind {
    /// `/` or `%` by zero.
    Divide,
    /// An integer result outside the range.
    Overflow,
    /// `iota` of a negative number.
    NegativeCount,
    /// Binders of one comprehension whose sequences differ in length.
    Length,
    /// `part` whose flags do not fit.
    Part,
    /// `the` of a sequence that has not exactly one element.
    The,
    /// `reduce_max` of nothing.
    EmptyMax,
    /// `v ! i` with `i` negative or not below the length.
    Index,
    /// A stream that ended beside one that had not, or an item of another kind or type than due.
    Shape,
}

impl FaultKind {
    /// The number by which the fault is printed, from 1 to 9.
    pub fn number(&self) -> u8
        ensures { result ≡ number_of_fault self.now }
    {
        match self {
            FaultKind::Divide => 1,
            FaultKind::Overflow => 2,
            FaultKind::NegativeCount => 3,
            FaultKind::Length => 4,
            FaultKind::Part => 5,
            FaultKind::The => 6,
            FaultKind::EmptyMax => 7,
            FaultKind::Index => 8,
            FaultKind::Shape => 9,
        }
    }
}

/// A fault with its place: a byte offset in the program text, counted from 0.
#[derive(Clone, Copy, Debug, PartialEq, Eq)]
pub struct Fault {
    pub kind: FaultKind,
    pub at: usize,
}
