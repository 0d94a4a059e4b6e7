// Integers and truth values.

ghost use Rattle.std.specs.Prelude.{◌≡◌};
ghost use Rattle.snesl_data.specs.operators.Operators.{type_of};

/// The type of a scalar.
#[derive(Clone, Copy, Debug, PartialEq, Eq)]
pub enum ScalarType {
    Int,
    Bool,
}

/// An integer of a dialect, or a truth value.
#[derive(Clone, Copy, Debug, PartialEq, Eq)]
pub enum Scalar {
    Int(i128),
    Bool(bool),
}

impl Scalar {
    /// The type of the scalar.
    pub fn scalar_type(self) -> ScalarType
        ensures { result ≡ type_of self }
    {
        match self {
            Scalar::Int(_) => ScalarType::Int,
            Scalar::Bool(_) => ScalarType::Bool,
        }
    }
}
