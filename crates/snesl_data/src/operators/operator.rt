// Operators on one scalar and on two, and reductions.

ghost use Rattle.std.specs.Prelude.{◌≡◌};
ghost use Rattle.snesl_data.specs.operators.Operators.{unary_operand, binary_operand, binary_result, unary_value, binary_value};
ghost use Rattle.snesl_data.specs.operators.Reductions.{reduction_type, reduced_nothing, reduced_more, reduced_all};
ghost use Rattle.snesl_data.specs.declared.operators.scalar.Scalar.TheVariants.{Int, Bool};

use crate::operators::arithmetic::{difference, negative, product, quotient, remainder, sum};
use crate::operators::scalar::{Scalar, ScalarType};
use crate::{Dialect, FaultKind};

/// An operator on one scalar.
#[derive(Clone, Copy, Debug, PartialEq, Eq)]
pub enum UnaryOperator {
    /// Unary `-`.
    Negate,
    /// `not`.
    Not,
}

impl UnaryOperator {
    /// The type of the operand, and of the value.
    pub fn operand(self) -> ScalarType
        ensures { result ≡ unary_operand self }
    {
        match self {
            UnaryOperator::Negate => ScalarType::Int,
            UnaryOperator::Not => ScalarType::Bool,
        }
    }

    /// The value at this operand. `Overflow` where it does not lie in the range, `Shape` for an operand of another type.
    #[inline(always)]
    pub fn apply(self, dialect: Dialect, operand: Scalar) -> Result<Scalar, FaultKind>
        ensures { result ≡ unary_value dialect self operand }
    {
        match (self, operand) {
            (UnaryOperator::Negate, Scalar::Int(number)) => Ok(Scalar::Int(negative(
                dialect, number,
            )?)),
            (UnaryOperator::Not, Scalar::Bool(truth)) => Ok(Scalar::Bool(!truth)),
            _ => Err(FaultKind::Shape),
        }
    }
}

/// An operator on two scalars.
#[derive(Clone, Copy, Debug, PartialEq, Eq)]
pub enum BinaryOperator {
    Add,
    Subtract,
    Multiply,
    /// `/`, rounded towards zero.
    Divide,
    /// `%`, with the sign of the dividend.
    Remainder,
    /// `==` of two integers.
    EqualIntegers,
    /// `==` of two truth values.
    EqualTruths,
    Less,
    /// `<=`.
    AtMost,
    Greater,
    /// `>=`.
    AtLeast,
    And,
    Or,
}

impl BinaryOperator {
    /// The type of both operands.
    pub fn operand(self) -> ScalarType
        ensures { result ≡ binary_operand self }
    {
        match self {
            BinaryOperator::EqualTruths | BinaryOperator::And | BinaryOperator::Or =>
                ScalarType::Bool,
            _ => ScalarType::Int,
        }
    }

    /// The type of the value.
    pub fn result(self) -> ScalarType
        ensures { result ≡ binary_result self }
    {
        match self {
            BinaryOperator::Add
            | BinaryOperator::Subtract
            | BinaryOperator::Multiply
            | BinaryOperator::Divide
            | BinaryOperator::Remainder => ScalarType::Int,
            _ => ScalarType::Bool,
        }
    }

    /// The value at these operands. `Divide` where the divisor is 0, `Overflow` where the value does not lie in the range,
    /// `Shape` for operands of another type.
    #[inline(always)]
    pub fn apply(self, dialect: Dialect, left: Scalar, right: Scalar) -> Result<Scalar, FaultKind>
        ensures { result ≡ binary_value dialect self left right }
    {
        match (left, right) {
            (Scalar::Int(m), Scalar::Int(n)) => self.of_integers(dialect, m, n),
            (Scalar::Bool(a), Scalar::Bool(b)) => self.of_truths(dialect, a, b),
            _ => Err(FaultKind::Shape),
        }
    }

    #[inline(always)]
    fn of_integers(self, dialect: Dialect, m: i128, n: i128) -> Result<Scalar, FaultKind>
        ensures { result ≡ binary_value dialect self (Int m) (Int n) }
    {
        Ok(match self {
            BinaryOperator::Add => Scalar::Int(sum(dialect, m, n)?),
            BinaryOperator::Subtract => Scalar::Int(difference(dialect, m, n)?),
            BinaryOperator::Multiply => Scalar::Int(product(dialect, m, n)?),
            BinaryOperator::Divide => Scalar::Int(quotient(dialect, m, n)?),
            BinaryOperator::Remainder => Scalar::Int(remainder(m, n)?),
            BinaryOperator::EqualIntegers => Scalar::Bool(m == n),
            BinaryOperator::Less => Scalar::Bool(m < n),
            BinaryOperator::AtMost => Scalar::Bool(m <= n),
            BinaryOperator::Greater => Scalar::Bool(m > n),
            BinaryOperator::AtLeast => Scalar::Bool(m >= n),
            _ => return Err(FaultKind::Shape),
        })
    }

    fn of_truths(self, dialect: Dialect, a: bool, b: bool) -> Result<Scalar, FaultKind>
        ensures { result ≡ binary_value dialect self (Bool a) (Bool b) }
    {
        match self {
            BinaryOperator::EqualTruths => Ok(Scalar::Bool(a == b)),
            BinaryOperator::And => Ok(Scalar::Bool(a && b)),
            BinaryOperator::Or => Ok(Scalar::Bool(a || b)),
            _ => Err(FaultKind::Shape),
        }
    }
}

/// What is made of all elements of a sequence.
#[derive(Clone, Copy, Debug, PartialEq, Eq)]
pub enum Reduction {
    /// The sum; 0 of nothing.
    Sum,
    /// The greatest; there is none of nothing.
    Max,
    /// Whether all are true.
    All,
    /// Whether one is true.
    Any,
}

impl Reduction {
    /// The type of the elements, and of the value.
    pub fn scalar_type(self) -> ScalarType
        ensures { result ≡ reduction_type self }
    {
        match self {
            Reduction::Sum | Reduction::Max => ScalarType::Int,
            Reduction::All | Reduction::Any => ScalarType::Bool,
        }
    }

    /// What nothing reduces to. `None` where it has no value.
    pub fn nothing(self) -> Option<Scalar>
        ensures { result ≡ reduced_nothing self }
    {
        match self {
            Reduction::Sum => Some(Scalar::Int(0)),
            Reduction::Max => None,
            Reduction::All => Some(Scalar::Bool(true)),
            Reduction::Any => Some(Scalar::Bool(false)),
        }
    }

    /// What the elements so far and one more reduce to. `Overflow` where a sum does not lie in the range, `Shape` where the
    /// element or what is so far is of another type.
    pub fn more(
        self,
        dialect: Dialect,
        so_far: Option<Scalar>,
        element: Scalar,
    ) -> Result<Option<Scalar>, FaultKind>
        ensures { result ≡ reduced_more dialect self so_far element }
    {
        match (self, so_far, element) {
            (Reduction::Sum, Some(sum), _) => Ok(Some(BinaryOperator::Add.apply(
                dialect, sum, element,
            )?)),
            (Reduction::Max, None, Scalar::Int(_)) => Ok(Some(element)),
            (Reduction::Max, Some(Scalar::Int(greatest)), Scalar::Int(number)) => {
                Ok(Some(Scalar::Int(greatest.max(number))))
            }
            (Reduction::All, Some(all), _) => Ok(Some(BinaryOperator::And.apply(
                dialect, all, element,
            )?)),
            (Reduction::Any, Some(any), _) => Ok(Some(BinaryOperator::Or.apply(
                dialect, any, element,
            )?)),
            _ => Err(FaultKind::Shape),
        }
    }

    /// The value of what the elements reduce to. `EmptyMax` where it has none.
    pub fn value(so_far: Option<Scalar>) -> Result<Scalar, FaultKind>
        ensures { result ≡ reduced_all so_far }
    {
        so_far.ok_or(FaultKind::EmptyMax)
    }
}
