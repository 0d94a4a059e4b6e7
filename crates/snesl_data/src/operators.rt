//! The operators of the language on scalars: what each gives, and which fault where it gives nothing.

mod arithmetic;
mod operator;
mod scalar;

pub use arithmetic::sum;
pub use operator::{BinaryOperator, Reduction, UnaryOperator};
pub use scalar::{Scalar, ScalarType};
