// Operators on scalars, called directly.

use snesl_data::operators::{BinaryOperator, Scalar, UnaryOperator};
use snesl_data::{Dialect, FaultKind};
use std::process::Abort;

// Asserts values of operators in a dialect whose integers go from `least` to `greatest`.
fn assert_integers(rt: &impl Abort, dialect: Dialect, least: i128, greatest: i128) {
    let overflow = Err(FaultKind::Overflow);
    let rows = [
        (BinaryOperator::Divide, -7, 2, Ok(Scalar::Int(-3))),
        (BinaryOperator::Divide, 7, -2, Ok(Scalar::Int(-3))),
        (BinaryOperator::Remainder, -7, 2, Ok(Scalar::Int(-1))),
        (BinaryOperator::Remainder, 7, -2, Ok(Scalar::Int(1))),
        (BinaryOperator::Remainder, least, -1, Ok(Scalar::Int(0))),
        (BinaryOperator::Divide, least, -1, overflow),
        (BinaryOperator::Divide, least, 0, Err(FaultKind::Divide)),
        (BinaryOperator::Remainder, 1, 0, Err(FaultKind::Divide)),
        (BinaryOperator::Add, greatest, 1, overflow),
        (BinaryOperator::Add, greatest, least, Ok(Scalar::Int(-1))),
        (BinaryOperator::Subtract, least, 1, overflow),
        (BinaryOperator::Multiply, least, -1, overflow),
        (BinaryOperator::Multiply, least, 1, Ok(Scalar::Int(least))),
        (
            BinaryOperator::EqualIntegers,
            least,
            least,
            Ok(Scalar::Bool(true)),
        ),
        (BinaryOperator::AtMost, 2, 2, Ok(Scalar::Bool(true))),
        (BinaryOperator::Greater, 2, 2, Ok(Scalar::Bool(false))),
        (
            BinaryOperator::AtLeast,
            least,
            greatest,
            Ok(Scalar::Bool(false)),
        ),
        (BinaryOperator::And, 1, 1, Err(FaultKind::Shape)),
    ];
    for (operator, m, n, wanted) in rows {
        let value = operator.apply(dialect, Scalar::Int(m), Scalar::Int(n));
        assert_eq!(rt; value, wanted);
    }
    let negative = UnaryOperator::Negate.apply(dialect, Scalar::Int(least));
    assert_eq!(rt; negative, overflow);
}

#[test]
fn values_of_operators(rt: HostRuntime) {
    let least = -9_223_372_036_854_775_808;
    let greatest = 9_223_372_036_854_775_807;
    assert_integers(&rt, Dialect::One, least, greatest);
    assert_integers(&rt, Dialect::Two, i128::MIN, i128::MAX);
    for dialect in [Dialect::One, Dialect::Two] {
        let (yes, no) = (Scalar::Bool(true), Scalar::Bool(false));
        let values = [
            BinaryOperator::EqualTruths.apply(dialect, no, no),
            BinaryOperator::Or.apply(dialect, no, yes),
            BinaryOperator::And.apply(dialect, yes, no),
            UnaryOperator::Not.apply(dialect, yes),
        ];
        assert_eq!(rt; values, [Ok(yes), Ok(yes), Ok(no), Ok(no)]);
    }
}
