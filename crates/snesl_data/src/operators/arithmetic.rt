// Arithmetic that refuses what does not lie in the range of a dialect.

ghost use Rattle.std.specs.Prelude.{◌≡◌, MatchOption, Err, ◌+ℤ◌, ◌-ℤ◌, ◌*ℤ◌, neg_ℤ};
ghost use Rattle.snesl_data.specs.declared.fault.FaultKind.TheVariants.{Overflow};
ghost use Rattle.snesl_data.specs.operators.Operators.{ranged, quotient, remainder};

use crate::{Dialect, FaultKind};

// The number, where there is one and it lies in the range.
#[inline(always)]
fn in_range(dialect: Dialect, number: Option<i128>) -> Result<i128, FaultKind>
    ensures { MatchOption number (result ≡ Err Overflow) (λ n. result ≡ ranged dialect n) }
{
    match number {
        Some(number) if dialect.has(number) => Ok(number),
        _ => Err(FaultKind::Overflow),
    }
}

/// The sum. `Overflow` where it does not lie in the range.
#[inline(always)]
pub fn sum(dialect: Dialect, m: i128, n: i128) -> Result<i128, FaultKind>
    ensures { result ≡ ranged dialect (m +ℤ n) }
{
    in_range(dialect, m.checked_add(n))
}

/// `m` less `n`. `Overflow` where it does not lie in the range.
#[inline(always)]
pub fn difference(dialect: Dialect, m: i128, n: i128) -> Result<i128, FaultKind>
    ensures { result ≡ ranged dialect (m -ℤ n) }
{
    in_range(dialect, m.checked_sub(n))
}

/// The product. `Overflow` where it does not lie in the range.
#[inline(always)]
pub fn product(dialect: Dialect, m: i128, n: i128) -> Result<i128, FaultKind>
    ensures { result ≡ ranged dialect (m *ℤ n) }
{
    in_range(dialect, m.checked_mul(n))
}

/// The negative. `Overflow` where it does not lie in the range.
#[inline(always)]
pub fn negative(dialect: Dialect, n: i128) -> Result<i128, FaultKind>
    ensures { result ≡ ranged dialect (neg_ℤ n) }
{
    in_range(dialect, n.checked_neg())
}

/// `m` over `n`, rounded towards zero. `Divide` where `n` is 0, `Overflow` where it does not lie in the range.
#[inline(always)]
pub fn quotient(dialect: Dialect, m: i128, n: i128) -> Result<i128, FaultKind>
    ensures { result ≡ quotient dialect m n }
{
    match n {
        0 => Err(FaultKind::Divide),
        _ => in_range(dialect, m.checked_div(n)),
    }
}

/// What `m` over `n`, rounded towards zero, leaves, which is no further from 0 than `m`. `Divide` where `n` is 0.
#[inline(always)]
pub fn remainder(m: i128, n: i128) -> Result<i128, FaultKind>
    ensures { result ≡ remainder m n }
{
    if n == 0 {
        return Err(FaultKind::Divide);
    }
    Ok(m.wrapping_rem(n))
}
