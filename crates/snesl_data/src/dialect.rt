// The dialects of the language.

ghost use Rattle.std.specs.Prelude.{◌≡◌, pos};
ghost use Rattle.snesl_data.specs.Integers.{greatest_integer, is_integer};

/// Which integers a program has.
#[derive(Clone, Copy, Debug, PartialEq, Eq)]
pub enum Dialect {
    /// Integers of 64 bits with a sign: each program that names no other.
    One,
    /// Integers of 128 bits with a sign: a program that begins with `dialect 2;`.
    Two,
}

impl Dialect {
    /// The greatest integer, which is also the greatest literal.
    pub fn greatest(self) -> i128
        ensures { result ≡ pos (greatest_integer self) }
    {
        match self {
            Dialect::One => 9_223_372_036_854_775_807,
            Dialect::Two => i128::MAX,
        }
    }

    /// Whether an integer lies in the range.
    pub fn has(self, number: i128) -> bool
        ensures { result ≡ is_integer self number }
    {
        match self {
            Dialect::One => -9_223_372_036_854_775_808 <= number
                && number <= 9_223_372_036_854_775_807,
            Dialect::Two => true,
        }
    }
}
