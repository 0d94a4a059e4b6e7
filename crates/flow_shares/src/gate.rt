// What is called before each turn of a pump.

/// What a pump calls before each of its turns, in its own thread.
pub trait Gate {
    ghost use Rattle.std.specs.Prelude.{◌<◌, ℕ};
    ghost use Rattle.flow_shares.specs.Shares.{most_turns};

    /// It was told that the share of this number makes its turn of this number. Only a call of `turn` gives it, so whoever
    /// promises it of any gate has made that call. A gate need not say what it is.
    ghost heard: { Self → ℕ → ℕ → Type 0 } = { λ _ _ _. Unit {0} };

    /// The share of this number is about to make its turn of this number, counted from 0 in each pump.
    fn turn(&self, share: usize, turn: usize)
        requires { turn < most_turns }
        ensures { heard self.now share turn };
}

/// A gate that does nothing.
#[derive(Clone, Copy, Debug, Drop)]
pub struct NoGate;

impl Gate for NoGate {
    fn turn(&self, _: usize, _: usize) {}
}
