// Numbers that a seed decides.
ghost use Rattle.std.specs.Prelude.{◌<◌};

use rand_core::{Rng, SeedableRng};
use rand_xoshiro::Xoshiro256PlusPlus;

/// Numbers that a seed decides.
#[derive(Drop)]
pub struct Dice {
    rng: Xoshiro256PlusPlus,
}

impl Dice {
    /// The numbers of a seed, from the first on.
    pub fn new(seed: u64) -> Dice {
        Dice {
            rng: Xoshiro256PlusPlus::seed_from_u64(seed),
        }
    }

    /// A number below `end`; 0 where nothing is.
    pub fn below(&mut self, end: usize) -> usize
        ensures { 0 < end → result < end }
    {
        let word = self.rng.next_u64() as usize;
        word.checked_rem(end).unwrap_or(0)
    }

    /// Whether something happens that does once in so many times.
    pub fn once_in(&mut self, times: usize) -> bool {
        self.below(times) == 0
    }
}
