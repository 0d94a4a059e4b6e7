// Transducers that may gather a text.

use crate::transducer::Transducer;

/// A transducer that may gather a text.
pub trait Printing: Transducer {
    ghost use Rattle.std.specs.Prelude.{◌≡◌, ℕ, List, Option, option_map};

    ghost printed: { Self → Option (List ℕ) };

    /// The text so far, where it gathers one.
    fn printed(&self) -> Option<&[u8]>
        ensures { option_map (λ text. text.now) result ≡ printed self.now };
}
