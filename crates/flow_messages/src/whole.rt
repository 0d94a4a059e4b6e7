// Ends that hold both ends of each of their edges.
use crate::ends::Ends;

/// Both ends of each edge. What was sent and not received is then what the edge holds, and both
/// `room` and `ready` are exact.
pub trait WholeEnds: Ends {
    ghost use Rattle.std.specs.Prelude.{◌≡◌, ℕ, true};
    ghost use Rattle.flow_messages.specs.Ends.{held};
    ghost use Rattle.flow_messages.specs.Whole.{IsWhole};

    /// How many messages each edge holds at most.
    ghost capacity: { Self → ℕ };

    /// How many messages each edge holds at most.
    fn capacity(&self) -> usize
        ensures { result ≡ capacity self.now };

    /// How many messages the edge holds.
    fn held(&self, edge: usize) -> usize
        requires { (Self.view self.now).reads edge ≡ true }
        ensures { result ≡ held (Self.view self.now) edge };

    ghost whole: { (a : Self) → IsWhole (capacity a) (Self.view a) };

    ghost same_capacity: { (a b : Self) → Self.same a b → capacity b ≡ capacity a };
}
