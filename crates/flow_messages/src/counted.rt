// Ends that count.
use crate::ends::Ends;

/// Ends that count what goes over them. A count stays at `u64::MAX`.
pub trait CountedEnds: Ends {
    ghost use Rattle.std.specs.Prelude.{◌≡◌, true, length};
    ghost use Rattle.std.specs.Io.Iter.{u64_saturate};

    /// How many messages were put on the edge.
    fn sent_count(&self, edge: usize) -> u64
        requires { (Self.view self.now).writes edge ≡ true }
        ensures { result ≡ u64_saturate (length ((Self.view self.now).sent edge)) };

    /// How many messages were taken from the edge.
    fn received_count(&self, edge: usize) -> u64
        requires { (Self.view self.now).reads edge ≡ true }
        ensures { result ≡ u64_saturate (length ((Self.view self.now).received edge)) };
}
