//! Which fault is named where several nodes have faulted.

ghost use Rattle.std.specs.Prelude.{◌≡◌, [], ◌∷◌, MatchOption};
ghost use Rattle.kahn.specs.Faults.{IsNamedOf};

use snesl_data::{Fault, FaultKind};

/// The one of two faults that is named: not of kind `Shape` where the other is of another kind, else that of
/// the lesser offset, else that of the lesser number.
pub fn named(a: Fault, b: Fault) -> Fault
    ensures { IsNamedOf (a ∷ b ∷ []) result }
{
    let is_named = match (a.kind == FaultKind::Shape, b.kind == FaultKind::Shape) {
        (false, true) => true,
        (true, false) => false,
        _ => a.at < b.at || a.at == b.at && a.kind.number() <= b.kind.number(),
    };
    if is_named { a } else { b }
}

/// The one of all these faults that is named, as `named` chooses of two, in whatever order they come.
/// `None` where there are none.
pub fn named_fault(faults: &[Fault]) -> Option<Fault>
    ensures { MatchOption result (faults.now ≡ []) (λ fault. IsNamedOf faults.now fault) }
{
    let mut first: Option<Fault> = None;
    for &fault in faults {
        first = Some(match first {
            None => fault,
            Some(other) => named(other, fault),
        });
    }
    first
}
