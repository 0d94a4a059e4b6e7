// Calls of ends that are certain to succeed.

ghost use Rattle.std.specs.Prelude.{◌≡◌, ℕ, ◌+◌, ◌<◌, ◌≤◌, true, List};
ghost use Rattle.std.specs.List.{All};
ghost use Rattle.flow_messages.specs.Signals.{signal_of};
ghost use Rattle.flow_messages.specs.Ends.{SameEnds};
ghost use Rattle.flow_messages.specs.Kinds.{FitsEdge};
ghost use Rattle.flow_base.specs.Visits.{LeavesAlone, TakesNext, Wrote};

use flow_messages::{Ends, Msg};

/// Takes the message that was seen at the front, and drops it.
#[inline(always)]
pub fn take_front<E: Ends>(ends: &mut E, edge: usize)
    requires { (E.view ends.old).reads edge ≡ true }
    ensures same { E.same ends.old ends.new }
    ensures taken { TakesNext (E.view ends.old) edge (E.view ends.new) }
{
    let _ = ends.take(edge);
}

/// Puts a message where room is certain. It is dropped where `End` was put on the edge before.
#[inline(always)]
pub fn put_in_space<E: Ends>(ends: &mut E, edge: usize, message: Msg)
    requires writes { (E.view ends.old).writes edge ≡ true }
    requires fits { FitsEdge ((E.view ends.old).kind edge) (signal_of message) }
    requires certain { 0 < (E.view ends.old).room edge }
    ensures same { E.same ends.old ends.new }
    ensures wrote { Wrote (E.view ends.old) edge (signal_of message) (E.view ends.new) }
    ensures room { (E.view ends.old).room edge ≤ (E.view ends.new).room edge + 1 }
{
    let _ = ends.put(edge, message);
}

/// Looks for messages on all of these edges. Ends between threads are certain only of what they saw.
#[inline(always)]
pub(crate) fn look_for_messages<E: Ends>(ends: &mut E, edges: &[usize])
    requires { All (λ e. (E.view ends.old).reads e ≡ true) edges.now }
    ensures same { E.same ends.old ends.new }
    ensures ends { SameEnds (E.view ends.old) (E.view ends.new) }
    ensures looked { (outs : List ℕ) → LeavesAlone edges.now outs (E.view ends.old) (E.view ends.new) }
{
    for edge in edges {
        let _ = ends.ready(*edge);
    }
}
