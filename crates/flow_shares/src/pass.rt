// One turn of a share.
ghost use Rattle.std.specs.Prelude.{◌≡◌, ◌<◌, true, false, IfOk, OnErr};
ghost use Rattle.std.specs.List.{All};
ghost use Rattle.flow_messages.specs.Ends.{SameEnds};
ghost use Rattle.flow_networks.specs.Skeletons.{AreSamePlaces};
ghost use Rattle.flow_shares.specs.Shares.{HasItsEnds, AreApart, IsOwn, TakesMemory};
ghost use Rattle.flow_shares.specs.Running.{NoneMoved, SomeMoved, NoneCanMove, RanOn, RanAndLost, RanApart};

use crate::over::is_over;
use flow_base::Transducer;
use flow_messages::Ends;
use flow_networks::Placed;
use std::alloc::AllocError;

/// Visits each node once, in order, with at most `chunk` steps each, from the first on that is not over. Whether one made a
/// step.
///
/// An error where memory was refused to a node. Then a message that it was to read is lost.
pub fn pass<T: Transducer, E: Ends>(
    nodes: &mut Vec<Placed<T>>,
    ends: &mut E,
    chunk: usize,
) -> Result<bool, AllocError>
    requires some { 0 < chunk }
    requires there { All (HasItsEnds (E.view ends.old)) nodes.old.items }
    requires apart { AreApart nodes.old.items }
    requires own { All (IsOwn (E.view ends.old)) nodes.old.items }
    ensures places { AreSamePlaces nodes.old.items nodes.new.items }
    ensures same { E.same ends.old ends.new }
    ensures ends { SameEnds (E.view ends.old) (E.view ends.new) }
    ensures moved { IfOk result (λ any. RanOn E.view nodes.old ends.old nodes.new ends.new) }
    ensures spares { IfOk result (λ _. RanApart E.view nodes.old ends.old nodes.new ends.new) }
    ensures lost { OnErr result (RanAndLost E.view nodes.old ends.old nodes.new ends.new) }
    ensures starves { OnErr result (TakesMemory nodes.new.items) }
    ensures busy { IfOk result (λ any. any ≡ true → SomeMoved E.view ends.old ends.new) }
    ensures calm { IfOk result (λ any. any ≡ false → NoneMoved E.view ends.old ends.new) }
    ensures stuck { IfOk result (λ any. any ≡ false → NoneCanMove E.view nodes.old ends.old) }
    ensures rest { IfOk result (λ any. any ≡ false → NoneCanMove E.view nodes.new ends.new) }
{
    // Nodes mostly end in order. After one that is not over, a test of each would cost more than it spares.
    let (mut moved, mut running) = (false, false);
    for k in 0..nodes.len() {
        if running || !is_over(&nodes[k]) {
            running = true;
            moved |= nodes[k].run(ends, chunk)?;
        }
    }
    Ok(moved)
}
