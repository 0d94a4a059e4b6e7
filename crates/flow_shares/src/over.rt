// Nodes that are over.
ghost use Rattle.std.specs.Prelude.{◌≡◌, ◌↔◌, IsTrue};
ghost use Rattle.flow_networks.specs.Over.{is_over};
ghost use Rattle.flow_networks.specs.Places.{placed_state};
ghost use Rattle.flow_shares.specs.Shares.{AreOver};

use flow_base::Transducer;
use flow_networks::Placed;
use kahn::Want;

/// Whether the node makes no step again.
pub fn is_over<T: Transducer>(placed: &Placed<T>) -> bool
    ensures { result ≡ is_over (T.behaviour.process.want (placed_state placed.now)) }
{
    matches!(placed.node().want(), Want::Ended | Want::Faulted(_))
}

/// Whether none of these nodes makes a step again.
pub fn are_over<T: Transducer>(nodes: &[Placed<T>]) -> bool
    ensures { IsTrue result ↔ AreOver nodes.now }
{
    for placed in nodes {
        if !is_over(placed) {
            return false;
        }
    }
    true
}
