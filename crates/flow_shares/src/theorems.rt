// What holds of nodes that were dealt out. The functions do nothing: their contracts are the theorems.
ghost use Rattle.flow_shares.specs.Deals.{StayDealt, AreDealtAsGiven};

use flow_base::Transducer;
use flow_networks::Placed;

/// Nodes that were dealt out stay so, each at its place, where each share becomes the same nodes later.
pub fn dealt_stay_dealt<T: Transducer>(nodes: &[Placed<T>])
    ensures { StayDealt nodes.now }
{}

/// Nodes that were just dealt out are dealt out.
pub fn just_dealt_are_dealt<T: Transducer>(nodes: &[Placed<T>])
    ensures { AreDealtAsGiven nodes.now }
{}
