//! What holds of the traffic of every network: the histories of its edges (G. Kahn, "The semantics of a simple
//! language for parallel programming", 1974).

ghost use Rattle.kahn.specs.Processes.{Process, Settles};
ghost use Rattle.kahn.specs.Networks.{Network, OfLawfulNetworks};
ghost use Rattle.kahn.specs.Traffic.{WholeTraffic};
ghost use Rattle.kahn.specs.TrafficTheorems.{OneTraffic, AllTraffic, CarriesFromNodes, EpochsEnd};

/// Each sound configuration has beginnings of the one traffic, and no fault: what the edges carry is
/// determined by the nodes alone (Kahn 1974).
pub fn one_traffic<State, Message>()
    ensures { (P : Process State Message) → OfLawfulNetworks P (OneTraffic P) }
{}

/// Where all nodes ended, the edges carried the one traffic.
pub fn same_traffic<State, Message>()
    ensures { (P : Process State Message) → OfLawfulNetworks P (AllTraffic P) }
{}

/// Where each node has a complete run over the same lists, these are what the edges carry.
pub fn carries_from_nodes<State, Message>()
    ensures { (P : Process State Message) (net : Network State) → CarriesFromNodes P net }
{}

/// The whole traffic is finite, and no sound configuration exceeds it.
pub fn whole_traffic<State, Message>()
    ensures { (P : Process State Message) →
        OfLawfulNetworks P (λ net. Settles P → WholeTraffic P net) }
{}

/// Where each configuration has moved more than the one before, no more of them follow the first than twice
/// the number of messages of the whole traffic.
pub fn epochs_end<State, Message>()
    ensures { (P : Process State Message) (net : Network State) → EpochsEnd P net }
{}
