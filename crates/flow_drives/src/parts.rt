// The nodes and edges of graphs at rest.
ghost use Rattle.flow_networks.specs.Graphs.{states_of, edges_of};
ghost use Rattle.flow_drives.specs.Drives.{IsSoundAt, RestsAt};
ghost use Rattle.flow_drives.specs.Edges.{traffic_in, capacity_in, AreThere};

use crate::all_ends::AllEnds;
use crate::ring_shares::RingShares;
use flow_base::Transducer;
use flow_networks::Graph;

/// The nodes and edges of a graph at rest.
#[derive(Drop)]
pub enum Parts<T: Transducer> {
    /// The nodes are in one graph.
    Together(Gathered<T>),
    /// The nodes stayed in their shares, over rings.
    Apart(RingShares<T>),
}

/// A graph at rest, and its edges.
#[derive(Drop)]
pub struct Gathered<T: Transducer> {
    /// The graph.
    pub graph: Graph<T>,
    /// Its edges, as its drive left them.
    pub all_ends: AllEnds,
    ghost there: { AreThere (edges_of graph) all_ends },
    ghost sound: { IsSoundAt T.behaviour (states_of graph) (edges_of graph)
        (traffic_in (edges_of graph) all_ends) },
    ghost rest: { RestsAt T.behaviour (states_of graph) (edges_of graph)
        (capacity_in all_ends) (traffic_in (edges_of graph) all_ends) },
}
