// Graphs, finished and not.
ghost use Rattle.flow_networks.specs.Places.{states_in, AreSeated};
ghost use Rattle.flow_networks.specs.Kept.{IsKept, IsBuilt};

use crate::edge::Edge;
use crate::placed::Placed;
use crate::wiring::Wiring;
use flow_base::Transducer;
use std::alloc::Global;

/// A graph that is being built: transducers, and edges between them.
#[derive(Drop)]
pub struct GraphBuilder<T: Transducer> {
    pub(crate) nodes: Vec<Placed<T>>,
    pub(crate) wiring: Wiring,
    pub(crate) alloc: Global,
    ghost kept: { IsKept T.behaviour (states_in nodes.items)
        wiring.ports.items wiring.edges.items },
    ghost seated: { AreSeated nodes.items wiring.edges.items },
}

/// Transducers that are joined by edges, each port by one.
#[derive(Drop)]
pub struct Graph<T: Transducer> {
    pub(crate) nodes: Vec<Placed<T>>,
    pub(crate) edges: Vec<Edge>,
    ghost built: { IsBuilt T.behaviour (states_in nodes.items) edges.items },
    ghost seated: { AreSeated nodes.items edges.items },
}

/// The edges of a graph whose nodes were taken out.
#[derive(Drop)]
pub struct Skeleton {
    pub(crate) edges: Vec<Edge>,
}
