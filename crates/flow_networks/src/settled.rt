// Graphs that were settled.
ghost use Rattle.std.specs.Prelude.{length};
ghost use Rattle.flow_messages.specs.Tables.{ends_of};
ghost use Rattle.flow_networks.specs.Graphs.{edges_of};
ghost use Rattle.flow_networks.specs.Visits.{HasAllEnds};

use crate::graph::Graph;
use flow_base::Transducer;
use flow_messages::Table;

/// A graph whose nodes were stepped until none could, and what was sent and received on its edges.
#[derive(Drop)]
pub struct Settled<T: Transducer> {
    pub(crate) graph: Graph<T>,
    pub(crate) ends: Table,
    ghost there: { HasAllEnds (length (edges_of graph)) (ends_of ends) },
}
