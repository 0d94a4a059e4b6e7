// What can be asked of a graph that was settled.
ghost use Rattle.std.specs.Prelude.{◌≡◌, ◌<◌, length};
ghost use Rattle.std.specs.Io.Iter.{u64_saturate};
ghost use Rattle.flow_networks.specs.Graphs.{edges_of};
ghost use Rattle.flow_networks.specs.Settling.{settled_graph, sent_on, received_on};

use crate::graph::Graph;
use crate::settled::Settled;
use flow_base::Transducer;
use flow_messages::CountedEnds;

impl<T: Transducer> Settled<T> {
    /// The graph, its nodes where they came to rest.
    pub fn graph(&self) -> &Graph<T>
        ensures { result.now ≡ settled_graph self.now }
    {
        &self.graph
    }

    /// How many messages were sent on the edge, and how many were received from it. A count stays at
    /// `u64::MAX`.
    pub fn counts(&self, edge: usize) -> (u64, u64)
        requires { edge < length (edges_of (settled_graph self.now)) }
        ensures sent { result.0 ≡ u64_saturate (length (sent_on self.now edge)) }
        ensures received { result.1 ≡ u64_saturate (length (received_on self.now edge)) }
    {
        (self.ends.sent_count(edge), self.ends.received_count(edge))
    }
}
