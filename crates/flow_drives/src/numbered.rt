// What graphs at rest have, by the numbers of nodes and edges.
ghost use Rattle.std.specs.Prelude.{◌≡◌, ◌<◌, length};
ghost use Rattle.std.specs.Io.Iter.{u64_saturate};
ghost use Rattle.flow_networks.specs.Edges.{edge_at};
ghost use Rattle.flow_networks.specs.Graphs.{edges_of};
ghost use Rattle.flow_networks.specs.Skeletons.{edges_in};
ghost use Rattle.flow_networks.specs.Networks.{state_at};
ghost use Rattle.flow_shares.specs.Deals.{share_of};
ghost use Rattle.flow_drives.specs.Parts.{gathered_traffic, shares_states, shares_traffic};
ghost use Rattle.flow_drives.specs.Edges.{at_share};

use crate::all_ends::AllEnds;
use crate::parts::Gathered;
use crate::ring_shares::RingShares;
use flow_base::Transducer;
use flow_edges::lanes::Rings;
use flow_messages::CountedEnds;
use flow_networks::Edge;
use flow_shares::{Share, share_of};

impl<T: Transducer> Gathered<T> {
    /// How many messages were sent on the edge, and how many were received from it.
    pub fn counts(&self, edge: usize) -> (u64, u64)
        requires { edge < length (edges_of self.now.graph) }
        ensures sent { result.0 ≡ u64_saturate (length ((gathered_traffic self.now).sent edge)) }
        ensures received { result.1 ≡ u64_saturate (length
            ((gathered_traffic self.now).received edge)) }
    {
        let ends = self.graph.edge(edge);
        match &self.all_ends {
            AllEnds::Whole(table) => (table.sent_count(edge), table.received_count(edge)),
            AllEnds::Shared(shared) => shared.counts(ends, edge),
        }
    }
}

impl<T: Transducer> RingShares<T> {
    /// The edge of this number.
    pub fn edge(&self, number: usize) -> Edge
        requires { number < length (edges_in self.now.skeleton) }
        ensures { result ≡ edge_at (edges_in self.now.skeleton) number }
    {
        self.skeleton.edges()[number]
    }

    /// The node of this number, where it lies in its share.
    pub fn node(&self, number: usize) -> &T
        requires { number < length self.now.places.items }
        ensures { T.state result.now ≡ state_at T.behaviour (shares_states self.now) number }
    {
        let share = self.of_node(number);
        share.nodes()[self.places[number]].node()
    }

    /// How many messages were sent on the edge, and how many were received from it, as the shares of its two nodes count.
    pub fn counts(&self, edge: usize) -> (u64, u64)
        requires { edge < length (edges_in self.now.skeleton) }
        ensures sent { result.0 ≡ u64_saturate (length ((shares_traffic self.now).sent edge)) }
        ensures received { result.1 ≡ u64_saturate (length
            ((shares_traffic self.now).received edge)) }
    {
        let nodes = self.edge(edge);
        let writer = self.of_node(nodes.writer).ends();
        let reader = self.of_node(nodes.reader).ends();
        (writer.sent_count(edge), reader.received_count(edge))
    }

    // The share that has this node.
    fn of_node(&self, node: usize) -> &Share<T, Rings>
        requires { share_of self.now.share.items node < length self.now.shares.items }
        ensures { (d : _) → result.now ≡
            at_share self.now.share.items self.now.shares.items node d }
    {
        &self.shares[share_of(&self.share, node)]
    }
}
