// The ends of the share that has a node.
ghost use Rattle.std.specs.Prelude.{◌≡◌, ◌<◌, true, length};
ghost use Rattle.flow_shares.specs.Deals.{share_of};
ghost use Rattle.flow_drives.specs.Edges.{node_ends, SeenAt};
ghost use Rattle.flow_drives.specs.Tallies.{tally};

use crate::all_ends::SharedEnds;
use flow_messages::CountedEnds;
use flow_networks::Edge;
use flow_shares::share_of;

impl<E> SharedEnds<E> {
    /// The ends of the share that has this node.
    pub fn of_node(&self, node: usize) -> &E
        requires { share_of self.now.share.items node < length self.now.ends.items }
        ensures { (d : _) → result.now ≡ node_ends self.now node d }
    {
        &self.ends[share_of(&self.share, node)]
    }
}

impl<E: CountedEnds> SharedEnds<E> {
    /// How many messages were sent on the edge that has this number, and how many were received from it, as the shares of
    /// its two nodes count.
    pub fn counts(&self, edge: Edge, number: usize) -> (u64, u64)
        requires writer { share_of self.now.share.items edge.writer < length self.now.ends.items }
        requires reader { share_of self.now.share.items edge.reader < length self.now.ends.items }
        requires writes { SeenAt E.view self.now edge.writer (λ v. v.writes number ≡ true) }
        requires reads { SeenAt E.view self.now edge.reader (λ v. v.reads number ≡ true) }
        ensures sent { SeenAt E.view self.now edge.writer (λ v. result.0 ≡ tally (v.sent number)) }
        ensures received { SeenAt E.view self.now edge.reader (λ v. result.1 ≡ tally
            (v.received number)) }
    {
        (
            self.of_node(edge.writer).sent_count(number),
            self.of_node(edge.reader).received_count(number),
        )
    }
}
