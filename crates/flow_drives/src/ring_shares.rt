// Shares at rest, over rings.
ghost use Rattle.flow_networks.specs.Skeletons.{edges_in};
ghost use Rattle.flow_drives.specs.Apart.{RestApart};

use flow_base::Transducer;
use flow_edges::lanes::Rings;
use flow_networks::Skeleton;
use flow_shares::Share;

/// The shares of a graph that was driven over rings, at rest.
#[derive(Drop)]
pub struct RingShares<T: Transducer> {
    /// At which place of its share each node lies.
    pub places: Vec<usize>,
    /// The edges.
    pub skeleton: Skeleton,
    /// Which share has each node: node `k` has the entry at `k` modulo the length.
    pub share: Vec<u8>,
    /// The shares, in the order in which that list names them.
    pub shares: Vec<Share<T, Rings>>,
    /// How many messages an edge holds at most.
    pub capacity: usize,
    ghost rest: { RestApart share.items places.items (edges_in skeleton) shares.items capacity },
}
