// The edges of graphs at rest whose nodes were gathered.
ghost use Rattle.std.specs.Prelude.{◌≡◌, ◌<◌, length};

use flow_boxes::Boxes;
use flow_messages::Table;

/// The edges of a graph at rest: what was sent and received on them, and what they hold.
#[derive(Drop)]
pub enum AllEnds {
    /// Both ends of every edge are in one table.
    Whole(Table),
    /// The ends are in the boxes of shares.
    Shared(SharedEnds<Boxes>),
}

/// The ends that the shares of a graph have, by the shares' numbers.
#[derive(Drop)]
pub struct SharedEnds<E> {
    /// Which share has each node: node `k` has the entry at `k` modulo the length.
    pub share: Vec<u8>,
    /// The ends of each share.
    pub ends: Vec<E>,
    /// How many messages an edge holds at most.
    pub capacity: usize,
    ghost named: { 0 < length share.items },
}

impl<E> SharedEnds<E> {
    /// The ends of shares among which this list deals the nodes.
    pub fn new(share: Vec<u8>, ends: Vec<E>, capacity: usize) -> SharedEnds<E>
        requires { 0 < length share.items }
        ensures share { result.share ≡ share }
        ensures ends { result.ends ≡ ends }
        ensures capacity { result.capacity ≡ capacity }
    {
        SharedEnds {
            share,
            ends,
            capacity,
        }
    }
}
