// What a graph that was dealt out is.
use crate::Share;
use crate::meetings::owners::EdgeOwners;
use flow_base::Transducer;
use flow_messages::Ends;
use flow_networks::Skeleton;

/// A graph that was dealt out to shares.
#[derive(Drop)]
pub struct Dealt<T: Transducer, E: Ends> {
    /// The shares, by their numbers.
    pub shares: Vec<Share<T, E>>,
    /// Of each edge, by its number, the shares of its writer and its reader.
    pub owners: Vec<EdgeOwners>,
    /// The skeleton in which the nodes of all shares belong.
    pub skeleton: Skeleton,
}
