// Some nodes of a graph, and their ends.
ghost use Rattle.std.specs.Prelude.{◌≡◌, false};
ghost use Rattle.std.specs.List.{All};
ghost use Rattle.flow_shares.specs.Shares.{HasItsEnds, AreApart, IsOwn};

use flow_base::Transducer;
use flow_messages::Ends;
use flow_networks::Placed;

/// Some nodes of a graph, in ascending order, and the ends of the edges at their ports.
///
/// Unless it is starved, each node came to where it stands by reads and writes that are just what its edges received
/// and sent.
#[derive(Drop)]
pub struct Share<T: Transducer, E: Ends> {
    pub(crate) number: usize,
    pub(crate) nodes: Vec<Placed<T>>,
    pub(crate) ends: E,
    pub(crate) spent: bool,
    pub(crate) starved: bool,
    pub(crate) moved: bool,
    ghost there: { All (HasItsEnds (E.view ends)) nodes.items },
    ghost apart: { AreApart nodes.items },
    ghost own: { starved ≡ false → All (IsOwn (E.view ends)) nodes.items },
}

impl<T: Transducer, E: Ends> Share<T, E> {
    /// A share of these nodes, which has this number.
    pub fn new(number: usize, nodes: Vec<Placed<T>>, ends: E) -> Share<T, E>
        requires there { All (HasItsEnds (E.view ends)) nodes.items }
        requires apart { AreApart nodes.items }
        requires own { All (IsOwn (E.view ends)) nodes.items }
        ensures number { result.number ≡ number }
        ensures nodes { result.nodes ≡ nodes }
        ensures ends { result.ends ≡ ends }
        ensures spent { result.spent ≡ false }
        ensures starved { result.starved ≡ false }
        ensures moved { result.moved ≡ false }
    {
        Share {
            number,
            nodes,
            ends,
            spent: false,
            starved: false,
            moved: false,
        }
    }

    /// Its number.
    pub fn number(&self) -> usize
        ensures { result ≡ self.now.number }
    {
        self.number
    }

    /// Its nodes.
    pub fn nodes(&self) -> &[Placed<T>]
        ensures { result.now ≡ self.now.nodes.items }
    {
        &self.nodes
    }

    /// Its ends.
    pub fn ends(&self) -> &E
        ensures { result.now ≡ self.now.ends }
    {
        &self.ends
    }

    /// Whether the last pump made all the turns that it may make, and did not come to rest.
    pub fn spent(&self) -> bool
        ensures { result ≡ self.now.spent }
    {
        self.spent
    }

    /// Whether memory was refused to one of its nodes.
    pub fn starved(&self) -> bool
        ensures { result ≡ self.now.starved }
    {
        self.starved
    }

    /// Whether the last pump moved a message.
    pub fn moved(&self) -> bool
        ensures { result ≡ self.now.moved }
    {
        self.moved
    }

    /// Its nodes and its ends.
    pub fn into_parts(self) -> (Vec<Placed<T>>, E)
        ensures nodes { result.0 ≡ self.nodes }
        ensures ends { result.1 ≡ self.ends }
    {
        (self.nodes, self.ends)
    }
}
