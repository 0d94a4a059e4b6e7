// Links between nodes.

/// An edge between two nodes, named by their numbers, and what it costs the share of each where these are two.
#[derive(Clone, Copy, Debug, PartialEq, Eq)]
pub struct Link {
    pub writer: usize,
    pub reader: usize,
    pub cost: u64,
}
