// How a graph is to be driven.
ghost use Rattle.std.specs.Prelude.{◌<◌, ◌↔◌, IsTrue};
ghost use Rattle.std.specs.List.{All};
ghost use Rattle.flow_drives.specs.Configs.{IsWithin, IsLawful};

use flow_messages::Table;

/// The most steps of a node at one visit.
pub const MAX_CHUNK: usize = 1_024;

/// The most threads of a drive.
pub const MAX_THREADS: usize = 16;

/// The most turns in a row without a step that a thread makes.
pub const MAX_IDLE_TURNS: usize = 1_000_000;

/// The most entries of the list that deals out the nodes to threads.
pub const MAX_SHARE: usize = 4_096;

/// Which drive runs the graph.
#[derive(Clone, Copy, Debug, PartialEq, Eq)]
pub enum Drive {
    /// All nodes in the caller's thread, in ascending order, until a whole pass moves nothing.
    Serial,
    /// Shares of the nodes in threads of their own, all side by side, round after round; messages pass between the rounds.
    Rounds,
    /// Shares of the nodes in threads of their own, all side by side, over rings; messages pass between them at any time.
    Rings,
}

/// How a graph is to be driven. `threads`, `idle` and `share` are for drives of several threads: `Serial` does not read them.
#[derive(Debug, Drop)]
pub struct Config {
    /// How many messages an edge holds at most, 1 to [`flow_messages::MAX_CAPACITY`].
    pub capacity: usize,
    /// How many steps a node makes at most before the next node has its turn, 1 to [`MAX_CHUNK`].
    pub chunk: usize,
    /// How many threads there are, 1 to [`MAX_THREADS`].
    pub threads: usize,
    /// How many turns in a row without a step a thread makes before it ends, 1 to [`MAX_IDLE_TURNS`].
    pub idle: usize,
    /// Which thread has each node: node `k` has the entry at `k` modulo the length. 1 to [`MAX_SHARE`] entries, each
    /// below `threads`.
    pub share: Vec<u8>,
    /// The drive.
    pub drive: Drive,
}

impl Config {
    /// Whether each field lies within its limits.
    pub fn lawful(&self) -> bool
        ensures { IsTrue result ↔ IsLawful self.now }
    {
        Table::is_capacity(self.capacity)
            && is_within(self.chunk, MAX_CHUNK)
            && is_within(self.threads, MAX_THREADS)
            && is_within(self.idle, MAX_IDLE_TURNS)
            && is_within(self.share.len(), MAX_SHARE)
            && all_below(&self.share, self.threads)
    }
}

// Whether the number is at least 1 and at most `most`.
fn is_within(number: usize, most: usize) -> bool
    ensures { IsTrue result ↔ IsWithin most number }
{
    number >= 1 && number <= most
}

// Whether each of these bytes is below `end`.
fn all_below(bytes: &[u8], end: usize) -> bool
    ensures { IsTrue result ↔ All (λ byte. byte < end) bytes.now }
{
    bytes.iter().all(|&byte| (byte as usize) < end)
}
