// What can be asked of a graph at rest.
ghost use Rattle.std.specs.Prelude.{◌≡◌, ◌<◌, length, MatchOption};
ghost use Rattle.std.specs.Io.Iter.{u64_saturate};
ghost use Rattle.flow_networks.specs.Edges.{edge_at};
ghost use Rattle.flow_networks.specs.Networks.{state_at};
ghost use Rattle.flow_drives.specs.Resteds.{rested_states, rested_edges, rested_rounds, rested_epochs, traffic_of, AreTheShares};
ghost use Rattle.flow_drives.specs.Texts.{IsLastText};
ghost use Rattle.flow_drives.specs.Waiting.{RestedComesOut, IsGathered};

use crate::outcome::{first_to_write, standing_fault};
use crate::parts::Parts;
use crate::rested::Rested;
use flow_base::{Printing, Transducer};
use flow_edges::lanes::Rings;
use flow_networks::Edge;
use flow_shares::Share;
use kahn::Outcome;

impl<T: Transducer> Rested<T> {
    /// How it came out: `Value` where each node has ended, the fault that is named where some node has faulted, and
    /// else `Stalled` with the least edge that holds its capacity while its writer waits to write to it.
    pub fn outcome(&self) -> Outcome
        ensures { RestedComesOut self.now result }
    {
        if let Some(fault) = standing_fault(self) {
            return Outcome::Fault(fault);
        }
        match first_to_write(self) {
            Some(edge) => Outcome::Stalled { edge },
            None => Outcome::Value,
        }
    }

    /// How many nodes it has.
    pub fn nodes(&self) -> usize
        ensures { result ≡ length (rested_states self.now) }
    {
        match &self.parts {
            Parts::Together(gathered) => gathered.graph.nodes(),
            Parts::Apart(shares) => shares.places.len(),
        }
    }

    // The node of this number.
    pub(crate) fn node(&self, number: usize) -> &T
        requires { number < length (rested_states self.now) }
        ensures { T.state result.now ≡ state_at T.behaviour (rested_states self.now) number }
    {
        match &self.parts {
            Parts::Together(gathered) => gathered.graph.node(number),
            Parts::Apart(shares) => shares.node(number),
        }
    }

    /// How many edges it has.
    pub fn edges(&self) -> usize
        ensures { result ≡ length (rested_edges self.now) }
    {
        match &self.parts {
            Parts::Together(gathered) => gathered.graph.edges(),
            Parts::Apart(shares) => shares.skeleton.edges().len(),
        }
    }

    // The edge of this number.
    pub(crate) fn edge(&self, number: usize) -> Edge
        requires { number < length (rested_edges self.now) }
        ensures { result ≡ edge_at (rested_edges self.now) number }
    {
        match &self.parts {
            Parts::Together(gathered) => gathered.graph.edge(number),
            Parts::Apart(shares) => shares.edge(number),
        }
    }

    /// How many messages were sent on the edge, and how many were received from it. A count stays at `u64::MAX`.
    pub fn counts(&self, edge: usize) -> (u64, u64)
        requires { edge < length (rested_edges self.now) }
        ensures sent { result.0 ≡ u64_saturate (length ((traffic_of self.now).sent edge)) }
        ensures received { result.1 ≡ u64_saturate (length ((traffic_of self.now).received edge)) }
    {
        match &self.parts {
            Parts::Together(gathered) => gathered.counts(edge),
            Parts::Apart(shares) => shares.counts(edge),
        }
    }

    /// How many rounds it took, after each of which the threads were joined and the messages carried over: none, in one
    /// thread and over rings. The count stays at `u64::MAX`.
    pub fn rounds(&self) -> u64
        ensures { result ≡ rested_rounds self.now }
    {
        self.rounds
    }

    /// How many epochs it took, in each of which the ends of all edges met over rings: none, in one thread and in rounds.
    /// The count stays at `u64::MAX`.
    pub fn epochs(&self) -> u64
        ensures { result ≡ rested_epochs self.now }
    {
        self.epochs
    }

    /// The shares, in the order in which the configured list names them, with all nodes and both ends of every edge, at
    /// rest and met: of a graph that was driven over rings, and of no other.
    pub fn rings(&self) -> Option<&[Share<T, Rings>]>
        ensures { MatchOption result (IsGathered self.now)
            (λ shares. AreTheShares self.now shares.now) }
    {
        match &self.parts {
            Parts::Apart(shares) => Some(&shares.shares),
            Parts::Together(_) => None,
        }
    }
}

impl<T: Printing> Rested<T> {
    /// The text that was gathered by the node of the greatest number that gathers one, and no text where none does.
    pub fn text(&self) -> &[u8]
        ensures { IsLastText T.state T.printed (rested_states self.now) result.now }
    {
        let mut last: &[u8] = &[];
        for node in 0..self.nodes() {
            if let Some(text) = self.node(node).printed() {
                last = text;
            }
        }
        last
    }
}
