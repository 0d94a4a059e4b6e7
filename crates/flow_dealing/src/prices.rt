// What messages cost, in picoseconds. In one thread: the least times of squares, wide, nest and deep at chunk 1,024 (docs/bench.svg),
// spread over their messages, which tells each of them within a factor of one and a half; an element of `tab` and an index as
// docs/TIMES.md has them. Over rings: the times of these programs, of row and of heavy in one thread and in four, where the nodes
// are dealt by a cut.
ghost use Rattle.std.specs.Prelude.{◌≡◌, ◌<◌, ◌≤◌};
ghost use Rattle.flow_dealing.specs.declared.prices.Driven.TheVariants.{OverFewRings, OverManyRings};

use flow_messages::Kind;
use flow_nodes::StreamNode;

/// How nodes are driven.
#[derive(Clone, Copy, Debug, PartialEq, Eq)]
pub enum Driven {
    /// In one thread, without rings.
    Alone,
    /// In several threads, where each edge is a ring, and all rings lie in caches.
    OverFewRings,
    /// The same, with so many rings that they do not.
    OverManyRings,
}

// So many rings lie in caches.
const MOST_IN_CACHES: usize = 1_024;

/// How nodes are driven in several threads, with so many edges between them.
pub fn over_rings(edges: usize) -> Driven
    ensures few { edges ≤ 1024 → result ≡ OverFewRings }
    ensures many { 1024 < edges → result ≡ OverManyRings }
{
    if edges <= MOST_IN_CACHES {
        Driven::OverFewRings
    } else {
        Driven::OverManyRings
    }
}

/// What a message of this kind costs the node that reads or writes it.
pub fn price(driven: Driven, node: &StreamNode, kind: Kind) -> u64
    ensures { 0 < result }
{
    passage(driven, kind) + work(node)
}

// What a message costs to be read or written.
fn passage(driven: Driven, kind: Kind) -> u64
    ensures positive { 0 < result }
    ensures small { result < 10000 }
{
    match (driven, kind) {
        (Driven::Alone, Kind::Unit) => 70,
        (Driven::Alone, Kind::Bool) => 140,
        (Driven::Alone, Kind::Int) => 280,
        (Driven::Alone, Kind::Vec) => 1_500,
        (Driven::OverFewRings, Kind::Unit) => 700,
        (Driven::OverFewRings, Kind::Bool) => 1_000,
        (Driven::OverFewRings, Kind::Int) => 550,
        (Driven::OverManyRings, Kind::Unit | Kind::Bool | Kind::Int) => 1_500,
        (Driven::OverFewRings | Driven::OverManyRings, Kind::Vec) => 5_000,
    }
}

// What the node does for a message besides.
fn work(node: &StreamNode) -> u64
    ensures { result < 10000 }
{
    match node {
        StreamNode::Binary(_) | StreamNode::Dist(_) => 210,
        StreamNode::Reduce(_) | StreamNode::ScanAdd(_) => 280,
        StreamNode::Tab(_) | StreamNode::Seq(_) => 6_000,
        StreamNode::Index(_) => 9_000,
        _ => 0,
    }
}

/// What it costs besides at each of its ends, where these are in two threads.
pub fn crossing_price(kind: Kind) -> u64
    ensures { 0 < result }
{
    match kind {
        Kind::Unit | Kind::Bool | Kind::Int => 400,
        Kind::Vec => 1_000,
    }
}
