// Graphs as text, and those that several tests take.
//
// A sketch has a line for each node and each edge, in this order of their numbers:
//
//   node OFFSET WORDS     a node at this offset in the program text, before it has read or written anything
//                         (`node_words.rt`)
//   edge 0.1 2.3          an edge from node 0, port 1, to node 2, port 3
//
// Empty lines are passed over. Any other line is refused.

ghost use Rattle.std.specs.Prelude.{IfOk};
ghost use Rattle.flow_networks.specs.Graphs.{states_of, states_so_far};
ghost use Rattle.flow_networks.specs.Networks.{AreOpened};
ghost use Rattle.flow_nodes.specs.StreamNodes.{node_behaviour};

use crate::building::{add, built, join};
use crate::node_words::node_of;
use crate::words::{WordError, number_of};
use flow_networks::{Graph, GraphBuilder};
use flow_nodes::StreamNode;
use std::alloc::Global;
use std::test::Fail;

/// The sum of the numbers below five.
pub const SUM_OF_FIVE: &str = r"
node 0 source units 1
node 1 const 5
node 2 iota
node 3 reduce one sum
node 4 sink int
edge 0.0 1.0
edge 1.0 2.0
edge 2.0 3.0
edge 2.1 3.1
edge 3.0 4.0
";

/// Sources of `1, 2` and of `1` into an addition at offset 7, and a sink.
pub const SUM_OF_UNLIKE: &str = r"
node 0 source ints 1 2
node 0 source ints 1
node 7 binary one add
node 0 sink int
edge 0.0 2.0
edge 1.0 2.1
edge 2.0 3.0
";

/// The flags of one segment of two elements, of which one copy waits for numbers that come from the other: its length, and
/// the numbers below it.
pub const WAITS_FOR_ITS_LENGTH: &str = r"
node 0 source bools F F T
node 1 fork bool 2
node 2 length one
node 3 iota
node 4 reduce one sum
node 5 sink bool
node 6 sink int
edge 0.0 1.0
edge 1.0 4.0
edge 1.1 2.0
edge 2.0 3.0
edge 3.0 5.0
edge 3.1 4.1
edge 4.0 6.0
";

/// Prints the sequence of the numbers below five.
pub const PRINTS_BELOW_FIVE: &str = r"
node 0 source units 1
node 1 const 5
node 2 iota
node 3 print seq int
edge 0.0 1.0
edge 1.0 2.0
edge 2.0 3.0
edge 2.1 3.1
";

/// The sums at offset 0 of the quotients at offset 35, of which the third has no value, and its sum neither.
pub const SCAN_OF_QUOTIENTS: &str = r"
node 0 source bools F F F T
node 0 source ints 9223372036854775807 1 1
node 0 source ints 1 1 0
node 35 binary one divide
node 0 scan_add one
node 0 sink int
edge 0.0 4.0
edge 1.0 3.0
edge 2.0 3.1
edge 3.0 4.1
edge 4.0 5.0
";

/// One unit.
pub const ONE_UNIT: &str = r"
node 0 source units 1
node 0 sink unit
edge 0.0 1.0
";

/// More units than a pump has turns.
pub const MANY_UNITS: &str = r"
node 0 source units 66000
node 0 sink unit
edge 0.0 1.0
";

/// The numbers below 12,000, each negated by eleven nodes in turn, and the text of their sum: as many nodes as there may be threads.
pub const LONG_CHAIN: &str = r"
node 0 source units 1
node 0 const 12000
node 0 iota
node 0 unary one negate
node 0 unary one negate
node 0 unary one negate
node 0 unary one negate
node 0 unary one negate
node 0 unary one negate
node 0 unary one negate
node 0 unary one negate
node 0 unary one negate
node 0 unary one negate
node 0 unary one negate
node 0 reduce one sum
node 0 print int
edge 0.0 1.0
edge 1.0 2.0
edge 2.0 14.0
edge 2.1 3.0
edge 3.0 4.0
edge 4.0 5.0
edge 5.0 6.0
edge 6.0 7.0
edge 7.0 8.0
edge 8.0 9.0
edge 9.0 10.0
edge 10.0 11.0
edge 11.0 12.0
edge 12.0 13.0
edge 13.0 14.1
edge 14.0 15.0
";

/// The text of the sums of the numbers below 30, each up to the one before.
pub const SCAN_OF_NUMBERS: &str = r"
node 0 source units 1
node 0 const 30
node 0 iota
node 0 fork bool 2
node 0 scan_add one
node 0 print seq int
edge 0.0 1.0
edge 1.0 2.0
edge 2.0 3.0
edge 2.1 4.1
edge 3.0 4.0
edge 3.1 5.0
edge 4.0 5.1
";

/// The graph of a sketch, in which each port has its edge.
pub fn graph_of(alloc: Global, sketch: &str) -> Result<Graph<StreamNode>, Fail>
    ensures { IfOk result (λ graph. AreOpened node_behaviour (states_of graph)) }
{
    built(drawn(alloc, sketch)?)
}

/// The nodes and edges of a sketch.
pub fn drawn(alloc: Global, sketch: &str) -> Result<GraphBuilder<StreamNode>, Fail>
    ensures { IfOk result (λ builder. AreOpened node_behaviour (states_so_far builder)) }
{
    let mut builder = GraphBuilder::new(alloc);
    for line in sketch.lines() {
        if !line.is_empty() {
            draw_line(alloc, &mut builder, line)?;
        }
    }
    Ok(builder)
}

// Adds the node or the edge of a line.
fn draw_line(alloc: Global, builder: &mut GraphBuilder<StreamNode>, line: &str) -> Result<(), Fail>
    requires { AreOpened node_behaviour (states_so_far builder.old) }
    ensures { AreOpened node_behaviour (states_so_far builder.new) }
{
    let (field, words) = line.split_once(' ').ok_or(WordError::Unread)?;
    let (first, second) = words.split_once(' ').ok_or(WordError::Unread)?;
    match field {
        "node" => add(builder, node_of(alloc, second, number_of(first)?)?),
        "edge" => join(builder, end_of(first)?, end_of(second)?),
        _ => Err(Fail::new("a line that is no node and no edge")),
    }
}

// A node and its port.
fn end_of(words: &str) -> Result<(usize, usize), WordError> {
    let (node, port) = words.split_once('.').ok_or(WordError::Unread)?;
    Ok((number_of(node)?, number_of(port)?))
}
