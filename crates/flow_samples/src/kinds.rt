// Which items an edge takes.

use flow_messages::{Ends, Kind};

/// Whether the edge takes units, truth values, integers and vectors, where its writer is there.
pub fn kinds_taken<E: Ends>(ends: &E, edge: usize) -> Option<[bool; 4]> {
    if !ends.has_writer(edge) {
        return None;
    }
    Some([
        ends.takes(edge, Kind::Unit),
        ends.takes(edge, Kind::Bool),
        ends.takes(edge, Kind::Int),
        ends.takes(edge, Kind::Vec),
    ])
}
