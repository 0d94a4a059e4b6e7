// What the nodes of a graph want that is at rest.
ghost use Rattle.flow_drives.specs.Waiting.{NamesStandingFault, NamesFirstToWrite};

use crate::rested::Rested;
use flow_base::Transducer;
use kahn::Want;
use kahn::faults::named;
use snesl_data::Fault;

/// The fault that is named of all to which nodes have come.
pub fn standing_fault<T: Transducer>(rested: &Rested<T>) -> Option<Fault>
    ensures { NamesStandingFault rested.now result }
{
    let mut standing: Option<Fault> = None;
    for node in 0..rested.nodes() {
        if let Want::Faulted(fault) = rested.node(node).want() {
            standing = Some(match standing {
                None => fault,
                Some(other) => named(other, fault),
            });
        }
    }
    standing
}

/// The first edge whose writer wants to write to it.
pub fn first_to_write<T: Transducer>(rested: &Rested<T>) -> Option<usize>
    ensures { NamesFirstToWrite rested.now result }
{
    for number in 0..rested.edges() {
        let edge = rested.edge(number);
        if let Want::Write(port) = rested.node(edge.writer).want() {
            if port == edge.writer_port {
                return Some(number);
            }
        }
    }
    None
}
