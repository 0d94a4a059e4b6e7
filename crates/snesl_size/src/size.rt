// How much a program's edges must hold.

use flow_drives::Rested;
use flow_nodes::StreamNode;
use snesl_data::Fault;

/// At which capacities a program ends for its input text.
#[derive(Drop)]
pub enum Size {
    /// From this capacity on, and at no lesser one. The network is the one that has ended there. `full` is the edge that was full
    /// where each edge held one message less, and whose writer waited; none where the least capacity is 1.
    Ends {
        least: usize,
        full: Option<usize>,
        rested: Rested<StreamNode>,
    },
    /// At none, since the program ends in a fault. This is the one that is named at the first capacity where one is.
    Faults(Fault),
    /// At none that there is: it stalls at the greatest one too.
    NeverEnds,
}
