// What holds of the rows of all transducers. The function does nothing: its contract is the theorem.
ghost use Rattle.flow_base.specs.RowPorts.{RowsOnPorts};
ghost use Rattle.flow_nodes.specs.StreamNodes.{node_behaviour};

/// The row of each transducer speaks of the bodies at its ports alone: where it holds, it holds over all bodies that are
/// the same at these.
pub fn rows_on_ports()
    ensures { RowsOnPorts node_behaviour }
{}
