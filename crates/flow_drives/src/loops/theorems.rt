// What holds of epochs that follow each other. The function does nothing: its contract is the theorem.
ghost use Rattle.flow_drives.specs.loops.Few.{EpochsAreFew};

use flow_base::Transducer;
use flow_edges::lanes::Rings;
use flow_messages::Ends;

/// Where epochs follow each other, and a node can step before each, there are at most twice as many as messages that are
/// sent in the whole traffic of the network.
pub fn epochs_are_few<T: Transducer>()
    ensures { EpochsAreFew ⟦<T as Transducer>⟧ ⟦<Rings as Ends>⟧ }
{}
