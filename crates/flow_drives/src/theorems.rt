// What holds of every graph at rest. The function does nothing: its contract is the theorem.
ghost use Rattle.flow_drives.specs.Waiting.{RestsSound, RestsStill, KeepsCapacity};

use crate::rested::Rested;
use flow_base::Transducer;

/// A graph at rest is sound, no node can step, and no edge holds more than its capacity.
pub fn rested_is_sound<T: Transducer>(rested: &Rested<T>)
    ensures sound { RestsSound rested.now }
    ensures rest { RestsStill rested.now }
    ensures fits { KeepsCapacity rested.now }
{}
