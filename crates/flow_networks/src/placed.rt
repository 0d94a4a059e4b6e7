// Transducers in their places.
ghost use Rattle.std.specs.Prelude.{◌≡◌, length};
ghost use Rattle.flow_base.specs.Visits.{IsReached};

use flow_base::Transducer;

/// A transducer as a node: its number, and the edge at each of its ports.
///
/// It came to where it stands by reads and writes of its own.
#[derive(Drop)]
pub struct Placed<T: Transducer> {
    pub(crate) number: usize,
    pub(crate) node: T,
    pub(crate) inputs: Vec<usize>,
    pub(crate) outputs: Vec<usize>,
    ghost reached: { IsReached T.behaviour (T.state node) },
    ghost each_input: { length inputs.items ≡ T.behaviour.inputs (T.state node) },
    ghost each_output: { length outputs.items ≡ T.behaviour.outputs (T.state node) },
}
