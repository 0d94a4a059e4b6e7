// Transducers over scalars.
ghost use Rattle.std.specs.Prelude.{◌≡◌, not};
ghost use Rattle.flow_scalar.specs.Cells.{flag};
ghost use Rattle.flow_scalar.specs.Signals.{signal_of, carry};

use flow_edges::{Item, Msg};
use flow_scalar::{Transducer, Unary, UnaryOperator, workers};
use snesl_values::Dialect;

/// What a node for `not` writes where it has read a truth value. It takes no memory.
pub fn negated(truth: bool) -> Msg
    ensures { signal_of result ≡ carry (flag (not truth)) }
{
    let mut node = Unary::new(workers::Unary::new(Dialect::One, UnaryOperator::Not), 0);
    node.give(0, Msg::Item(Item::Bool(truth))).unwrap();
    node.emit().unwrap()
}
