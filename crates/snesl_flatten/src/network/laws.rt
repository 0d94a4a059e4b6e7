// What holds of the networks of programs. The function does nothing: its contract is the theorem.

ghost use Rattle.snesl_flatten.specs.network.OneNetwork.{HaveOneNetwork};

use flow_assembly::plan_has_one_network;
use snesl_syntax::one_answer;
use snesl_values::one_input_meaning;

/// A program with an input text has one network: all that is driven for them is the same, node by node, with the offsets
/// of their faults, and edge by edge.
pub fn one_network()
    ensures { HaveOneNetwork }
{
    one_answer();
    one_input_meaning();
    plan_has_one_network();
}
