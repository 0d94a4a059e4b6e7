// What holds of all runs. The functions do nothing: their contracts are the theorems.

ghost use Rattle.snesl_run.specs.Alike.{HaveOneOutcome};
ghost use Rattle.snesl_run.specs.Cuts.{CutsChangeNothing};

use flow_drives::runs_rest_alike;
use flow_nodes::StreamNode;
use snesl_flatten::network::one_network;
use snesl_syntax::one_answer;
use snesl_values::one_input_meaning;

/// How a program comes out for its input text is a function of these and of the capacity, for each drive in steps: the
/// value, the fault with its place, or the edge that a stall names; and so are the messages of each edge.
pub fn one_outcome()
    ensures { HaveOneOutcome }
{
    one_network();
    runs_rest_alike::<StreamNode>();
}

/// What is cut off a program that is too long, or off an input text that is, changes nothing of what they mean.
pub fn cuts_change_nothing()
    ensures { CutsChangeNothing }
{
    one_answer();
    one_input_meaning();
}
