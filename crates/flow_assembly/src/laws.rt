// What holds of the states in which transducers open, and of the networks of plans. The functions do nothing: their contracts
// are the theorems.

ghost use Rattle.flow_assembly.specs.OneNetwork.{PlansHaveOneNetwork};
ghost use Rattle.flow_assembly.specs.Openings.{OpeningsPerform};

use flow_nodes::functions::rows_are_functions;

/// A transducer in the state in which that of an operation opens does what the operation says: its ports are of the
/// operation's kinds, and its row is the operation's function.
pub fn openings_perform()
    ensures { OpeningsPerform }
{
    rows_are_functions();
}

/// A plan has at most one network: the states in which its nodes open, and how its edges join them, are determined.
pub fn plan_has_one_network()
    ensures { PlansHaveOneNetwork }
{}
