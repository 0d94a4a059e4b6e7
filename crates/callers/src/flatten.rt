// Networks of programs.
ghost use Rattle.std.specs.Prelude.{IfOk};
ghost use Rattle.snesl_flatten.specs.Graphs.{states_of, edges_of};
ghost use Rattle.callers.specs.Flatten.{IsNetworkOf};

use flow_graph::Graph;
use snesl_flatten::flatten;
use snesl_syntax::parse;
use snesl_types::check;
use snesl_values::{Refusal, read_inputs};
use std::alloc::Global;

/// The network of a program, with the values that an input text gives in its sources. A refusal is that
/// of the first part that has one.
pub fn network_of(alloc: Global, text: &[u8], input: &[u8]) -> Result<Graph, Refusal>
    ensures { IfOk result
        (λ graph. IsNetworkOf text.now input.now (states_of graph) (edges_of graph)) }
{
    let program = parse(alloc, text)?;
    let typed = check(alloc, &program)?;
    let inputs = read_inputs(typed.dialect(), alloc, typed.decls(), input)?;
    let plan = flatten(alloc, &typed)?;
    Ok(plan.with(inputs)?)
}
