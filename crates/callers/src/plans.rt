// Programs that are kept with their types and their plans.
ghost use Rattle.std.specs.Prelude.{◌≡◌, IfOk, length, vec_len};
ghost use Rattle.snesl_flatten.specs.GraphsOfPlans.{HoldsOfGraph};
ghost use Rattle.snesl_flatten.specs.PlanViews.{plan_typed};
ghost use Rattle.callers.specs.Flatten.{HoldsOfEach, IsNetworkOf, IsNetworkOfTyped};

use flow_graph::Graph;
use snesl_flatten::{Plan, flatten};
use snesl_syntax::parse;
use snesl_types::check;
use snesl_values::{Refusal, read_inputs};
use std::alloc::Global;

/// The network of a plan, with the values that an input text gives in its sources. A refusal is that of
/// the input text, or want of memory.
pub fn network_of_plan(alloc: Global, plan: Plan, input: &[u8]) -> Result<Graph, Refusal>
    ensures { IfOk result (HoldsOfGraph (IsNetworkOfTyped (plan_typed plan.entry) input.now)) }
{
    let typed = plan.typed();
    let inputs = read_inputs(typed.dialect(), alloc, typed.decls(), input)?;
    Ok(plan.with(inputs)?)
}

/// The networks of a program for these input texts, in their order. The program is parsed and typed once.
///
/// A refusal is that of the program, or else of the first input text that has one.
pub fn networks_of(alloc: Global, text: &[u8], inputs: &[Vec<u8>]) -> Result<Vec<Graph>, Refusal>
    ensures count { IfOk result (λ graphs. vec_len graphs ≡ length inputs.now) }
    ensures each { IfOk result (HoldsOfEach (IsNetworkOf text.now) inputs.now) }
{
    let program = parse(alloc, text)?;
    let typed = check(alloc, &program)?;
    let mut graphs = Vec::new(alloc);
    for input in inputs {
        let plan = flatten(alloc, &typed)?;
        graphs.push(network_of_plan(alloc, plan, input)?)?;
    }
    Ok(graphs)
}
