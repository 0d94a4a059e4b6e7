// Programs as graphs.
use flow_graph::Graph;
use snesl_flatten::{Plan, flatten};
use snesl_types::TypedProgram;
use snesl_values::{Inputs, Refusal};
use std::alloc::Global;

/// The graph of a program with inputs, if these are its own.
pub fn graph_of(
    alloc: Global,
    typed: &TypedProgram,
    inputs: Inputs,
) -> Result<Option<Graph>, Refusal> {
    let plan: Plan = flatten(alloc, typed)?;
    if !plan.fits(&inputs) {
        return Ok(None);
    }
    Ok(Some(plan.with(inputs)?))
}
