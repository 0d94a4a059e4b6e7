// From programs to plans.

ghost use Rattle.std.specs.Prelude.{◌≡◌, ◌⊎◌, Err, IfOk, IfErr};
ghost use Rattle.snesl_data.specs.declared.refusal.Refusal.TheVariants.{TooBig, NoMemory};
ghost use Rattle.flow_assembly.specs.Openings.{OpensPlan};
ghost use Rattle.flow_assembly.specs.Ready.{IsSmallEnough, IsTooBig};
ghost use Rattle.snesl_flatten.specs.PlanViews.{plan_typed, plan_states, PlansSteps};
ghost use Rattle.snesl_flatten.specs.Unset.{unset_steps};

use crate::plan::Plan;
use crate::steps::steps_of_program;
use flow_assembly::assemble;
use snesl_data::Refusal;
use snesl_translation::wiring::plans_are_wired;
use snesl_types::TypedProgram;
use std::alloc::Global;

/// The plan of a typed program: one network for all its inputs, which is that of the translation of the program. The faults
/// of each node are at the offset of the form that it comes from.
///
/// The translation is the flattening of nested data-parallelism (Blelloch and Sabot, 1990), onto streams (Madsen and
/// Filinski, 2013).
///
/// # Errors
///
/// - `TooBig`: the network has more than 4,096 nodes or 16,384 edges.
/// - `NoMemory`: memory was refused.
pub fn flatten<'a>(alloc: Global, typed: &'a TypedProgram<'a>) -> Result<Plan<'a>, Refusal>
    ensures program { IfOk result (λ plan. plan_typed plan ≡ typed.now) }
    ensures network { IfOk result (λ plan. PlansSteps (unset_steps typed.now) plan) }
    ensures opens { IfOk result (λ plan. OpensPlan (unset_steps typed.now) (plan_states plan)) }
    ensures big { result ≡ Err TooBig → IsTooBig (unset_steps typed.now) }
    ensures few { IfOk result (λ _. IsSmallEnough (unset_steps typed.now)) }
    ensures memory { IfErr result (λ refusal. (refusal ≡ TooBig) ⊎ (refusal ≡ NoMemory)) }
{
    let steps = steps_of_program(alloc, typed)?;
    plans_are_wired();
    let assembled = assemble(alloc, typed.dialect(), steps)?;
    Ok(Plan {
        alloc,
        typed,
        graph: assembled.graph,
        places: assembled.places,
    })
}
