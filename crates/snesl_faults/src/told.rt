// What a fault of a program tells.

ghost use Rattle.std.specs.Prelude.{IfSome};
ghost use Rattle.snesl_faults.specs.Faults.{FaultsWith};

use crate::finding::Stop;
use crate::search::search;
use snesl_data::{Datum, Fault};
use snesl_evaluation::{ProgramContext, Scope, entries_of};
use snesl_grammar::Program;
use snesl_values::Inputs;
use std::alloc::Global;

// How many elements the values on the way to a fault may have, all counted.
const MOST_ELEMENTS: usize = 100_000;

/// The values of the parts of the form at which a program ends in this fault, where evaluation comes to it first. `inputs` has
/// the values that the program starts with.
///
/// There are none where evaluation comes to another fault first, where the values on the way have over 100,000 elements, and
/// where memory is refused.
pub fn values_at_fault(
    alloc: Global,
    program: &Program,
    inputs: &Inputs,
    fault: Fault,
) -> Option<Vec<Datum>>
    ensures { IfSome result (FaultsWith program.now fault) }
{
    let context = ProgramContext {
        alloc,
        dialect: program.dialect,
        text: &program.text,
        functions: &program.declarations,
    };
    let entries = match entries_of(alloc, inputs) {
        Ok(entries) => entries,
        Err(_) => return None,
    };
    let mut budget = MOST_ELEMENTS;
    match search(
        &context,
        &program.expr,
        &Scope::Inputs(&entries),
        &mut budget,
    ) {
        Err(Stop::Found(finding)) => {
            if finding.fault.kind == fault.kind && finding.fault.at == fault.at {
                Some(finding.values)
            } else {
                None
            }
        }
        _ => None,
    }
}
