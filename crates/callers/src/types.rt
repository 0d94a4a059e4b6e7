// Programs that are checked, and evaluated by their definition.
ghost use Rattle.std.specs.Prelude.{IfOk};
ghost use Rattle.callers.specs.Types.{IsValueOf};

use snesl_syntax::parse;
use snesl_types::{check, plain};
use snesl_values::{Datum, Fault, Refusal, read_inputs};
use std::alloc::Global;

/// The value of a program for an input text, or its first fault, by the slow evaluator. A refusal is
/// that of the first part that has one.
pub fn value_of(alloc: Global, text: &[u8], input: &[u8]) -> Result<Result<Datum, Fault>, Refusal>
    ensures { IfOk result (IsValueOf text.now input.now) }
{
    let program = parse(alloc, text)?;
    let typed = check(alloc, &program)?;
    let inputs = read_inputs(typed.dialect(), alloc, typed.decls(), input)?;
    Ok(plain(alloc, &typed, &inputs)?)
}
