// The steps of a program.

ghost use Rattle.std.specs.Prelude.{◌≡◌, ◌<◌, ◌⊎◌, length, IfOk, IfErr, Err};
ghost use Rattle.snesl_data.specs.declared.refusal.Refusal.TheVariants.{TooBig, NoMemory};
ghost use Rattle.snesl_values.specs.Inputs.{declared};
ghost use Rattle.snesl_types.specs.Typed.{typed_dialect};
ghost use Rattle.flow_networks.specs.Limits.{most_nodes};
ghost use Rattle.snesl_translator.specs.steps.Views.{dialect_of_steps, next_in, wires_of};
ghost use Rattle.snesl_translator.specs.steps.Added.{Adds};
ghost use Rattle.snesl_flatten.specs.Behind.{AddsPrinted, AddsInputSources};
ghost use Rattle.snesl_flatten.specs.Unset.{unset_plan, unset_steps, AreUnsetSteps};

use crate::offsets::first_offset;
use flow_nodes::plans::{Operation, Step};
use snesl_data::{Refusal, Ty};
use snesl_grammar::tree::Expr;
use snesl_translator::scopes::Scope;
use snesl_translator::steps::{Binding, Steps, Wires};
use snesl_translator::{ProgramContext, translate};
use snesl_types::TypedProgram;
use std::alloc::Global;

// The steps of a program whose inputs are not set. `TooBig` where they are more than a graph has nodes.
pub(crate) fn steps_of_program(
    alloc: Global,
    typed: &TypedProgram<'_>,
) -> Result<Vec<Step>, Refusal>
    ensures steps { IfOk result (λ steps. AreUnsetSteps typed.now steps.items) }
    ensures big { result ≡ Err TooBig → most_nodes < length (unset_steps typed.now) }
    ensures memory { IfErr result (λ refusal. (refusal ≡ TooBig) ⊎ (refusal ≡ NoMemory)) }
{
    let mut steps = Steps::new(alloc, typed.dialect());
    let _wires = add_program(&mut steps, typed)?;
    Ok(steps.into_steps())
}

// Adds them where no step is there yet, and returns the streams of the program's value.
fn add_program(steps: &mut Steps, typed: &TypedProgram<'_>) -> Result<Wires, Refusal>
    requires dialect { dialect_of_steps steps.old ≡ typed_dialect typed.now }
    requires next { next_in steps.old ≡ 0 }
    ensures { Adds wires_of steps.old steps.new (unset_plan typed.now) result }
{
    let program = typed.program();
    let at = first_offset(&program.expr);
    let control = steps.control(at)?;
    let inputs = bind_inputs(steps, at, typed.decls())?;
    let context = ProgramContext {
        text: &program.text,
        functions: &program.declarations,
    };
    let wires = print_value(steps, at, &context, &program.expr, &inputs, control)?;
    Ok(wires)
}

// Adds the beginnings of the streams of inputs, and returns these beside the names.
fn bind_inputs<'a>(
    steps: &mut Steps,
    at: usize,
    declarations: &'a [(Vec<u8>, Ty)],
) -> Result<Vec<Binding<'a>>, Refusal>
    ensures { AddsInputSources at (declared declarations.now) steps.old steps.new result }
{
    let mut bindings = Vec::new(steps.alloc());
    for declaration in declarations {
        let wires = steps.input(at, &declaration.1)?;
        let name = declaration.0.as_slice();
        bindings.push(Binding { name, wires })?;
    }
    Ok(bindings)
}

// Adds the steps of an expression under a control stream, and a Print of its value, whose streams are returned.
fn print_value(
    steps: &mut Steps,
    at: usize,
    context: &ProgramContext<'_>,
    expr: &Expr,
    inputs: &[Binding<'_>],
    control: usize,
) -> Result<Wires, Refusal>
    ensures { AddsPrinted at context.now expr.now inputs.now control steps.old steps.new result }
{
    let nothing = Scope::Nothing;
    let scope = Scope::Frame(inputs, &nothing);
    let wires = translate(steps, context, expr, &scope, control)?;
    let ty = wires.ty(steps.alloc())?;
    let numbers = wires.numbers(steps.alloc())?;
    steps.test(at, Operation::Print(ty), numbers)?;
    Ok(wires)
}
