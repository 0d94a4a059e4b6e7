// The steps of a program, made as snesl_flatten makes them for its network.

use flow_nodes::plans::{Operation, Step};
use snesl_advice::culprits::first_offset;
use snesl_data::{Refusal, Ty};
use snesl_translator::scopes::Scope;
use snesl_translator::steps::{Binding, Steps};
use snesl_translator::{ProgramContext, translate};
use snesl_types::TypedProgram;
use std::alloc::Global;

// The steps of a program whose inputs are not set. `TooBig` where they are more than a graph has nodes.
pub(crate) fn steps_of_program(
    alloc: Global,
    typed: &TypedProgram<'_>,
) -> Result<Vec<Step>, Refusal> {
    let mut steps = Steps::new(alloc, typed.dialect());
    add_program(&mut steps, typed)?;
    Ok(steps.into_steps())
}

// Adds them: the control stream, the inputs, the program's expression, and a Print of its value.
fn add_program(steps: &mut Steps, typed: &TypedProgram<'_>) -> Result<(), Refusal> {
    let program = typed.program();
    let at = first_offset(&program.expr);
    let control = steps.control(at)?;
    let inputs = bind_inputs(steps, at, typed.decls())?;
    let context = ProgramContext {
        text: &program.text,
        functions: &program.declarations,
    };
    let nothing = Scope::Nothing;
    let scope = Scope::Frame(&inputs, &nothing);
    let wires = translate(steps, &context, &program.expr, &scope, control)?;
    let ty = wires.ty(steps.alloc())?;
    let numbers = wires.numbers(steps.alloc())?;
    steps.test(at, Operation::Print(ty), numbers)
}

// Adds the beginnings of the streams of inputs, and returns these beside the names.
fn bind_inputs<'a>(
    steps: &mut Steps,
    at: usize,
    declarations: &'a [(Vec<u8>, Ty)],
) -> Result<Vec<Binding<'a>>, Refusal> {
    let mut bindings = Vec::new(steps.alloc());
    for declaration in declarations {
        let wires = steps.input(at, &declaration.1)?;
        let name = declaration.0.as_slice();
        bindings.push(Binding { name, wires })?;
    }
    Ok(bindings)
}
