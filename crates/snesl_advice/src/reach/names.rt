// Names that are bound around others.

ghost use Rattle.std.specs.Prelude.{◌≡◌, ◌++◌, ◌==◌, [], ◌∷◌, Some, None, IfOk, OnOk, if◌then◌else◌, option_map};
ghost use Rattle.snesl_grammar.specs.tree.View.{binders_of};
ghost use Rattle.snesl_advice.specs.reach.Candidates.{bound_by, functions, values};
ghost use Rattle.snesl_advice.specs.reach.View.{FindsNames, function_places, input_places, names_of, parameter_places, widened, within_function, within_program};

use snesl_grammar::tree::{Binder, Declaration, Span, Typing};
use std::alloc::{AllocError, Global};

/// The names that may stand at a place, each as it stands in the text of the program where it is bound or declared.
#[derive(Debug, Drop)]
pub enum Candidates {
    /// Of values, innermost first: binders and names of `let`, then parameters, or inputs.
    Values(Vec<Span>),
    /// Of functions: those declared before, in order. The built-in ones may stand there too.
    Functions(Vec<Span>),
}

// Around a variable that stands at the offset nothing is bound yet.
pub(crate) fn variable_here(alloc: Global, name: Span, at: usize) -> Option<Candidates>
    ensures { option_map names_of result ≡ (if name.at == at then Some (values []) else None) }
{
    if name.at == at {
        return Some(Candidates::Values(Vec::new(alloc)));
    }
    None
}

// And the same before a function that is called there.
pub(crate) fn function_here(alloc: Global, name: Span, at: usize) -> Option<Candidates>
    ensures { option_map names_of result ≡ (if name.at == at then Some (functions []) else None) }
{
    if name.at == at {
        return Some(Candidates::Functions(Vec::new(alloc)));
    }
    None
}

// With a name that is bound around these.
pub(crate) fn with_name(
    found: Option<Candidates>,
    name: Span,
) -> Result<Option<Candidates>, AllocError>
    ensures { IfOk result (FindsNames (widened (name ∷ []) found)) }
{
    match found {
        Some(Candidates::Values(mut names)) => {
            names.push(name)?;
            Ok(Some(Candidates::Values(names)))
        }
        other => Ok(other),
    }
}

// With the names of binders.
pub(crate) fn with_binders(
    found: Option<Candidates>,
    binders: &[Binder],
) -> Result<Option<Candidates>, AllocError>
    ensures { IfOk result (FindsNames (widened (bound_by (binders_of binders.now)) found)) }
{
    match found {
        Some(Candidates::Values(mut names)) => {
            append_binders(&mut names, binders)?;
            Ok(Some(Candidates::Values(names)))
        }
        other => Ok(other),
    }
}

// With the parameters of the function around these, or the functions before it.
pub(crate) fn with_parameters(
    found: Option<Candidates>,
    parameters: &[Typing],
    earlier: &[Declaration],
) -> Result<Option<Candidates>, AllocError>
    ensures { IfOk result (FindsNames (within_function parameters.now earlier.now found)) }
{
    match found {
        Some(Candidates::Values(mut names)) => {
            append_parameters(&mut names, parameters)?;
            Ok(Some(Candidates::Values(names)))
        }
        Some(Candidates::Functions(mut names)) => {
            append_functions(&mut names, earlier)?;
            Ok(Some(Candidates::Functions(names)))
        }
        None => Ok(None),
    }
}

// With the inputs, or all functions.
pub(crate) fn with_inputs(
    found: Option<Candidates>,
    declarations: &[Declaration],
) -> Result<Option<Candidates>, AllocError>
    ensures { IfOk result (FindsNames (within_program declarations.now found)) }
{
    match found {
        Some(Candidates::Values(mut names)) => {
            append_inputs(&mut names, declarations)?;
            Ok(Some(Candidates::Values(names)))
        }
        Some(Candidates::Functions(mut names)) => {
            append_functions(&mut names, declarations)?;
            Ok(Some(Candidates::Functions(names)))
        }
        None => Ok(None),
    }
}

fn append_binders(names: &mut Vec<Span>, binders: &[Binder]) -> Result<(), AllocError>
    ensures { OnOk result (names.new.items
        ≡ names.old.items ++ bound_by (binders_of binders.now)) }
{
    for binder in binders {
        names.push(binder.name)?;
    }
    Ok(())
}

fn append_parameters(names: &mut Vec<Span>, parameters: &[Typing]) -> Result<(), AllocError>
    ensures { OnOk result (names.new.items ≡ names.old.items ++ parameter_places parameters.now) }
{
    for parameter in parameters {
        names.push(parameter.name)?;
    }
    Ok(())
}

fn append_inputs(names: &mut Vec<Span>, declarations: &[Declaration]) -> Result<(), AllocError>
    ensures { OnOk result (names.new.items ≡ names.old.items ++ input_places declarations.now) }
{
    for declaration in declarations {
        if let Declaration::Input(input) = declaration {
            names.push(input.name)?;
        }
    }
    Ok(())
}

fn append_functions(names: &mut Vec<Span>, declarations: &[Declaration]) -> Result<(), AllocError>
    ensures { OnOk result (names.new.items ≡ names.old.items ++ function_places declarations.now) }
{
    for declaration in declarations {
        if let Declaration::Function(function) = declaration {
            names.push(function.name)?;
        }
    }
    Ok(())
}
