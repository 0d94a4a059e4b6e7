// The declarations of a program.

ghost use Rattle.std.specs.Prelude.{◌≡◌, [], map, IfOk};
ghost use Rattle.snesl_values.specs.Inputs.{declaration_of};
ghost use Rattle.snesl_grammar.specs.tree.View.{tree_of, type_tree, typed_of, declaration_of as declaration_tree};
ghost use Rattle.snesl_types.specs.Names.{HasBodySize};
ghost use Rattle.snesl_types.specs.Programs.{written_type, are_few};
ghost use Rattle.snesl_types.specs.Verdicts.{IsVerdict, IsType, names_verdict};
ghost use Rattle.snesl_types.specs.Views.{held_names, name_verdict_in, AreDeclared, IsSignature};

use crate::expressions::type_of;
use crate::forms::{pair_of, sequence_of, small};
use crate::names::{Function, Names, Scope, function_named, type_in};
use crate::sizes::size_of;
use snesl_data::{Dialect, Refusal, Ty};
use snesl_grammar::tree::{Declaration, Function as WrittenFunction, Typing, WrittenType};
use std::alloc::Global;

/// The greatest number of functions, and of inputs.
const GREATEST_COUNT: usize = 64;

// The inputs and the functions that were declared so far, in order.
#[derive(Debug, Drop)]
pub(crate) struct Declarations {
    pub(crate) inputs: Vec<(Vec<u8>, Ty)>,
    pub(crate) functions: Vec<Function>,
}

// Whether there are not too many declarations.
pub(crate) fn few(declarations: &[Declaration]) -> bool
    ensures { result ≡ are_few (map declaration_tree declarations.now) }
{
    let mut inputs = GREATEST_COUNT;
    let mut functions = GREATEST_COUNT;
    for declaration in declarations {
        match declaration {
            Declaration::Input(_) => {
                if inputs == 0 {
                    return false;
                }
                inputs -= 1;
            }
            Declaration::Function(_) => {
                if functions == 0 {
                    return false;
                }
                functions -= 1;
            }
        }
    }
    true
}

// What the declarations declare, or the first rule that they violate.
pub(crate) fn declarations_of(
    dialect: Dialect,
    alloc: Global,
    text: &[u8],
    declarations: &[Declaration],
) -> Result<Declarations, Refusal>
    ensures { AreDeclared dialect text.now declarations.now result }
{
    let mut inputs = Vec::new(alloc);
    let mut functions = Vec::new(alloc);
    for declaration in declarations {
        match declaration {
            Declaration::Input(typing) => {
                let input = named(alloc, text, &inputs, typing)?;
                inputs.push(input)?;
            }
            Declaration::Function(written) => {
                let function = function_of(dialect, alloc, text, &functions, written)?;
                functions.push(function)?;
            }
        }
    }
    Ok(Declarations { inputs, functions })
}

// What a call sees of a function after these.
fn function_of(
    dialect: Dialect,
    alloc: Global,
    text: &[u8],
    functions: &[Function],
    written: &WrittenFunction,
) -> Result<Function, Refusal>
    ensures signature { IsSignature dialect text.now functions.now written.now result }
    ensures size { IfOk result (HasBodySize text.now functions.now (tree_of written.now.body)) }
{
    let name = written.name;
    if function_named(text, name, functions).is_some() {
        return Err(Refusal::Name(name.at));
    }
    let parameters = parameters_of(alloc, text, &written.parameters)?;
    let result = type_written(alloc, &written.result)?;
    let names = Names::Declared(&parameters);
    let scope = Scope {
        dialect,
        text,
        functions,
        names: &names,
    };
    let ty = type_of(alloc, &scope, &written.body)?;
    if !ty.is(&result) {
        return Err(Refusal::Mismatch(name.at));
    }
    let size = size_of(text, functions, &written.body);
    Ok(Function {
        name,
        parameters,
        result,
        size,
    })
}

// The parameters of a function with their types.
pub(crate) fn parameters_of(
    alloc: Global,
    text: &[u8],
    written: &[Typing],
) -> Result<Vec<(Vec<u8>, Ty)>, Refusal>
    ensures { IsVerdict held_names (names_verdict text.now [] (map typed_of written.now)) result }
{
    let mut names = Vec::new(alloc);
    for typing in written {
        let name = named(alloc, text, &names, typing)?;
        names.push(name)?;
    }
    Ok(names)
}

// A name after earlier ones, with its type.
fn named(
    alloc: Global,
    text: &[u8],
    earlier: &[(Vec<u8>, Ty)],
    typing: &Typing,
) -> Result<(Vec<u8>, Ty), Refusal>
    ensures { IsVerdict declaration_of (name_verdict_in text.now earlier.now typing.now) result }
{
    let bytes = typing.name.spelled(text);
    if type_in(bytes, earlier).is_some() {
        return Err(Refusal::Name(typing.name.at));
    }
    let ty = type_written(alloc, &typing.ty)?;
    let name = Vec::from_slice(alloc, bytes)?;
    Ok((name, ty))
}

// The type that a written one means.
pub(crate) fn type_written(alloc: Global, written: &WrittenType) -> Result<Ty, Refusal>
    ensures { IsType (written_type (type_tree written.now)) result }
{
    match written {
        WrittenType::Int { .. } => Ok(Ty::Int),
        WrittenType::Bool { .. } => Ok(Ty::Bool),
        WrittenType::Pair { first, second, .. } => {
            let first = type_written(alloc, first)?;
            let second = type_written(alloc, second)?;
            let pair = pair_of(alloc, first, second)?;
            small(pair)
        }
        WrittenType::Vector { at, item } => {
            let item = type_written(alloc, item)?;
            if !item.concrete() {
                return Err(Refusal::Streamed(*at));
            }
            small(Ty::Vec(Box::new(alloc, item)?))
        }
        WrittenType::Sequence { item, .. } => {
            let item = type_written(alloc, item)?;
            let sequence = sequence_of(alloc, item)?;
            small(sequence)
        }
    }
}
