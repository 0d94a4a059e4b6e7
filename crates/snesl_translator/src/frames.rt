// Names and the streams that they stand for.

ghost use Rattle.std.specs.Prelude.{◌≡◌, ◌∷◌, [], IfOk};
ghost use Rattle.snesl_translation.specs.Translation.{first_flags, items_bound};
ghost use Rattle.snesl_translator.specs.steps.Views.{bindings_of, wires_of};
ghost use Rattle.snesl_translator.specs.Rows.{AreBound};

use crate::steps::{Binding, Wires, copy_wires};
use snesl_grammar::tree::Typing;
use std::alloc::{AllocError, Global};

// One name.
#[inline(never)]
pub(crate) fn one_bound<'a>(
    alloc: Global,
    name: &'a [u8],
    wires: Wires,
) -> Result<Vec<Binding<'a>>, AllocError>
    ensures { IfOk result (λ frame. bindings_of frame.items ≡ (name.now, wires_of wires) ∷ []) }
{
    let mut frame = Vec::new(alloc);
    frame.push(Binding { name, wires })?;
    Ok(frame)
}

// Parameters beside arguments.
#[inline(never)]
pub(crate) fn bind_parameters<'a>(
    alloc: Global,
    text: &'a [u8],
    parameters: &[Typing],
    arguments: &[Wires],
) -> Result<Vec<Binding<'a>>, AllocError>
    ensures { IfOk result (AreBound text.now parameters.now arguments.now) }
{
    let mut frame = Vec::new(alloc);
    let number = parameters.len().min(arguments.len());
    for index in 0..number {
        let name = parameters[index].name.spelled(text);
        let wires = copy_wires(alloc, &arguments[index])?;
        frame.push(Binding { name, wires })?;
    }
    Ok(frame)
}

// The names of sequences beside their elements.
pub(crate) fn bind_items<'a>(
    alloc: Global,
    sources: &[Binding<'a>],
) -> Result<Vec<Binding<'a>>, AllocError>
    ensures { IfOk result (λ frame. bindings_of frame.items ≡
        items_bound (bindings_of sources.now)) }
{
    let mut frame = Vec::new(alloc);
    for source in sources {
        let wires = copy_wires(alloc, source.wires.items())?;
        frame.push(Binding {
            name: source.name,
            wires,
        })?;
    }
    Ok(frame)
}

// The flags of the first sequence.
pub(crate) fn flags_of_first(sources: &[Binding<'_>]) -> usize
    ensures { result ≡ first_flags (bindings_of sources.now) }
{
    match sources.first() {
        Some(source) => source.wires.stream(),
        None => 0,
    }
}
