// The sources of inputs.

ghost use Rattle.std.specs.Prelude.{◌≡◌, ◌<◌, ◌^◌, length, IfOk, OnOk};
ghost use Rattle.snesl_data.specs.Types.{ty_of};
ghost use Rattle.snesl_values.specs.Inputs.{declarations_of, declared};
ghost use Rattle.flow_values.specs.Flats.{width};
ghost use Rattle.snesl_flatten.specs.Set.{HoldInputs, HaveKindsOf, SpellsValueAt};
ghost use Rattle.snesl_flatten.specs.Set.{AddsValue, AddsKindsOf};
ghost use Rattle.snesl_flatten.specs.Sources.{all_kinds, AreFresh};

use flow_nodes::inputs::{TextSource, edge_count, text_holds_edges};
use snesl_data::Ty;
use snesl_values::{Inputs, inputs_are_placed, inputs_fit};
use std::alloc::{AllocError, Global};
use std::sync::Arc;

// For each input, one after another, and for each edge of its type a source that reads the text of the inputs. The error is that
// memory was refused.
pub(crate) fn sources_of_inputs(
    alloc: Global,
    declarations: &[(Vec<u8>, Ty)],
    inputs: &Inputs,
) -> Result<Vec<TextSource>, AllocError>
    requires declares { declarations_of inputs.now ≡ declared declarations.now }
    requires fits { length (all_kinds (declared declarations.now)) < 2 ^ 64 }
    ensures fresh { IfOk result (λ sources. AreFresh sources.items) }
    ensures cells { IfOk result
        (λ made. HoldInputs (declared declarations.now) inputs.now made.items) }
    ensures kinds { IfOk result (λ sources. HaveKindsOf (declared declarations.now) sources.items) }
{
    inputs_fit(inputs);
    inputs_are_placed(inputs);
    let mut sources = Vec::new(alloc);
    for (number, declaration) in declarations.iter().enumerate() {
        let place = inputs.place(number).unwrap();
        add_sources(alloc, &mut sources, inputs.text(), place, &declaration.1)?;
    }
    Ok(sources)
}

// Adds a source for each edge of the type of a value that the text spells from this place on.
fn add_sources(
    alloc: Global,
    sources: &mut Vec<TextSource>,
    text: &Arc<Vec<u8>>,
    place: usize,
    ty: &Ty,
) -> Result<(), AllocError>
    requires placed { SpellsValueAt text.now ty.now place }
    requires fits { width (ty_of ty.now) < 2 ^ 64 }
    requires fresh { AreFresh sources.old.items }
    ensures fresh { OnOk result (AreFresh sources.new.items) }
    ensures cells { OnOk result
        (AddsValue text.now ty.now place sources.old.items sources.new.items) }
    ensures kinds { OnOk result (AddsKindsOf ty.now sources.old.items sources.new.items) }
{
    text_holds_edges();
    for edge in 0..edge_count(ty) {
        let shared = text.clone()?;
        let source = TextSource::new(alloc, shared, place, ty, edge)?;
        sources.push(source)?;
    }
    Ok(())
}
