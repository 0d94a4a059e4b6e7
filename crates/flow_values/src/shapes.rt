// Values of a type, and the edges of a type.

ghost use Rattle.std.specs.Prelude.{◌≡◌, ◌<◌, ◌^◌, ◌++◌, map, length, IfOk, OnOk};
ghost use Rattle.snesl_data.specs.Types.{ty_of};
ghost use Rattle.snesl_data.specs.Values.{value_of, values_of, elements_of};
ghost use Rattle.flow_messages.specs.Cells.{cell_of};
ghost use Rattle.flow_values.specs.Shapes.{is_a, all_are, is_int_type, is_bool_type, ShapesAreTested, kinds_of, kind_at, kept_type, shared_type};
ghost use Rattle.flow_values.specs.Growths.{TypesGrow};
ghost use Rattle.flow_values.specs.Flats.{width};
ghost use Rattle.flow_values.specs.Parts.{part_fits};

use flow_messages::{Item, Kind, Typed};
use snesl_data::{Datum, Elements, Ty, copy_ty};
use std::alloc::{AllocError, Global};
use std::sync::Arc;

/// Whether the value is one of the type. Of a vector whose integers or truth values are packed it looks at no element.
#[cycle(is_value)]
pub fn is_value(ty: &Ty, datum: &Datum) -> bool
    ensures { result ≡ is_a (ty_of ty.now) (value_of datum.now) }
{
    match (ty, datum) {
        (Ty::Int, Datum::Int(_)) | (Ty::Bool, Datum::Bool(_)) => true,
        (Ty::Pair(first, second), Datum::Pair(a, b)) => is_value(first, a) && is_value(second, b),
        (Ty::Vec(item), Datum::Vec(elements)) => are_elements(item, elements),
        (Ty::Seq(item), Datum::Seq(all)) => are_values(item, all),
        _ => false,
    }
}

// Whether each element is of the type. An empty vector is of each.
#[cycle(is_value)]
pub fn are_elements(item: &Ty, elements: &Elements) -> bool
    ensures { result ≡ all_are (ty_of item.now) (elements_of elements.now) }
{
    match elements {
        Elements::Ints(all) => all.is_empty() || is_int(item),
        Elements::Wides(all) => all.is_empty() || is_int(item),
        Elements::Bools(all) => all.is_empty() || is_bool(item),
        Elements::Others(all) => are_values(item, all),
    }
}

#[cycle(is_value)]
fn are_values(item: &Ty, all: &[Datum]) -> bool
    ensures { result ≡ all_are (ty_of item.now) (values_of (map value_of all.now)) }
{
    for datum in all {
        if !is_value(item, datum) {
            return false;
        }
    }
    true
}

/// Whether each element is of the type. Where it is the type that is known of them, it looks at none.
pub fn is_typed(element: &Ty, typed: &Typed) -> bool
    ensures { result ≡ all_are (ty_of element.now) (elements_of typed.now.elements) }
{
    if typed.of.is(element) {
        return true;
    }
    are_elements(element, &typed.elements)
}

fn is_int(ty: &Ty) -> bool
    ensures { result ≡ is_int_type (ty_of ty.now) }
{
    matches!(ty, Ty::Int)
}

fn is_bool(ty: &Ty) -> bool
    ensures { result ≡ is_bool_type (ty_of ty.now) }
{
    matches!(ty, Ty::Bool)
}

/// A law and no code to run: what `is_value` tests is the type by its shape, any integer being of type int.
pub fn shapes_are_tested()
    ensures { ShapesAreTested }
{}

/// The kinds of the edges of the type, in order. Its only error is that memory was refused.
pub fn kinds(alloc: Global, ty: &Ty) -> Result<Vec<Kind>, AllocError>
    ensures { IfOk result (λ all. all.items ≡ kinds_of (ty_of ty.now)) }
{
    let mut all = Vec::new(alloc);
    add_kinds(&mut all, ty)?;
    Ok(all)
}

pub fn add_kinds(all: &mut Vec<Kind>, ty: &Ty) -> Result<(), AllocError>
    ensures { OnOk result (all.new.items ≡ all.old.items ++ kinds_of (ty_of ty.now)) }
{
    match ty {
        Ty::Int => all.push(Kind::Int)?,
        Ty::Bool => all.push(Kind::Bool)?,
        Ty::Vec(_) => all.push(Kind::Vec)?,
        Ty::Pair(first, second) => {
            add_kinds(all, first)?;
            add_kinds(all, second)?;
        }
        Ty::Seq(item) => {
            all.push(Kind::Bool)?;
            add_kinds(all, item)?;
        }
    }
    Ok(())
}

/// Of each edge of the type, in order, the type of the elements of the vectors on it, as far as `kept_type` keeps one. Its
/// only error is that memory was refused.
pub fn add_types(all: &mut Vec<Option<Arc<Ty>>>, alloc: Global, ty: &Ty) -> Result<(), AllocError>
    ensures { OnOk result (TypesGrow all.old.items ty.now all.new.items) }
{
    match ty {
        Ty::Int | Ty::Bool => all.push(None)?,
        Ty::Vec(item) => {
            let kept = kept_type(alloc, item)?;
            all.push(kept)?;
        }
        Ty::Pair(first, second) => {
            add_types(all, alloc, first)?;
            add_types(all, alloc, second)?;
        }
        Ty::Seq(item) => {
            all.push(None)?;
            add_types(all, alloc, item)?;
        }
    }
    Ok(())
}

/// The type of the elements of a vector, shared, where they are not packed. Its only error is that memory was refused.
pub fn kept_type(alloc: Global, element: &Ty) -> Result<Option<Arc<Ty>>, AllocError>
    ensures { IfOk result (λ kept. shared_type kept ≡ kept_type (ty_of element.now)) }
{
    match element {
        Ty::Int | Ty::Bool => Ok(None),
        Ty::Pair(_, _) | Ty::Vec(_) | Ty::Seq(_) => {
            let copy = copy_ty(alloc, element)?;
            Ok(Some(Arc::new(alloc, copy)?))
        }
    }
}

/// How many edges the type has, where the number fits.
pub fn edge_count(ty: &Ty) -> usize
    requires { width (ty_of ty.now) < 2 ^ 64 }
    ensures { result ≡ width (ty_of ty.now) }
{
    match ty {
        Ty::Int | Ty::Bool | Ty::Vec(_) => 1,
        Ty::Pair(first, second) => edge_count(first) + edge_count(second),
        Ty::Seq(item) => edge_count(item) + 1,
    }
}

/// Whether the item may be the one at this place, counted from 0, of a value of the concrete type. False at each place of
/// a sequence.
pub fn part_fits(ty: &Ty, place: usize, item: &Item) -> bool
    requires { width (ty_of ty.now) < 2 ^ 64 }
    ensures { result ≡ part_fits (ty_of ty.now) place (cell_of item.now) }
{
    match (ty, item) {
        (Ty::Int, Item::Int(_)) | (Ty::Bool, Item::Bool(_)) => place == 0,
        (Ty::Vec(element), Item::Vec(elements)) => place == 0 && are_elements(element, elements),
        (Ty::Vec(element), Item::Typed(typed)) => place == 0 && is_typed(element, typed),
        (Ty::Pair(first, second), _) => {
            let edges = edge_count(first);
            if place < edges {
                part_fits(first, place, item)
            } else {
                part_fits(second, place - edges, item)
            }
        }
        _ => false,
    }
}

/// The kind at this port, and `Unit` where there is none.
pub fn kind_at(kinds: &[Kind], port: usize) -> Kind
    ensures { result ≡ kind_at kinds.now port }
{
    match kinds.get(port) {
        Some(kind) => *kind,
        None => Kind::Unit,
    }
}
