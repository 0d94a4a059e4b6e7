// The way from a type to one of its edges.

ghost use Rattle.std.specs.Prelude.{◌≡◌, ◌<◌, ◌^◌, ◌++◌, IfOk, OnOk};
ghost use Rattle.snesl_data.specs.Types.{ty_of};
ghost use Rattle.flow_values.specs.Flats.{width};
ghost use Rattle.flow_values.specs.Shapes.{shared_type};
ghost use Rattle.flow_nodes.specs.inputs.Ways.{way_to, leaf_at, kept_type_at};

use crate::inputs::turns::{Component, Leaf};
use flow_values::kept_type;
use snesl_data::Ty;
use std::alloc::{AllocError, Global};
use std::sync::Arc;

/// How many edges the type has, one for each stream of a value. They must be fewer than 2^64.
pub fn edge_count(ty: &Ty) -> usize
    requires { width (ty_of ty.now) < 2 ^ 64 }
    ensures { result ≡ width (ty_of ty.now) }
{
    match ty {
        Ty::Int | Ty::Bool | Ty::Vec(_) => 1,
        Ty::Pair(first, second) => edge_count(first) + edge_count(second),
        Ty::Seq(item) => edge_count(item) + 1,
    }
}

// Adds the steps from the type to the edge of this number. The result is what is at their end.
pub(crate) fn add_way(way: &mut Vec<Component>, ty: &Ty, edge: usize) -> Result<Leaf, AllocError>
    requires { width (ty_of ty.now) < 2 ^ 64 }
    ensures way { OnOk result (way.new.items ≡ way.old.items ++ way_to (ty_of ty.now) edge) }
    ensures leaf { IfOk result (λ leaf. leaf ≡ leaf_at (ty_of ty.now) edge) }
{
    match ty {
        Ty::Int => Ok(Leaf::Ints),
        Ty::Bool => Ok(Leaf::Bools),
        Ty::Vec(_) => Ok(Leaf::Vectors),
        Ty::Pair(first, second) => {
            let edges = edge_count(first);
            if edge < edges {
                way.push(Component::First)?;
                add_way(way, first, edge)
            } else {
                way.push(Component::Second)?;
                add_way(way, second, edge - edges)
            }
        }
        Ty::Seq(item) => {
            if edge == 0 {
                return Ok(Leaf::Flags);
            }
            way.push(Component::Elements)?;
            add_way(way, item, edge - 1)
        }
    }
}

// The type of the elements of the vectors at the edge of this number, shared, where it is kept.
pub(crate) fn kept_type_at(
    alloc: Global,
    ty: &Ty,
    edge: usize,
) -> Result<Option<Arc<Ty>>, AllocError>
    requires { width (ty_of ty.now) < 2 ^ 64 }
    ensures { IfOk result (λ of. shared_type of ≡ kept_type_at (ty_of ty.now) edge) }
{
    match ty {
        Ty::Int | Ty::Bool => Ok(None),
        Ty::Vec(element) => kept_type(alloc, element),
        Ty::Pair(first, second) => {
            let edges = edge_count(first);
            if edge < edges {
                kept_type_at(alloc, first, edge)
            } else {
                kept_type_at(alloc, second, edge - edges)
            }
        }
        Ty::Seq(item) => {
            if edge == 0 {
                return Ok(None);
            }
            kept_type_at(alloc, item, edge - 1)
        }
    }
}
