// Vectors that are read.

ghost use Rattle.std.specs.Prelude.{◌≡◌, true, false, IfOk, IfErr, OnErr};
ghost use Rattle.snesl_data.specs.Types.{ty_of};
ghost use Rattle.snesl_data.specs.Values.{Values, a_vec, elements_of};
ghost use Rattle.flow_messages.specs.Cells.{cell_of, datum};
ghost use Rattle.flow_values.specs.Shapes.{all_are};
ghost use Rattle.flow_values.specs.VectorsRead.{FailType, IsVector};

use crate::shapes::{are_elements, is_typed};
use flow_messages::Item;
use snesl_data::{Elements, FaultKind, Ty};
use std::alloc::AllocError;
use std::sync::Arc;

/// The elements of the vector that the item is, where they are of this type. Otherwise `Shape`.
pub fn vector_in(element: &Ty, item: Item) -> Result<Elements, FaultKind>
    ensures vector { IfOk result (λ all. cell_of item ≡ datum (a_vec (elements_of all))) }
    ensures of_type { IfOk result (λ all. all_are (ty_of element.now) (elements_of all) ≡ true) }
    ensures kind { IfErr result (λ kind. kind ≡ FaultKind.Shape) }
    ensures none { OnErr result ((vs : Values) → IsVector item vs →
        FailType element.now vs) }
{
    match item {
        Item::Vec(all) => {
            if are_elements(element, &all) {
                Ok(all)
            } else {
                Err(FaultKind::Shape)
            }
        }
        Item::Typed(typed) => {
            if is_typed(element, &typed) {
                Ok(typed.elements)
            } else {
                Err(FaultKind::Shape)
            }
        }
        Item::Unit | Item::Bool(_) | Item::Int(_) => Err(FaultKind::Shape),
    }
}

/// The item of a vector of these elements. That they are of this type is known of it where they are, which costs a look at
/// each, once. Its only error is that too many share the type.
pub fn item_of_type(of: &Option<Arc<Ty>>, all: Elements) -> Result<Item, AllocError>
    ensures { IfOk result (λ item. cell_of item ≡ datum (a_vec (elements_of all))) }
{
    if let Some(of) = of {
        if are_elements(of, &all) {
            let of = Arc::try_clone(of)?;
            return Ok(Item::of_known(all, of));
        }
    }
    Ok(Item::of_elements(all))
}
