// Items that are due, in the order in which they are written.

ghost use Rattle.std.specs.Prelude.{◌≡◌, ◌<◌, ◌^◌, ◌+◌, ◌∷◌, ◌++◌, [], true, map, IfOk, OnOk};
ghost use Rattle.snesl_data.specs.Types.{ty_of, seq};
ghost use Rattle.snesl_data.specs.Values.{value_of, values_of, a_vec, elements_of};
ghost use Rattle.flow_values.specs.Shapes.{is_a, all_are};
ghost use Rattle.flow_values.specs.Flats.{width};
ghost use Rattle.flow_values.specs.Dues.{due, output_of};
ghost use Rattle.flow_values.specs.Growths.{DuesGrow, all_dues, value_dues};
ghost use Rattle.flow_messages.specs.Cells.{cell_of, datum};

use crate::shapes::edge_count;
use flow_messages::Item;
use snesl_data::{Datum, Elements, Ty};
use std::alloc::AllocError;
use std::collections::VecDeque;
use std::sync::Arc;

/// An item, and the output that it is to be written to.
#[derive(Drop)]
pub struct Due {
    pub port: usize,
    pub item: Item,
}

impl Due {
    /// Its output, of so many, and the first where there are not so many.
    pub fn output(&self, outputs: usize) -> usize
        ensures { result ≡ output_of outputs self.now.port }
    {
        if self.port < outputs { self.port } else { 0 }
    }
}

// Adds an item.
fn add(dues: &mut VecDeque<Due>, port: usize, item: Item) -> Result<(), AllocError>
    ensures { OnOk result (DuesGrow dues.old.items (due port (cell_of item) ∷ []) dues.new.items) }
{
    dues.push_back(Due { port, item })?;
    Ok(())
}

// The item of a vector of elements of this type. The type is known of it where it is the one that is kept for this port.
fn vector_item(
    types: &[Option<Arc<Ty>>],
    port: usize,
    element: &Ty,
    elements: &Elements,
) -> Result<Item, AllocError>
    requires { all_are (ty_of element.now) (elements_of elements.now) ≡ true }
    ensures { IfOk result (λ item. cell_of item ≡ datum (a_vec (elements_of elements.now))) }
{
    let shared = elements.share()?;
    if let Some(Some(of)) = types.get(port) {
        if of.is(element) {
            let of = Arc::try_clone(of)?;
            return Ok(Item::of_known(shared, of));
        }
    }
    Ok(Item::of_elements(shared))
}

/// Adds what the value puts on the edges of its type, the first of which is this port. Its only error is that memory
/// was refused, or that too many share a vector. Of a vector its type is known where it is kept for its port.
#[cycle(add_value)]
pub fn add_value(
    dues: &mut VecDeque<Due>,
    types: &[Option<Arc<Ty>>],
    ty: &Ty,
    port: usize,
    datum: &Datum,
) -> Result<(), AllocError>
    requires fits { port + width (ty_of ty.now) < 2 ^ 64 }
    requires of_type { is_a (ty_of ty.now) (value_of datum.now) ≡ true }
    ensures { OnOk result (DuesGrow dues.old.items (value_dues ty.now port datum.now)
        dues.new.items) }
{
    match (ty, datum) {
        (Ty::Int, Datum::Int(number)) => add(dues, port, Item::Int(*number)),
        (Ty::Bool, Datum::Bool(truth)) => add(dues, port, Item::Bool(*truth)),
        (Ty::Vec(element), Datum::Vec(elements)) => {
            let vector = vector_item(types, port, element, elements)?;
            add(dues, port, vector)
        }
        (Ty::Pair(first, second), Datum::Pair(a, b)) => {
            add_value(dues, types, first, port, a)?;
            add_value(dues, types, second, port + edge_count(first), b)
        }
        (Ty::Seq(item), Datum::Seq(all)) => add_segment(dues, types, item, port, all),
        _ => unreachable!(),
    }
}

// Adds what a sequence of these elements puts on its edges, the first of which is this port.
#[cycle(add_value)]
fn add_segment(
    dues: &mut VecDeque<Due>,
    types: &[Option<Arc<Ty>>],
    item: &Ty,
    port: usize,
    all: &[Datum],
) -> Result<(), AllocError>
    requires fits { port + width (seq (ty_of item.now)) < 2 ^ 64 }
    requires of_type { all_are (ty_of item.now) (values_of (map value_of all.now)) ≡ true }
    ensures { OnOk result (DuesGrow dues.old.items (all_dues item.now port all.now)
        dues.new.items) }
{
    for datum in all {
        add(dues, port, Item::Bool(false))?;
        add_value(dues, types, item, port + 1, datum)?;
    }
    add(dues, port, Item::Bool(true))
}
