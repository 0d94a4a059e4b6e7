// Scalars as items of streams.

ghost use Rattle.std.specs.Prelude.{◌≡◌};
ghost use Rattle.flow_messages.specs.Cells.{cell_of};
ghost use Rattle.flow_folds.specs.Scalars.{kind_of_type, scalar_in, cell_of_scalar};

use flow_messages::{Item, Kind};
use snesl_data::operators::{Scalar, ScalarType};

/// The kind of the items that carry scalars of this type.
pub fn kind_of(scalar_type: ScalarType) -> Kind
    ensures { result ≡ kind_of_type scalar_type }
{
    match scalar_type {
        ScalarType::Int => Kind::Int,
        ScalarType::Bool => Kind::Bool,
    }
}

/// The scalar that the item carries. `None` where it carries none.
#[inline(always)]
pub fn scalar_of(item: &Item) -> Option<Scalar>
    ensures { result ≡ scalar_in (cell_of item.now) }
{
    match item {
        Item::Int(number) => Some(Scalar::Int(*number)),
        Item::Bool(truth) => Some(Scalar::Bool(*truth)),
        _ => None,
    }
}

// An integer of 64 bits as one of 128.
#[inline(always)]
pub(crate) fn wide(narrow: i64) -> i128
    ensures { result ≡ narrow }
{
    narrow as i128
}

/// An item that carries the scalar.
#[inline(always)]
pub fn item_of(scalar: Scalar) -> Item
    ensures { cell_of result ≡ cell_of_scalar scalar }
{
    match scalar {
        Scalar::Int(number) => Item::Int(number),
        Scalar::Bool(truth) => Item::Bool(truth),
    }
}
