// Operands that come as items.

ghost use Rattle.std.specs.Prelude.{◌≡◌, Ok, IfSome};
ghost use Rattle.flow_messages.specs.Cells.{cell_of};
ghost use Rattle.flow_scalar.specs.Operands.{operand_in};
ghost use Rattle.snesl_data.specs.declared.operators.scalar.Scalar.TheVariants.{Int as IntScalar};

use flow_messages::Item;
use snesl_data::FaultKind;
use snesl_data::operators::{Scalar, ScalarType};

/// The scalar of this type that the item carries. `Shape` where it carries none.
#[inline(always)]
pub fn operand_of(scalar_type: ScalarType, item: Item) -> Result<Scalar, FaultKind>
    ensures { result ≡ operand_in scalar_type (cell_of item) }
{
    match (scalar_type, item) {
        (ScalarType::Int, Item::Int(number)) => Ok(Scalar::Int(number)),
        (ScalarType::Bool, Item::Bool(truth)) => Ok(Scalar::Bool(truth)),
        _ => Err(FaultKind::Shape),
    }
}

// The integer of 64 bits that an operator gave, where it gave one.
#[inline(always)]
pub(crate) fn narrow_of(value: Result<Scalar, FaultKind>) -> Option<i64>
    ensures { IfSome result (λ n. value ≡ Ok (IntScalar n)) }
{
    let Ok(Scalar::Int(number)) = value else {
        return None;
    };
    match i64::try_from(number) {
        Ok(narrow) => Some(narrow),
        Err(_) => None,
    }
}
