// Transducers over segments and values.
ghost use Rattle.std.specs.Prelude.{◌≡◌, IfOk};
ghost use Rattle.snesl_values.specs.Text.{text};
ghost use Rattle.snesl_values.specs.Values.{an_int};

use flow_edges::{Item, Msg};
use flow_scalar::Transducer;
use flow_segment::Print;
use snesl_values::Ty;
use std::alloc::{AllocError, Global};

/// The text that a `Print` has gathered where it has read an integer. An error where memory was refused.
pub fn printed(alloc: Global, number: i128) -> Result<Vec<u8>, AllocError>
    ensures { IfOk result (λ bytes. bytes.items ≡ text (an_int number)) }
{
    let mut print = Print::new(alloc, Ty::Int, 0)?;
    print.give(0, Msg::Item(Item::Int(number)))?;
    Vec::from_slice(alloc, print.text())
}
