// Vectors of elements of a known type.

ghost use Rattle.std.specs.Prelude.{◌≡◌, true, IfOk};
ghost use Rattle.std.specs.Arc.{arc_value};
ghost use Rattle.snesl_data.specs.Types.{ty_of};
ghost use Rattle.snesl_data.specs.Values.{elements_of};
ghost use Rattle.flow_messages.specs.Shapes.{all_are};

use snesl_data::{Elements, Ty};
use std::alloc::AllocError;
use std::sync::Arc;

/// The elements of a vector, and a type that all of them are of. Both are shared.
///
/// That the type is known says nothing about the value. It spares a reader a look at each element.
#[derive(Debug, Drop)]
pub struct Typed {
    pub elements: Elements,
    pub of: Arc<Ty>,
    ghost fits: { all_are (ty_of (arc_value of)) (elements_of elements) ≡ true },
}

impl Typed {
    /// The same elements and the same type, shared. It takes no memory: its only error is that too many share them.
    pub fn share(&self) -> Result<Typed, AllocError>
        ensures { IfOk result (λ shared. elements_of shared.elements ≡
            elements_of self.now.elements) }
    {
        let elements = self.elements.share()?;
        let of = Arc::try_clone(&self.of)?;
        Ok(Typed { elements, of })
    }
}
