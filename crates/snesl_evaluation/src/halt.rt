// Why evaluation ends with no value.

ghost use Rattle.std.specs.Prelude.{◌≡◌};
ghost use Rattle.snesl_evaluation.specs.Results.{fault_of};
ghost use Rattle.snesl_evaluation.specs.declared.halt.Halt.TheVariants.{NoMemory};

use snesl_data::{Fault, FaultKind};
use std::alloc::{AllocError, AllocFailed};

/// Why there is no value: memory was refused, or the expression ends in a fault.
#[derive(Clone, Copy)]
pub enum Halt {
    NoMemory,
    Faulted(Fault),
}

impl From<AllocError> for Halt {
    ghost from_gives = { λ _ halt. halt ≡ NoMemory };

    fn from(_: AllocError) -> Halt {
        Halt::NoMemory
    }
}

impl<T: Drop> From<AllocFailed<T>> for Halt {
    ghost from_gives = { λ _ halt. halt ≡ NoMemory };

    fn from(_: AllocFailed<T>) -> Halt {
        Halt::NoMemory
    }
}

pub fn fault(kind: FaultKind, at: usize) -> Halt
    ensures { result ≡ fault_of kind at }
{
    Halt::Faulted(Fault { kind, at })
}
