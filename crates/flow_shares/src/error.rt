// Why shares did not run.
ghost use Rattle.std.specs.Prelude.{◌≡◌};
ghost use Rattle.flow_shares.specs.declared.error.WorkError.TheVariants.{NoMemory, NoThread};

use std::alloc::AllocError;
use std::thread::SpawnError;
use thiserror::Error;

/// Why shares did not run.
///
/// A start that is refused for want of memory cannot be told from one for want of threads: both are `NoThread`.
#[derive(Clone, Copy, Debug, PartialEq, Eq, Error)]
pub enum WorkError {
    /// Memory was refused for a list, or the gate has as many owners as it may.
    #[error("out of memory")]
    NoMemory,
    /// A thread could not be started, or the caller's [`Start`](crate::Start) said no.
    #[error("no thread could be started")]
    NoThread,
}

impl From<AllocError> for WorkError {
    ghost from_gives = { λ _ error. error ≡ NoMemory };

    fn from(_: AllocError) -> Self {
        WorkError::NoMemory
    }
}

impl<F: Drop> From<SpawnError<F>> for WorkError {
    ghost from_gives = { λ _ error. error ≡ NoThread };

    fn from(_: SpawnError<F>) -> Self {
        WorkError::NoThread
    }
}
