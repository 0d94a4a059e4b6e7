// What a run answers.

ghost use Rattle.std.specs.Prelude.{◌≡◌};
ghost use Rattle.snesl_run.specs.Runs.{outcome_of, refusal_of};

use flow_drives::{Outcome, Rested};
use flow_nodes::StreamNode;
use snesl_data::Refusal;
use thiserror::Error;

/// How a run ended that was not refused.
#[derive(Drop)]
pub struct Report {
    pub(crate) rested: Rested<StreamNode>,
    pub(crate) outcome: Outcome,
}

impl Report {
    /// The network of the program with its input, at rest.
    pub fn rested(&self) -> &Rested<StreamNode>
        ensures { result.now ≡ self.now.rested }
    {
        &self.rested
    }

    /// How the network came out: `Value` where the program's value was written, a fault where the program ends in one, or
    /// `Stalled`.
    pub fn outcome(&self) -> Outcome
        ensures { result ≡ outcome_of self.now }
    {
        self.outcome
    }
}

/// Why a run was refused.
#[derive(Clone, Copy, Debug, PartialEq, Eq, Error)]
#[error("the run was refused: {refusal:?}")]
pub struct RunError {
    pub(crate) refusal: Refusal,
}

impl RunError {
    /// The refusal.
    pub fn refusal(&self) -> Refusal
        ensures { result ≡ refusal_of self.now }
    {
        self.refusal
    }
}

impl From<Refusal> for RunError {
    ghost from_gives = { λ refusal error. refusal_of error ≡ refusal };

    fn from(refusal: Refusal) -> Self {
        RunError { refusal }
    }
}
