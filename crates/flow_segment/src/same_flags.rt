// Two streams of the same flags.

use crate::over_flags::{OverFlags, Stage, StageMove};
use snesl_data::FaultKind;

/// Reads a flag of the first stream and the same flag of the second, and writes nothing. Each pair of flags is an
/// instance.
///
/// Reads ports 0 and 1, flags. Faults: `Length` where the flags differ; `Shape` where an item is of another kind.
///
/// Row: `SameFlagsRow` (specs/Rows.antt).
pub type SameFlags = OverFlags<SameFlagsStage>;

/// How far it is.
#[derive(Clone, Copy, Debug, PartialEq, Eq)]
pub enum SameFlagsStage {
    /// A flag of the first stream comes next.
    Start,
    /// This flag came from the first stream, and has to come from the second.
    Second(bool),
}

impl Stage for SameFlagsStage {
    ghost use Rattle.flow_segment.specs.SameFlagsMachine.{same_flags_table};
    ghost use Rattle.flow_segment.specs.laws.SameFlags.{same_flags_laws};

    ghost table = { same_flags_table };

    ghost laws = { same_flags_laws };

    fn start() -> SameFlagsStage {
        Self::Start
    }

    #[inline(always)]
    fn step(self) -> StageMove<SameFlagsStage> {
        match self {
            Self::Start => StageMove::Begin(Ok(Self::Second(false)), Ok(Self::Second(true))),
            Self::Second(false) => StageMove::Take(1, Ok(Self::Start), Err(FaultKind::Length)),
            Self::Second(true) => StageMove::Take(1, Err(FaultKind::Length), Ok(Self::Start)),
        }
    }

    fn inputs() -> usize {
        2
    }

    fn outputs() -> usize {
        0
    }
}
