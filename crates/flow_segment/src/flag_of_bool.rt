// Truth values as segments.

use crate::over_flags::{OverFlags, Stage, StageMove};

/// Reads truth values, and writes a segment of one element for true, and an empty one for false. Each truth value is
/// an instance.
///
/// Reads port 0, truth values; writes port 0, flags. Fault: `Shape` where an item is of another kind.
///
/// Row: `FlagOfBoolRow` (specs/Rows.antt).
pub type FlagOfBool = OverFlags<FlagOfBoolStage>;

/// How far it is.
#[derive(Clone, Copy, Debug, PartialEq, Eq)]
pub enum FlagOfBoolStage {
    /// A truth value comes next.
    Start,
    /// F is to be written.
    Element,
    /// T is to be written.
    End,
}

impl Stage for FlagOfBoolStage {
    ghost use Rattle.flow_segment.specs.FlagOfBoolMachine.{flag_of_bool_table};
    ghost use Rattle.flow_segment.specs.laws.FlagOfBool.{flag_of_bool_laws};

    ghost table = { flag_of_bool_table };

    ghost laws = { flag_of_bool_laws };

    fn start() -> FlagOfBoolStage {
        Self::Start
    }

    #[inline(always)]
    fn step(self) -> StageMove<FlagOfBoolStage> {
        match self {
            Self::Start => StageMove::Begin(Ok(Self::End), Ok(Self::Element)),
            Self::Element => StageMove::Give(0, false, Self::End),
            Self::End => StageMove::Give(0, true, Self::Start),
        }
    }

    fn inputs() -> usize {
        1
    }

    fn outputs() -> usize {
        1
    }
}
