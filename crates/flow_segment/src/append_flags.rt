// Segments joined to segments, place by place.

use crate::over_flags::{OverFlags, Stage, StageMove};

/// Reads pairs of segments, and writes for each one segment: the elements of the first, then those of the second. A
/// pair of segments is an instance.
///
/// Reads port 0, the flags of the first segments, and port 1, those of the second ones; writes port 0, flags. Fault:
/// `Shape` where an item is of another kind.
///
/// Row: `AppendFlagsRow` (specs/Rows.antt).
pub type AppendFlags = OverFlags<AppendFlagsStage>;

/// How far it is.
#[derive(Clone, Copy, Debug, PartialEq, Eq)]
pub enum AppendFlagsStage {
    /// It is between two pairs.
    Start,
    /// A flag of the first segment comes next.
    First,
    /// A flag of the second segment comes next.
    Second,
    /// F is to be written, for an element of the first segment.
    FirstElement,
    /// F is to be written, for an element of the second segment.
    SecondElement,
    /// T is to be written, for the end of both.
    End,
}

impl Stage for AppendFlagsStage {
    ghost use Rattle.flow_segment.specs.AppendFlagsMachine.{append_flags_table};
    ghost use Rattle.flow_segment.specs.laws.AppendFlags.{append_flags_laws};

    ghost table = { append_flags_table };

    ghost laws = { append_flags_laws };

    fn start() -> AppendFlagsStage {
        Self::Start
    }

    #[inline(always)]
    fn step(self) -> StageMove<AppendFlagsStage> {
        match self {
            Self::Start => StageMove::Begin(Ok(Self::FirstElement), Ok(Self::Second)),
            Self::First => StageMove::Take(0, Ok(Self::FirstElement), Ok(Self::Second)),
            Self::Second => StageMove::Take(1, Ok(Self::SecondElement), Ok(Self::End)),
            Self::FirstElement => StageMove::Give(0, false, Self::First),
            Self::SecondElement => StageMove::Give(0, false, Self::Second),
            Self::End => StageMove::Give(0, true, Self::Start),
        }
    }

    fn inputs() -> usize {
        2
    }

    fn outputs() -> usize {
        1
    }
}
