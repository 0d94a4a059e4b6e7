// Two sequences of segments of segments, joined place by place.

use crate::over_flags::{OverFlags, Stage, StageMove};

/// Reads pairs of segments, with a segment more for each element of either, its group, and writes the groups of the
/// left one and then those of the right one. A pair of segments is an instance.
///
/// Reads port 0, the flags of the left, port 1, those of the right, port 2, the groups of the left, and port 3, those of
/// the right; writes port 0, flags. Fault: `Shape` where an item is of another kind. Row: `InterleaveGroupsRow`
/// (specs/Rows.antt).
pub type InterleaveGroups = OverFlags<InterleaveGroupsStage>;

/// How far it is.
#[derive(Clone, Copy, Debug, PartialEq, Eq)]
pub enum InterleaveGroupsStage {
    /// It is between two pairs.
    Start,
    /// A flag of the left comes next.
    Left,
    /// A flag of a group of the left comes next.
    LeftGroup,
    /// F is to be written, for an element of a group of the left.
    LeftElement,
    /// T is to be written, for the end of a group of the left.
    LeftEnd,
    /// A flag of the right comes next.
    Right,
    /// A flag of a group of the right comes next.
    RightGroup,
    /// F is to be written, for an element of a group of the right.
    RightElement,
    /// T is to be written, for the end of a group of the right.
    RightEnd,
}

impl Stage for InterleaveGroupsStage {
    ghost use Rattle.flow_segment.specs.InterleaveGroupsMachine.{interleave_groups_table};
    ghost use Rattle.flow_segment.specs.laws.InterleaveGroups.{interleave_groups_laws};

    ghost table = { interleave_groups_table };

    ghost laws = { interleave_groups_laws };

    fn start() -> InterleaveGroupsStage {
        Self::Start
    }

    #[inline(always)]
    fn step(self) -> StageMove<InterleaveGroupsStage> {
        match self {
            Self::Start => StageMove::Begin(Ok(Self::LeftGroup), Ok(Self::Right)),
            Self::Left => StageMove::Take(0, Ok(Self::LeftGroup), Ok(Self::Right)),
            Self::LeftGroup => StageMove::Take(2, Ok(Self::LeftElement), Ok(Self::LeftEnd)),
            Self::LeftElement => StageMove::Give(0, false, Self::LeftGroup),
            Self::LeftEnd => StageMove::Give(0, true, Self::Left),
            Self::Right => StageMove::Take(1, Ok(Self::RightGroup), Ok(Self::Start)),
            Self::RightGroup => StageMove::Take(3, Ok(Self::RightElement), Ok(Self::RightEnd)),
            Self::RightElement => StageMove::Give(0, false, Self::RightGroup),
            Self::RightEnd => StageMove::Give(0, true, Self::Right),
        }
    }

    fn inputs() -> usize {
        4
    }

    fn outputs() -> usize {
        1
    }
}
