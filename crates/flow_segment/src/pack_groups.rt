// The segments that are to be kept.

use crate::over_flags::{OverFlags, Stage, StageMove};

/// Reads a truth value and a segment, and writes the segment, its end included, where the truth value is true. Each
/// such pair is an instance.
///
/// Reads port 0, truth values, and port 1, flags; writes port 0, flags. Fault: `Shape` where an item is of another kind.
///
/// Row: `PackGroupsRow` (specs/Rows.antt).
pub type PackGroups = OverFlags<PackGroupsStage>;

/// How far it is.
#[derive(Clone, Copy, Debug, PartialEq, Eq)]
pub enum PackGroupsStage {
    /// It is between two pairs.
    Start,
    /// A flag of the segment comes next, which is kept where this is true.
    Flag(bool),
    /// F is to be written, for an element of a segment that is kept.
    Element,
    /// T is to be written, for the end of a segment that is kept.
    End,
}

impl Stage for PackGroupsStage {
    ghost use Rattle.flow_segment.specs.PackGroupsMachine.{pack_groups_table};
    ghost use Rattle.flow_segment.specs.laws.PackGroups.{pack_groups_laws};

    ghost table = { pack_groups_table };

    ghost laws = { pack_groups_laws };

    fn start() -> PackGroupsStage {
        Self::Start
    }

    #[inline(always)]
    fn step(self) -> StageMove<PackGroupsStage> {
        match self {
            Self::Start => StageMove::Begin(Ok(Self::Flag(false)), Ok(Self::Flag(true))),
            Self::Flag(true) => StageMove::Take(1, Ok(Self::Element), Ok(Self::End)),
            Self::Flag(false) => StageMove::Take(1, Ok(Self::Flag(false)), Ok(Self::Start)),
            Self::Element => StageMove::Give(0, false, Self::Flag(true)),
            Self::End => StageMove::Give(0, true, Self::Start),
        }
    }

    fn inputs() -> usize {
        2
    }

    fn outputs() -> usize {
        1
    }
}
