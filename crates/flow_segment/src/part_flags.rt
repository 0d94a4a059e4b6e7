// Segments, parted at truth values.

use crate::over_flags::{OverFlags, Stage, StageMove};
use snesl_data::FaultKind;

/// Reads segments with a truth value for each element, and parts them: a false stands for an element of a part, and a
/// true ends it. A segment is an instance.
///
/// Reads port 0, the flags of the segments, port 1, the truth values, and port 2, flags of as many elements as there are
/// false; writes port 0, flags of as many elements as there are parts, and port 1, the flags of the parts. Faults:
/// `Part` where a segment's last truth value is false, or port 2 has more or fewer elements; `Shape` where an item is of
/// another kind. Row: `PartFlagsRow` (specs/Rows.antt).
pub type PartFlags = OverFlags<PartFlagsStage>;

/// How far it is.
#[derive(Clone, Copy, Debug, PartialEq, Eq)]
pub enum PartFlagsStage {
    /// It is between two segments.
    Start,
    /// A flag of the segment comes next, after a true.
    Parted,
    /// A flag of the segment comes next, after a false.
    Open,
    /// A truth value comes next.
    Test,
    /// The element of a false comes next.
    Element,
    /// F is to be written to the part, for its element.
    PartElement,
    /// F is to be written, for a part.
    Part,
    /// T is to be written to the part, for its end.
    PartEnd,
    /// The end of the elements comes next.
    Last,
    /// T is to be written, for the end of the segment.
    End,
}

impl Stage for PartFlagsStage {
    ghost use Rattle.flow_segment.specs.PartFlagsMachine.{part_flags_table};
    ghost use Rattle.flow_segment.specs.laws.PartFlags.{part_flags_laws};

    ghost table = { part_flags_table };

    ghost laws = { part_flags_laws };

    fn start() -> PartFlagsStage {
        Self::Start
    }

    #[inline(always)]
    fn step(self) -> StageMove<PartFlagsStage> {
        match self {
            Self::Start => StageMove::Begin(Ok(Self::Test), Ok(Self::Last)),
            Self::Parted => StageMove::Take(0, Ok(Self::Test), Ok(Self::Last)),
            Self::Open => StageMove::Take(0, Ok(Self::Test), Err(FaultKind::Part)),
            Self::Test => StageMove::Take(1, Ok(Self::Element), Ok(Self::Part)),
            Self::Element => StageMove::Take(2, Ok(Self::PartElement), Err(FaultKind::Part)),
            Self::PartElement => StageMove::Give(1, false, Self::Open),
            Self::Part => StageMove::Give(0, false, Self::PartEnd),
            Self::PartEnd => StageMove::Give(1, true, Self::Parted),
            Self::Last => StageMove::Take(2, Err(FaultKind::Part), Ok(Self::End)),
            Self::End => StageMove::Give(0, true, Self::Start),
        }
    }

    fn inputs() -> usize {
        3
    }

    fn outputs() -> usize {
        2
    }
}
