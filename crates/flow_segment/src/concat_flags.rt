// Segments of segments, joined.

use crate::over_flags::{OverFlags, Stage, StageMove};

/// Reads segments of segments, and writes for each of the outer segments one segment of all elements of its inner
/// ones. An outer segment is an instance.
///
/// Reads port 0, the flags of the outer segments, and port 1, those of the inner ones; writes port 0, flags. Fault:
/// `Shape` where an item is of another kind.
///
/// Row: `ConcatFlagsRow` (specs/Rows.antt).
pub type ConcatFlags = OverFlags<ConcatFlagsStage>;

/// How far it is.
#[derive(Clone, Copy, Debug, PartialEq, Eq)]
pub enum ConcatFlagsStage {
    /// It is between two outer segments.
    Start,
    /// A flag of the outer segment comes next.
    Outer,
    /// A flag of an inner segment comes next.
    Inner,
    /// F is to be written, for an element of an inner segment.
    Element,
    /// T is to be written, for the end of the outer segment.
    End,
}

impl Stage for ConcatFlagsStage {
    ghost use Rattle.flow_segment.specs.ConcatFlagsMachine.{concat_flags_table};
    ghost use Rattle.flow_segment.specs.laws.ConcatFlags.{concat_flags_laws};

    ghost table = { concat_flags_table };

    ghost laws = { concat_flags_laws };

    fn start() -> ConcatFlagsStage {
        Self::Start
    }

    #[inline(always)]
    fn step(self) -> StageMove<ConcatFlagsStage> {
        match self {
            Self::Start => StageMove::Begin(Ok(Self::Inner), Ok(Self::End)),
            Self::Outer => StageMove::Take(0, Ok(Self::Inner), Ok(Self::End)),
            Self::Inner => StageMove::Take(1, Ok(Self::Element), Ok(Self::Outer)),
            Self::Element => StageMove::Give(0, false, Self::Inner),
            Self::End => StageMove::Give(0, true, Self::Start),
        }
    }

    fn inputs() -> usize {
        2
    }

    fn outputs() -> usize {
        1
    }
}
