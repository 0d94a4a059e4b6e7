// Segments of one element.

use crate::over_flags::{OverFlags, Stage, StageMove};
use snesl_data::FaultKind;

/// Reads segments of exactly one element each, and writes nothing. Each segment is an instance.
///
/// Reads port 0, flags. Faults: `The` where a segment has no element or a second one; `Shape` where an item is of
/// another kind.
///
/// Row: `TheCheckRow` (specs/Rows.antt).
pub type TheCheck = OverFlags<TheCheckStage>;

/// How far it is.
#[derive(Clone, Copy, Debug, PartialEq, Eq)]
pub enum TheCheckStage {
    /// It is between two segments.
    Start,
    /// The segment's element has come.
    Element,
}

impl Stage for TheCheckStage {
    ghost use Rattle.flow_segment.specs.TheCheckMachine.{the_check_table};
    ghost use Rattle.flow_segment.specs.laws.TheCheck.{the_check_laws};

    ghost table = { the_check_table };

    ghost laws = { the_check_laws };

    fn start() -> TheCheckStage {
        Self::Start
    }

    #[inline(always)]
    fn step(self) -> StageMove<TheCheckStage> {
        match self {
            Self::Start => StageMove::Begin(Ok(Self::Element), Err(FaultKind::The)),
            Self::Element => StageMove::Take(0, Err(FaultKind::The), Ok(Self::Start)),
        }
    }

    fn inputs() -> usize {
        1
    }

    fn outputs() -> usize {
        0
    }
}
