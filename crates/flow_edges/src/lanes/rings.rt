// The ring ends that a share of a network owns.
use crate::lanes::ends::{LaneReader, LaneWriter};

/// Some writers and some readers, each at the number of its edge.
#[derive(Drop)]
pub struct Rings {
    pub(crate) writers: Vec<Option<LaneWriter>>,
    pub(crate) readers: Vec<Option<LaneReader>>,
}
