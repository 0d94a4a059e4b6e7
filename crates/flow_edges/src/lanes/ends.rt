// The two ends of a lane.
use crate::lanes::counted::CountedWriter;
use crate::lanes::pocket::Pocket;
use flow_rings::{EdgeReader, EdgeWriter};

/// The end of a lane that puts messages: of any, or of scalars of one kind.
#[derive(Drop)]
pub enum LaneWriter {
    Messages(EdgeWriter),
    Scalars(CountedWriter),
}

/// The end of a lane that takes messages.
#[derive(Drop)]
pub enum LaneReader {
    Messages(EdgeReader),
    Scalars(Pocket),
}
