//! Lanes: edges between threads whose messages go many at once.
//!
//! A lane of messages is an edge of flow_rings. A lane of scalars of one kind is two. Over the first, an edge of flow_words, go
//! the messages, and the reader takes as many as it finds into a pocket, with one look. Over the second it tells the writer how
//! many it took out of the pocket. So the writer never puts more than the lane may hold, the pocket counted.
//!
//! A put on the edge costs far more than to keep a few scalars. So the writer gathers small puts, and puts them on the edge
//! together. It does so once no more have a place, where it is told to put out, and where both ends meet. What is gathered counts
//! as put, and takes room of the lane, but the reader does not see it yet.
//!
//! [`Rings`] owns the ends that a share of a network has, each at the number of its lane.

mod counted;
mod counting;
mod ends;
mod gathered;
mod gathering;
mod making;
mod meeting;
mod pocket;
mod reader;
mod rings;
mod rings_ends;
mod scalars;
mod taking;
mod theorems;
mod writer;

pub use counted::CountedWriter;
pub use ends::{LaneReader, LaneWriter};
pub use making::lane;
pub use meeting::meet_lane;
pub use pocket::Pocket;
pub use rings::Rings;
pub use theorems::{received_came_over_the_ring, rings_stay_joined};
