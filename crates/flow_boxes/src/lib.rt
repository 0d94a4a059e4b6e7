//! The ends of a share of a network, where messages pass between rounds only.
//!
//! Each edge has a box at its writer and a box at its reader, both for items of its kind. Within a round the writer puts messages
//! into its own box, up to the room that it was told of, and the reader takes what its own box holds.
//! Between two rounds [`carry`] moves the messages from the one to the other, and tells the writer its
//! new room. [`carry_own`] does so where both boxes lie in one share.
//!
//! All the memory is taken where a box is opened: no put and no carrying takes any.
#![tactic(auto)]

mod box_ends;
mod boxes;
mod carrying;
mod inbox;
mod outbox;
mod theorems;

pub use boxes::Boxes;
pub use carrying::{carry, carry_own};
pub use inbox::Inbox;
pub use theorems::{fresh_boxes_are_linked, fresh_boxes_stay_fresh, links_stay};
