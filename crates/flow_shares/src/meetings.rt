//! A graph dealt out to shares, and the meetings of their ends.
//!
//! [`deal`] takes a graph apart, as a drive of several threads begins. Each of its nodes goes to one share, with the ends of
//! the edges at its ports, and the [`EdgeOwners`] of each edge says in which shares its ends are. [`Opening`] is what sets of ends
//! offer that can be opened: boxes, and rings. [`open_all`] opens the ends of every edge, wherever they are to be.
//!
//! Between two runs of the shares both ends of each edge meet, in the caller's thread. [`Meeting`] is what sets of ends offer
//! of which two can meet at an edge: boxes, between which the messages are then carried, and rings, whose ends then see each
//! other. [`meet_all`] has the ends of every edge meet. What the shares made of their network then, the theorems say, as
//! [`a_round_is_a_run`] over boxes and [`own_shares_are_sound`] over any ends.
//!
//! [`are_fed`] and [`are_calm`] tell what the last pumps came to, and [`are_stuck`] whether a node can step. When all is
//! done, [`gather_graph`] makes a graph of the shares again.

mod dealing;
mod dealt;
mod gathering;
mod meeting;
mod meeting_boxes;
mod meeting_everywhere;
mod meeting_rings;
mod opening;
mod opening_boxes;
mod opening_everywhere;
mod opening_rings;
mod owners;
mod standing;
mod theorems;

pub use dealing::deal;
pub use dealt::Dealt;
pub use gathering::gather_graph;
pub use meeting::Meeting;
pub use meeting_everywhere::meet_all;
pub use opening::Opening;
pub use opening_everywhere::open_all;
pub use owners::{EdgeOwners, owners_of};
pub use standing::{are_calm, are_fed, are_stuck};
pub use theorems::{
    a_calm_round_leads_to_rest, a_meeting_is_sound, a_round_is_a_run, boxes_are_level,
    calm_rounds_rest, carrying_keeps_the_configuration, fresh_shares_start, met_is_in_order,
    own_shares_are_sound, stuck_shares_rest,
};
