//! Workers that fold the elements of segments: counts, scans and reductions. With them, scalars as items of streams.
//!
//! A segment is a list of flags: `false` (F) for each of its elements, then `true` (T). Each struct here is a
//! [`Worker`](flow_base::Worker), of which [`Node`](flow_base::Node) makes a transducer.
#![tactic(auto)]

mod length;
mod reduce;
mod scalars;
mod scan_add;

pub use length::Length;
pub use reduce::Reduce;
pub use scalars::{item_of, kind_of, scalar_of};
pub use scan_add::ScanAdd;
