//! What the transducers of this crate do with one instance after another: a [`Node`](flow_base::Node) makes a
//! transducer of each.

pub use crate::append_flags::AppendFlags;
pub use crate::concat_flags::ConcatFlags;
pub use crate::dist::Dist;
pub use crate::flag_of_bool::FlagOfBool;
pub use crate::interleave::Interleave;
pub use crate::interleave_groups::InterleaveGroups;
pub use crate::pack::Pack;
pub use crate::pack_groups::PackGroups;
pub use crate::part_flags::PartFlags;
pub use crate::same_flags::SameFlags;
pub use crate::the_check::TheCheck;
pub use flow_values::{Index, Seq, Tab};
