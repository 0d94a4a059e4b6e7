// The transducers over segments and vectors: each is a node whose worker has the same name.
use crate::workers;
use flow_base::Node;

/// Joins segments of two sequences place by place: their flags. See [`workers::AppendFlags`](crate::workers::AppendFlags).
pub type AppendFlags = Node<workers::AppendFlags>;

/// Makes one segment of the segments of each group: their flags. See [`workers::ConcatFlags`](crate::workers::ConcatFlags).
pub type ConcatFlags = Node<workers::ConcatFlags>;

/// Writes each item as often as its segment has elements. See [`workers::Dist`](crate::workers::Dist).
pub type Dist = Node<workers::Dist>;

/// Makes a segment of one element for true, and of none for false. See [`workers::FlagOfBool`](crate::workers::FlagOfBool).
pub type FlagOfBool = Node<workers::FlagOfBool>;

/// Writes the element of a vector at an index. See [`workers::Index`](crate::workers::Index).
pub type Index = Node<workers::Index>;

/// Joins segments of two sequences place by place: their items. See [`workers::Interleave`](crate::workers::Interleave).
pub type Interleave = Node<workers::Interleave>;

/// Joins segments of two sequences place by place: the flags of their elements. See [`workers::InterleaveGroups`](crate::workers::InterleaveGroups).
pub type InterleaveGroups = Node<workers::InterleaveGroups>;

/// Writes the items whose truth value is true. See [`workers::Pack`](crate::workers::Pack).
pub type Pack = Node<workers::Pack>;

/// Writes the segments whose truth value is true. See [`workers::PackGroups`](crate::workers::PackGroups).
pub type PackGroups = Node<workers::PackGroups>;

/// Parts segments by truth values: flags of the parts, and of their elements. See [`workers::PartFlags`](crate::workers::PartFlags).
pub type PartFlags = Node<workers::PartFlags>;

/// Checks that two sequences have segments of the same lengths. See [`workers::SameFlags`](crate::workers::SameFlags).
pub type SameFlags = Node<workers::SameFlags>;

/// Writes the elements of vectors, with their flags. See [`workers::Seq`](crate::workers::Seq).
pub type Seq = Node<workers::Seq>;

/// Makes a vector of the elements of each segment. See [`workers::Tab`](crate::workers::Tab).
pub type Tab = Node<workers::Tab>;

/// Checks that each segment has one element. See [`workers::TheCheck`](crate::workers::TheCheck).
pub type TheCheck = Node<workers::TheCheck>;
