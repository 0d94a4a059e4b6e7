//! What the transducers of this crate do with one instance after another: a [`Node`](flow_base::Node) makes a
//! transducer of each.

pub use crate::binary::Binary;
pub use crate::constant::Const;
pub use crate::fork::Fork;
pub use crate::iota::Iota;
pub use crate::sink::Sink;
pub use crate::unary::Unary;
pub use crate::units_of::UnitsOf;
pub use flow_folds::{Length, Reduce, ScanAdd};
