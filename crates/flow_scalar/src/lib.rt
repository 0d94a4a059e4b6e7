//! Transducers over scalars, and those that only move items: sources, constants, operators, copies, ends of streams
//! that nothing uses. Counts, scans and reductions are passed on from flow_folds.
//!
//! Each but [`Source`] is a [`Node`](flow_base::Node) whose [`Worker`](flow_base::Worker) has the same name in
//! [`workers`]: `Sink::new(workers::Sink::new(kind), at)` is a sink whose faults are at the offset `at`.
#![tactic(auto)]

mod binary;
mod constant;
mod fork;
mod iota;
mod operand;
mod sink;
mod source;
mod transducers;
mod unary;
mod units_of;
pub mod workers;

pub use flow_base::{Ask, Node, Phase, Port, Side, Stop, Transducer, Worker, keeps_laws};
pub use flow_folds::{item_of, kind_of, scalar_of};
pub use kahn::Want;
pub use snesl_data::operators::{BinaryOperator, Reduction, Scalar, ScalarType, UnaryOperator};
pub use source::{Source, Stream};
pub use transducers::{Binary, Const, Fork, Iota, Length, Reduce, ScanAdd, Sink, Unary, UnitsOf};
