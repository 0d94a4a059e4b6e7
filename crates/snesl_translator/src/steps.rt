//! Steps of plans, made one after another.

mod builtins;
mod forms;
mod steps;
mod wires;

pub use builtins::apply_built_in;
pub use forms::{
    append, apply_operator, apply_prefix, concatenate, constant, same_lengths, unit_for_each,
};
pub use steps::Steps;
pub use wires::{Binding, Wires, copy_wires, kind_of, pair_wires, sequence_wires};
