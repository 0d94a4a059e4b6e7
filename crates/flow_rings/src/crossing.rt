//! Messages that one thread puts on an edge and another takes from it: callers of both its ends.

mod across;
mod finishing;
mod numbers;

pub use across::{Across, put_all, send_across, take_all};
pub use finishing::send_and_finish;
pub use numbers::{are_numbers_and_end, is_number, number, numbers_and_end};
