// The times that docs/TIMES.md sets beside one another.
//
// Programs by each drive (`drives.rt`), a network built by hand, in one thread (`graph.rt`), and the job on standard input by
// evaluation, without a network (`plain.rt`). What comes out goes to standard output, and what it took to standard error.

mod drives;
mod graph;
mod plain;
mod plan;
mod programs;
mod rounds;

pub use drives::time_drives;
pub use graph::time_graph;
pub use plain::print_plainly;
