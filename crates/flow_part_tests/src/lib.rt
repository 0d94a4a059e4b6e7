// Tests of the parts of which the drives are made: tables, boxes and rings, by courses over their edges; dealing, shares, threads, openings
// and epochs; and both ends of an edge, in one thread and in threads of their own.
#![tactic(auto)]

#[cfg(test)]
mod courses;
#[cfg(test)]
mod crossings;
#[cfg(test)]
mod epochs;
#[cfg(test)]
mod messages;
#[cfg(test)]
mod one_thread;
#[cfg(test)]
mod opening;
#[cfg(test)]
mod pairs;
#[cfg(test)]
mod shares;
#[cfg(test)]
mod tables;
#[cfg(test)]
mod turns;
#[cfg(test)]
mod two_threads;
#[cfg(test)]
mod word_edges;
