// Tests of nodes: each by the rows of tables, in graphs by single steps, and by blocks; of items and of operators.
#![tactic(auto)]

#[cfg(test)]
mod bench;
#[cfg(test)]
mod block_steps;
#[cfg(test)]
mod graphs;
#[cfg(test)]
mod items;
#[cfg(test)]
mod operators;
#[cfg(test)]
mod passing;
#[cfg(test)]
mod single_nodes;
#[cfg(test)]
mod tables;
