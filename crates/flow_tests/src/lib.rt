// Tests of what drives graphs: whole drives, much traffic between threads, shares with nodes that move messages, and dealings.
#![tactic(auto)]

#[cfg(test)]
mod cuts;
#[cfg(test)]
mod driving;
#[cfg(test)]
mod idling;
pub mod shares;
#[cfg(test)]
mod traffic;
