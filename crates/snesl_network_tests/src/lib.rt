// Tests of programs that become networks, with their inputs: plans, schedules, sizes and the choice of threads; and of the doors' callers.
#![tactic(auto)]

#[cfg(test)]
mod calling;
#[cfg(test)]
mod choices;
#[cfg(test)]
mod declared_inputs;
#[cfg(test)]
mod inputs;
#[cfg(test)]
mod least_capacities;
#[cfg(test)]
mod plans;
#[cfg(test)]
mod settling;
#[cfg(test)]
mod sizes;
