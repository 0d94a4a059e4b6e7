// Tests of the language's calls, and of what a person is shown: words of command lines, looks, faults, findings, layouts and drawings.
#![tactic(auto)]

#[cfg(test)]
mod calls;
#[cfg(test)]
mod candidates;
#[cfg(test)]
mod command_lines;
#[cfg(test)]
mod drawings;
#[cfg(test)]
mod faults;
#[cfg(test)]
mod findings;
#[cfg(test)]
mod layouts;
#[cfg(test)]
mod looks;
#[cfg(test)]
mod types;
#[cfg(test)]
mod vectors;
