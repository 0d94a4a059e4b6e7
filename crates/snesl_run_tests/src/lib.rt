// Tests of jobs over readers and writers that go wrong, and of runs, in one thread and in threads of their own.
#![tactic(auto)]

#[cfg(test)]
mod answering;
#[cfg(test)]
mod ending;
#[cfg(test)]
mod limping;
#[cfg(test)]
mod running;
#[cfg(test)]
mod splitting;
#[cfg(test)]
mod starting;
#[cfg(test)]
mod streams;
#[cfg(test)]
mod threads;
#[cfg(test)]
mod writing;
