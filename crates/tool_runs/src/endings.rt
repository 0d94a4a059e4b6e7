// How runs ended, counted.

use flow_drives::Outcome;
use snesl_trials::Done;
use std::fmt;

/// How many runs there were, and how they ended.
#[derive(Clone, Copy, Debug)]
pub struct Endings {
    runs: usize,
    values: usize,
    faults: usize,
    stalled: usize,
    refused: usize,
}

impl fmt::Display for Endings {
    fn fmt<W: fmt::Write>(&self, f: &mut fmt::Formatter<W>) -> fmt::Result {
        let (runs, values, faults) = (self.runs, self.values, self.faults);
        let (stalled, refused) = (self.stalled, self.refused);
        write!(
            f,
            "{runs} runs: {values} values, {faults} faults, {stalled} stalled, {refused} too big"
        )
    }
}

impl Endings {
    /// No run.
    pub fn none() -> Endings {
        Endings {
            runs: 0,
            values: 0,
            faults: 0,
            stalled: 0,
            refused: 0,
        }
    }

    /// Counts a run.
    pub fn count(&mut self, done: &Done) {
        self.runs = self.runs.saturating_add(1);
        match done.ending {
            Ok(Outcome::Value) => self.values = self.values.saturating_add(1),
            Ok(Outcome::Fault(_)) => self.faults = self.faults.saturating_add(1),
            Ok(Outcome::Stalled { .. }) => self.stalled = self.stalled.saturating_add(1),
            Err(_) => self.refused = self.refused.saturating_add(1),
        }
    }
}
