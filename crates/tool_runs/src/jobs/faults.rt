// The faults that plain evaluation meets, of the programs of jobs that fault. A network names one of those of which it meets several,
// and evaluation the first. So a row tells both where they are not the same.

use crate::jobs::Trial;
use crate::jobs::answers::job_of;
use snesl_data::{Counted, Fault, Refusal};
use snesl_run::console::split_job;
use snesl_trials::Expected;
use snesl_trials::tables::{Row, SpellingError};
use std::alloc::{AllocError, Global};
use std::fmt;
use std::thread::Threads;

// How each line begins that tells a fault.
const FAULT: &str = "fault ";

/// How many rows tell a fault.
#[derive(Clone, Copy, Debug)]
pub struct Faults {
    rows: usize,
    /// In how many of these evaluation meets another fault first than the network names.
    others: usize,
    /// In how many it does not meet the fault that is told of it.
    pub differing: usize,
}

impl fmt::Display for Faults {
    fn fmt<W: fmt::Write>(&self, f: &mut fmt::Formatter<W>) -> fmt::Result {
        let (rows, others, differing) = (self.rows, self.others, self.differing);
        write!(
            f,
            "{rows} faults of evaluation, {others} others than the network's, {differing} differ"
        )
    }
}

impl Trial for Faults {
    // A row that tells no fault counts for nothing here.
    fn try_row(
        &mut self,
        _: &impl Threads,
        alloc: Global,
        row: &Row<'_>,
    ) -> Result<Option<String>, SpellingError> {
        let Some(told) = fault_told(row) else {
            return Ok(None);
        };
        self.rows = self.rows.saturating_add(1);
        if row.plain.is_some() {
            self.others = self.others.saturating_add(1);
        }
        let met = fault_met(alloc, &job_of(alloc, row)?)?;
        if met.as_str() == told && row.plain != row.prints {
            return Ok(None);
        }
        self.differing = self.differing.saturating_add(1);
        let text = format!(in alloc; "evaluation gives {met}, where the table has {told}")?;
        Ok(Some(text))
    }
}

impl Faults {
    /// No row.
    pub fn none() -> Faults {
        Faults {
            rows: 0,
            others: 0,
            differing: 0,
        }
    }
}

// The fault that a row tells of evaluation, which is that of the network where it tells no other.
fn fault_told<'a>(row: &Row<'a>) -> Option<&'a str> {
    let told = row.plain.or(row.prints)?;
    if told.starts_with(FAULT) {
        Some(told)
    } else {
        None
    }
}

// The line of the fault that evaluation of a job meets first, or what there is in its place.
fn fault_met(alloc: Global, job: &[u8]) -> Result<String, AllocError> {
    let (program, input) = split_job(alloc, &mut Counted::new(job)).map_err(|_| AllocError)?;
    match Expected::of(alloc, &program, &input) {
        Ok(expected) => line_of(alloc, expected.fault()),
        Err(Refusal::NoMemory) => Err(AllocError),
        Err(_) => String::from_str(alloc, "a refusal"),
    }
}

fn line_of(alloc: Global, fault: Option<Fault>) -> Result<String, AllocError> {
    let Some(fault) = fault else {
        return String::from_str(alloc, "a value");
    };
    let (kind, at) = (fault.kind.number(), fault.at);
    format!(in alloc; "fault {kind} at {at}")
}
