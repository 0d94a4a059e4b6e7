// Programs as networks beside their plain evaluation: whatever the edges hold, a run ends in the value that evaluation
// gives, in some fault where evaluation gives one, or in no answer.

use crate::endings::Endings;
use crate::jobs::Trial;
use crate::jobs::answers::job_of;
use snesl_data::{Counted, Refusal};
use snesl_run::console::split_job;
use snesl_trials::tables::{Row, SpellingError};
use snesl_trials::{Expected, ran_in_one_thread};
use std::alloc::{AllocError, Global};
use std::fmt;
use std::thread::Threads;

// No longer job is run here. Such a job is about the limits of a text, which no edge changes, and would be read again for
// each configuration.
const LONGEST: usize = 100_000;

// A network of more nodes is run once. The few such networks would take most of the time.
const MOST_NODES: usize = 500;

/// How many programs were run, and how their runs ended.
#[derive(Clone, Copy, Debug)]
pub struct Beside {
    programs: usize,
    endings: Endings,
    /// How many runs ended as evaluation does not allow.
    pub differing: usize,
}

impl fmt::Display for Beside {
    fn fmt<W: fmt::Write>(&self, f: &mut fmt::Formatter<W>) -> fmt::Result {
        let (programs, differing) = (self.programs, self.differing);
        write!(
            f,
            "{programs} programs in {}, {differing} differ",
            self.endings
        )
    }
}

impl Trial for Beside {
    // A job with words counts for nothing here.
    fn try_row(
        &mut self,
        rt: &impl Threads,
        alloc: Global,
        row: &Row<'_>,
    ) -> Result<Option<String>, SpellingError> {
        if !row.words.is_empty() {
            return Ok(None);
        }
        let before = self.differing;
        let job = job_of(alloc, row)?;
        self.add(rt, alloc, &job)?;
        if self.differing == before {
            return Ok(None);
        }
        let text = String::from_str(alloc, "its network differs from its evaluation")?;
        Ok(Some(text))
    }
}

impl Beside {
    /// No run.
    pub fn none() -> Beside {
        Beside {
            programs: 0,
            endings: Endings::none(),
            differing: 0,
        }
    }

    // Runs the program of a job, and counts the runs; a program that is refused, or whose input text is, counts for
    // nothing, and so does a job of over 100,000 bytes.
    fn add(&mut self, rt: &impl Threads, alloc: Global, job: &[u8]) -> Result<(), AllocError> {
        if job.len() > LONGEST {
            return Ok(());
        }
        let (program, input) = split_job(alloc, &mut Counted::new(job)).map_err(|_| AllocError)?;
        match Expected::of(alloc, &program, &input) {
            Ok(expected) => self.run_all(rt, alloc, &program, &input, &expected),
            Err(Refusal::NoMemory) => Err(AllocError),
            Err(_) => Ok(()),
        }
    }

    // Runs a program over edges of several capacities. A network of over 500 nodes is run once, over the largest edges.
    fn run_all(
        &mut self,
        rt: &impl Threads,
        alloc: Global,
        program: &[u8],
        input: &[u8],
        expected: &Expected,
    ) -> Result<(), AllocError> {
        self.programs = self.programs.saturating_add(1);
        for capacity in [256, 4, 2, 1] {
            for chunk in [16, 256, 1] {
                let done = ran_in_one_thread(rt, alloc, program, input, capacity, chunk)?;
                self.endings.count(&done);
                if !expected.allows(&done) {
                    self.differing = self.differing.saturating_add(1);
                }
                if done.nodes > MOST_NODES || done.ending == Err(Refusal::TooBig) {
                    return Ok(());
                }
            }
        }
        Ok(())
    }
}
