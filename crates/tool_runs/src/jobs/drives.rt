// Programs by each drive: over edges of the same capacity, the drives of several threads end as that of one thread does.

use crate::jobs::Trial;
use crate::jobs::answers::job_of;
use flow_drives::{Config, Drive};
use snesl_data::Counted;
use snesl_run::console::split_job;
use snesl_trials::tables::{Row, SpellingError};
use snesl_trials::{Done, ran, ran_in_one_thread};
use std::alloc::{AllocError, Global};
use std::fmt;
use std::thread::Threads;

// How many messages an edge holds.
const CAPACITIES: [usize; 5] = [256, 4, 3, 2, 1];

// How many steps a visit makes at most.
const CHUNKS: [usize; 4] = [1, 3, 16, 1_024];

// How many threads there are, and the lists that name a share for each node: all nodes in one share, and neighbours apart
// in two and in sixteen.
const SHARES: [(usize, &[u8]); 3] = [
    (1, &[0]),
    (2, &[0, 1]),
    (16, &[0, 1, 2, 3, 4, 5, 6, 7, 8, 9, 10, 11, 12, 13, 14, 15]),
];

// Pairs of neighbours together, and neighbours apart in three, in another order than that of the shares.
const OTHER_SHARES: [(usize, &[u8]); 2] = [(2, &[1, 1, 0, 0]), (3, &[2, 0, 1])];

/// How many programs were run by several threads, and how many of the runs ended otherwise than that of one thread.
#[derive(Clone, Copy, Debug)]
pub struct Drives {
    programs: usize,
    runs: usize,
    /// How many runs ended otherwise.
    pub differing: usize,
}

impl fmt::Display for Drives {
    fn fmt<W: fmt::Write>(&self, f: &mut fmt::Formatter<W>) -> fmt::Result {
        let (programs, runs, differing) = (self.programs, self.runs, self.differing);
        write!(
            f,
            "{programs} programs by every drive in {runs} runs, {differing} differ"
        )
    }
}

// A program, over edges of a capacity, and how it ended in one thread.
#[derive(Clone, Copy)]
struct Case<'a> {
    program: &'a [u8],
    input: &'a [u8],
    capacity: usize,
    serial: &'a Done,
}

// How several threads drive it: the steps of a visit, after how many turns without a step a thread ends, how many threads there
// are, and the list of shares.
#[derive(Clone, Copy)]
struct Way<'a> {
    drive: Drive,
    chunk: usize,
    idle: usize,
    shares: (usize, &'a [u8]),
}

impl Trial for Drives {
    fn try_row(
        &mut self,
        rt: &impl Threads,
        alloc: Global,
        row: &Row<'_>,
    ) -> Result<Option<String>, SpellingError> {
        let before = self.differing;
        let job = job_of(alloc, row)?;
        self.add(rt, alloc, &job)?;
        if self.differing == before {
            return Ok(None);
        }
        let text = String::from_str(alloc, "a drive differs from that of one thread")?;
        Ok(Some(text))
    }
}

impl Drives {
    /// No run.
    pub fn none() -> Drives {
        Drives {
            programs: 0,
            runs: 0,
            differing: 0,
        }
    }

    // Runs the program of a job by the drive of one thread, and by those of several, over edges of each capacity.
    fn add(&mut self, rt: &impl Threads, alloc: Global, job: &[u8]) -> Result<(), AllocError> {
        let (program, input) = split_job(alloc, &mut Counted::new(job)).map_err(|_| AllocError)?;
        self.programs = self.programs.saturating_add(1);
        for capacity in CAPACITIES {
            let serial = ran_in_one_thread(rt, alloc, &program, &input, capacity, 16)?;
            let case = Case {
                program: &program,
                input: &input,
                capacity,
                serial: &serial,
            };
            self.try_ways(rt, alloc, case)?;
        }
        Ok(())
    }

    // Tries the drives of several threads: each of the chunks and of the lists of shares, and over rings threads that end after
    // one turn without a step and after 64; in rounds no message comes that a later turn could find. A network of at most five
    // nodes is run with each list of five entries 0 or 1 besides.
    fn try_ways(
        &mut self,
        rt: &impl Threads,
        alloc: Global,
        case: Case<'_>,
    ) -> Result<(), AllocError> {
        for (drive, idles) in [
            (Drive::Rounds, [1].as_slice()),
            (Drive::Rings, [1, 64].as_slice()),
        ] {
            self.try_shares(rt, alloc, case, drive, idles)?;
            if case.serial.nodes <= 5 {
                self.try_pairs(rt, alloc, case, drive)?;
            }
        }
        Ok(())
    }

    // Tries one of these drives with each of the lists of shares.
    fn try_shares(
        &mut self,
        rt: &impl Threads,
        alloc: Global,
        case: Case<'_>,
        drive: Drive,
        idles: &[usize],
    ) -> Result<(), AllocError> {
        for chunk in CHUNKS {
            for &idle in idles {
                for &shares in &SHARES {
                    let way = Way {
                        drive,
                        chunk,
                        idle,
                        shares,
                    };
                    self.try_way(rt, alloc, case, way)?;
                }
            }
        }
        for &shares in &OTHER_SHARES {
            self.try_way(rt, alloc, case, unhurried(drive, shares))?;
        }
        Ok(())
    }

    // Tries one of these drives with each list of five entries 0 or 1.
    fn try_pairs(
        &mut self,
        rt: &impl Threads,
        alloc: Global,
        case: Case<'_>,
        drive: Drive,
    ) -> Result<(), AllocError> {
        for bits in 0..32u8 {
            let share = [
                bits & 1,
                bits >> 1 & 1,
                bits >> 2 & 1,
                bits >> 3 & 1,
                bits >> 4,
            ];
            self.try_way(rt, alloc, case, unhurried(drive, (2, &share)))?;
        }
        Ok(())
    }

    // Runs a program one way, and counts the run where it ends otherwise than in one thread.
    fn try_way(
        &mut self,
        rt: &impl Threads,
        alloc: Global,
        case: Case<'_>,
        way: Way<'_>,
    ) -> Result<(), AllocError> {
        let config = config(alloc, case.capacity, way)?;
        self.runs = self.runs.saturating_add(1);
        let done = ran(rt, alloc, case.program, case.input, &config)?;
        if done.ending.is_err() || done != *case.serial {
            self.differing = self.differing.saturating_add(1);
        }
        Ok(())
    }
}

// A drive with visits of one step, and threads that end after one turn without a step.
fn unhurried(drive: Drive, shares: (usize, &[u8])) -> Way<'_> {
    Way {
        drive,
        chunk: 1,
        idle: 1,
        shares,
    }
}

fn config(alloc: Global, capacity: usize, way: Way<'_>) -> Result<Config, AllocError> {
    let (threads, share) = way.shares;
    Ok(Config {
        capacity,
        chunk: way.chunk,
        threads,
        idle: way.idle,
        share: share.to_vec(alloc)?,
        drive: way.drive,
    })
}
