// Runs of a program over memory.
ghost use Rattle.std.specs.Prelude.{◌≡◌, IfOk};
ghost use Rattle.flow_drives.specs.declared.config.Drive.TheVariants.{Serial};

use flow_drives::{Config, Drive, NoGate, Outcome, Rested};
use flow_nodes::StreamNode;
use snesl_data::{Counted, Refusal};
use snesl_run::run;
use std::alloc::{AllocError, Global};
use std::fmt;
use std::sync::Arc;
use std::thread::Threads;

/// What a run wrote, how it ended, how many nodes its network has, and how many messages were sent and received on each
/// edge. Where the run was refused, no node and no edge is counted.
#[derive(Drop, PartialEq)]
pub struct Done {
    pub written: Vec<u8>,
    pub ending: Result<Outcome, Refusal>,
    pub nodes: usize,
    pub counts: Vec<(u64, u64)>,
}

impl Done {
    /// How many messages were sent in all.
    pub fn messages(&self) -> u64 {
        let mut messages = 0u64;
        for &(sent, _) in &self.counts {
            messages = messages.saturating_add(sent);
        }
        messages
    }

    /// The most messages that were sent on one edge.
    pub fn most(&self) -> u64 {
        let mut most = 0u64;
        for &(sent, _) in &self.counts {
            most = most.max(sent);
        }
        most
    }
}

impl fmt::Display for Done {
    fn fmt<W: fmt::Write>(&self, f: &mut fmt::Formatter<W>) -> fmt::Result {
        let (written, ending) = (self.written.escape_ascii(), &self.ending);
        let messages = self.messages();
        write!(f, "{ending:?}, `{written}` written, {messages} messages")
    }
}

/// Runs a program for an input text.
pub fn ran(
    rt: &impl Threads,
    alloc: Global,
    program: &[u8],
    input: &[u8],
    config: &Config,
) -> Result<Done, AllocError> {
    let gate = Arc::new(alloc, NoGate)?;
    let mut out = Counted::new(Vec::new(alloc));
    let answer = run(rt, alloc, program, input, config, gate, &mut out);
    let written = out.into_inner();
    match answer {
        Ok(report) => Ok(Done {
            written,
            ending: Ok(report.outcome()),
            nodes: report.rested().nodes(),
            counts: counts(alloc, report.rested())?,
        }),
        Err(error) => Ok(Done {
            written,
            ending: Err(error.refusal()),
            nodes: 0,
            counts: Vec::new(alloc),
        }),
    }
}

/// Runs a program for an input text in one thread, over edges of this capacity, with visits of at most so many steps.
pub fn ran_in_one_thread(
    rt: &impl Threads,
    alloc: Global,
    program: &[u8],
    input: &[u8],
    capacity: usize,
    chunk: usize,
) -> Result<Done, AllocError> {
    let config = in_one_thread(alloc, capacity, chunk)?;
    ran(rt, alloc, program, input, &config)
}

// How many messages were sent and how many received, of each edge.
fn counts(alloc: Global, rested: &Rested<StreamNode>) -> Result<Vec<(u64, u64)>, AllocError> {
    let mut counts = Vec::new(alloc);
    for edge in 0..rested.edges() {
        counts.push(rested.counts(edge))?;
    }
    Ok(counts)
}

/// One thread, over edges of this capacity, with visits of at most so many steps.
pub fn in_one_thread(alloc: Global, capacity: usize, chunk: usize) -> Result<Config, AllocError>
    ensures capacity { IfOk result (λ config. config.capacity ≡ capacity) }
    ensures chunk { IfOk result (λ config. config.chunk ≡ chunk) }
    ensures drive { IfOk result (λ config. config.drive ≡ Serial) }
{
    Ok(Config {
        capacity,
        chunk,
        threads: 1,
        idle: 1,
        share: vec![in alloc; 0u8]?,
        drive: Drive::Serial,
    })
}
