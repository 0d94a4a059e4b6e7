// The jobs of tables, answered over memory.

use crate::jobs::Trial;
use snesl_data::Counted;
use snesl_run::answer;
use snesl_trials::tables::{Row, SpellingError, spelled_bytes};
use std::alloc::{AllocError, Global};
use std::fmt;
use std::thread::Threads;

/// How many jobs were answered.
#[derive(Clone, Copy, Debug)]
pub struct Answers {
    jobs: usize,
    /// How many were answered otherwise than their rows tell.
    pub differing: usize,
}

impl Answers {
    /// No job.
    pub fn none() -> Answers {
        Answers {
            jobs: 0,
            differing: 0,
        }
    }
}

impl fmt::Display for Answers {
    fn fmt<W: fmt::Write>(&self, f: &mut fmt::Formatter<W>) -> fmt::Result {
        let (jobs, differing) = (self.jobs, self.differing);
        write!(f, "{jobs} jobs, {differing} differ")
    }
}

impl Trial for Answers {
    fn try_row(
        &mut self,
        rt: &impl Threads,
        alloc: Global,
        row: &Row<'_>,
    ) -> Result<Option<String>, SpellingError> {
        self.jobs = self.jobs.saturating_add(1);
        let got = answered(rt, alloc, row)?;
        let said = difference(alloc, &got, row)?;
        if said.is_some() {
            self.differing = self.differing.saturating_add(1);
        }
        Ok(said)
    }
}

// What a job is answered: on standard output, on standard error, and the exit status.
#[derive(Drop, PartialEq)]
struct Reply {
    printed: Vec<u8>,
    said: Vec<u8>,
    status: u8,
}

impl fmt::Display for Reply {
    fn fmt<W: fmt::Write>(&self, f: &mut fmt::Formatter<W>) -> fmt::Result {
        let (printed, said) = (self.printed.escape_ascii(), self.said.escape_ascii());
        let status = self.status;
        write!(
            f,
            "`{printed}`, on standard error `{said}`, status {status}"
        )
    }
}

// What is said where a job is answered otherwise than its row tells.
fn difference(alloc: Global, got: &Reply, row: &Row<'_>) -> Result<Option<String>, SpellingError> {
    let told = told(alloc, row)?;
    if *got == told {
        return Ok(None);
    }
    let text = format!(in alloc; "got {got}, where the table has {told}")?;
    Ok(Some(text))
}

// What a row tells.
fn told(alloc: Global, row: &Row<'_>) -> Result<Reply, SpellingError> {
    Ok(Reply {
        printed: line_of(alloc, row.prints)?,
        said: line_of(alloc, row.says)?,
        status: row.status.unwrap_or(0),
    })
}

// The bytes of a line and its line feed; none for no line.
fn line_of(alloc: Global, line: Option<&str>) -> Result<Vec<u8>, SpellingError> {
    let Some(text) = line else {
        return Ok(Vec::new(alloc));
    };
    let mut bytes = spelled_bytes(alloc, text)?;
    bytes.push(b'\n').map_err(AllocError::from)?;
    Ok(bytes)
}

/// The bytes of the job: its lines, with a line feed between two.
pub fn job_of(alloc: Global, row: &Row<'_>) -> Result<Vec<u8>, SpellingError> {
    let text = text_of(alloc, &row.job)?;
    spelled_bytes(alloc, text.as_str())
}

// The lines of a job as they are spelled, with a line feed between two.
fn text_of(alloc: Global, lines: &[&str]) -> Result<String, AllocError> {
    let mut text = String::new(alloc);
    let mut first = true;
    for line in lines {
        if !first {
            text.push('\n')?;
        }
        first = false;
        text.push_str(line)?;
    }
    Ok(text)
}

// Answers the job of a row.
fn answered(rt: &impl Threads, alloc: Global, row: &Row<'_>) -> Result<Reply, SpellingError> {
    let job = job_of(alloc, row)?;
    let words = words_of(alloc, row)?;
    Ok(reply_to(rt, alloc, &words, &job))
}

// The words of the command line, with the program's name before them.
fn words_of<'a>(alloc: Global, row: &Row<'a>) -> Result<Vec<&'a str>, AllocError> {
    let mut words = Vec::new(alloc);
    words.push("snesl")?;
    words.extend_from_slice(&row.words)?;
    Ok(words)
}

// Answers a job over memory.
fn reply_to(rt: &impl Threads, alloc: Global, words: &[&str], job: &[u8]) -> Reply {
    let mut reader = Counted::new(job);
    let mut printed = Counted::new(Vec::new(alloc));
    let mut said = Counted::new(Vec::new(alloc));
    let status = answer(rt, alloc, words, &mut reader, &mut printed, &mut said);
    Reply {
        printed: printed.into_inner(),
        said: said.into_inner(),
        status,
    }
}
