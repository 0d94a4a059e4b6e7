// Reading a job.

use crate::saying::{file_message, say, say_plainly};
use crate::voice::Voice;
use clap::ArgMatches;
use snesl_data::{Counted, Refusal};
use snesl_run::split_job;
use std::alloc::Global;
use std::fs;
use std::io::{self, ErrorKind, Read, Write};
use std::rt::Files;

// A program and its input text, and the file that has both, where they came from one.
#[derive(Drop)]
pub(crate) struct Job<'a> {
    pub(crate) program: Vec<u8>,
    pub(crate) input: Vec<u8>,
    pub(crate) file: Option<&'a str>,
}

impl<'a> Job<'a> {
    // A job of which nothing is read.
    pub(crate) fn none(alloc: Global) -> Job<'a> {
        Job {
            program: Vec::new(alloc),
            input: Vec::new(alloc),
            file: None,
        }
    }
}

// What a job is read from.
#[derive(Drop)]
enum Source<F, R> {
    File(F),
    Input(R),
}

impl<F: Read, R: Read> Read for Source<F, R> {
    fn read(&mut self, buf: &mut [u8]) -> io::Result<usize> {
        match self {
            Source::File(file) => file.read(buf),
            Source::Input(input) => input.read(buf),
        }
    }
}

// The file that the words name, unless that is standard input.
pub(crate) fn file_of<'a>(matches: &ArgMatches<'a>) -> Option<&'a str> {
    match matches.get_str("file") {
        None | Some("-") => None,
        file => file,
    }
}

// The job in the file that the words name, or on standard input. The error is the exit status, after what went wrong was said.
pub(crate) fn read_job<'a, H: AllocGlobal + Files, R: Read + Drop, E: Write>(
    rt: &H,
    matches: &ArgMatches<'a>,
    stdin: R,
    err: &mut Voice<'_, E>,
) -> Result<Job<'a>, u8> {
    let file = file_of(matches);
    let source = opened(rt, file, stdin, err)?;
    match split_job(rt.alloc(), &mut Counted::new(source)) {
        Ok((program, input)) => Ok(Job {
            program,
            input,
            file,
        }),
        Err(error) => Err(say_plainly(Refusal::from(error), err)),
    }
}

// All bytes that stand there. The error is as above.
pub(crate) fn read_bytes<H: AllocGlobal + Files, R: Read + Drop, E: Write>(
    rt: &H,
    matches: &ArgMatches<'_>,
    stdin: R,
    err: &mut Voice<'_, E>,
) -> Result<Vec<u8>, u8> {
    let mut source = opened(rt, file_of(matches), stdin, err)?;
    let mut bytes = Vec::new(rt.alloc());
    match source.read_to_end(&mut bytes) {
        Ok(_) => Ok(bytes),
        Err(error) if error.kind() == ErrorKind::OutOfMemory => {
            Err(say_plainly(Refusal::NoMemory, err))
        }
        Err(_) => Err(say_plainly(Refusal::Read, err)),
    }
}

// The file, or standard input where there is none. The error is as above.
fn opened<H: AllocGlobal + Files, R: Read + Drop, E: Write>(
    rt: &H,
    file: Option<&str>,
    stdin: R,
    err: &mut Voice<'_, E>,
) -> Result<Source<H::File, R>, u8> {
    let Some(path) = file else {
        return Ok(Source::Input(stdin));
    };
    match fs::open(rt, path) {
        Ok(file) => Ok(Source::File(file)),
        Err(_) => Err(say(
            file_message(rt.alloc(), path, b"could not be opened"),
            Refusal::Read.status(),
            err,
        )),
    }
}
