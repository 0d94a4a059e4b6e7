// Answers the job on standard input.
#![tactic(auto)]

use snesl_data::{Counted, Refusal};
use snesl_run::console::{complain, send};
use snesl_run::{answer, settings};
use std::alloc::{AllocError, Global};
use std::env::{self, FillError};
use std::io::{self, ErrorKind, Read, Write};
use std::process::ExitCode;
use std::rt::Env;
use std::thread::Threads;

// What is said besides of words that are no settings.
const HELP: &[u8] = b"snesl reads a job from standard input, and takes options, as `--chunk 256`
(docs/LANGUAGE.md). `levuttar run FILE` runs a file, `levuttar --help` helps.
";

fn main(rt: HostRuntime) -> ExitCode {
    let mut job = Counted::new(rt.stdin());
    let mut out = Counted::new(rt.stdout());
    let mut err = Counted::new(rt.stderr());
    let status = match answered(&rt, &mut job, &mut out, &mut err) {
        Ok(status) => status,
        Err(_) => complain(Refusal::NoMemory, &mut err),
    };
    // Where a write has failed, that was said, and no further call is made.
    if out.failures() == 0 && out.flush().is_err() {
        return ExitCode::from(complain(Refusal::Output, &mut err));
    }
    ExitCode::from(status)
}

// Answers the job, under the words of the command line. Where these are refused, standard error tells where help is. The error is
// that memory was refused to the words.
fn answered<H: Env + AllocGlobal + Threads, R: Read, W: Write, E: Write>(
    rt: &H,
    job: &mut Counted<R>,
    out: &mut Counted<W>,
    err: &mut Counted<E>,
) -> io::Result<u8> {
    let args = args_of(rt)?;
    let words = words_of(rt.alloc(), &args)?;
    let status = answer(rt, rt.alloc(), &words, job, out, err);
    if status == Refusal::BadConfig.status()
        && matches!(settings(rt.alloc(), &words), Err(Refusal::BadConfig))
    {
        let _ = send(err, HELP);
    }
    Ok(status)
}

// The words of the command line. Where one of them is no UTF-8, the name and one word are given, each as `?`.
fn args_of<R: Env + AllocGlobal>(rt: &R) -> io::Result<Vec<String>> {
    match env::args(rt) {
        Ok(args) => Ok(args.collect(rt.alloc())?),
        Err(error) if error.kind() == ErrorKind::InvalidData => unreadable_args(rt),
        Err(error) => Err(error),
    }
}

// `?` for the program's name and, where there is one, for the word after it.
fn unreadable_args<R: Env + AllocGlobal>(rt: &R) -> io::Result<Vec<String>> {
    let mut args = vec![in rt.alloc(); String::from_str(rt.alloc(), "?")?]?;
    match rt.arg(1, &mut []) {
        Err(FillError::NotPresent) => {}
        _ => args.push(String::from_str(rt.alloc(), "?")?)?,
    }
    Ok(args)
}

fn words_of(alloc: Global, args: &[String]) -> Result<Vec<&str>, AllocError> {
    let mut words = Vec::new(alloc);
    for arg in args {
        words.push(arg.as_str())?;
    }
    Ok(words)
}
