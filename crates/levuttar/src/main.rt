// Runs jobs, and says in words what went wrong and where.
#![tactic(auto)]

mod checking;
mod choosing;
mod command_line;
mod dealing;
mod drawing;
mod foretelling;
mod formatting;
mod piping;
mod placing;
mod reading;
mod rewriting;
mod running;
mod saying;
mod sizing;
mod stalling;
mod voice;
mod watching;

use checking::check_file;
use command_line::command;
use drawing::draw_file;
use formatting::format_file;
use piping::Piped;
use running::run_file;
use saying::{say_plainly, say_words};
use sizing::size_file;
use snesl_data::{Counted, Refusal};
use std::alloc::AllocError;
use std::cell::Cell;
use std::env;
use std::io::{self, ErrorKind, IsTerminal, Read, Write};
use std::process::ExitCode;
use std::rt::{Clock, Env, Files};
use std::thread::Threads;
use voice::Voice;

fn main(rt: HostRuntime) -> ExitCode {
    let has_broken = Cell::new(false);
    let mut out = Counted::new(Piped::new(rt.stdout(), &has_broken));
    let on_terminal = rt.stderr().is_terminal();
    let in_colours = on_terminal && shows_colours(&rt);
    let mut err = Voice::new(rt.stderr(), &has_broken, on_terminal, in_colours);
    let status = match words_of(&rt) {
        Ok(words) => obeyed(&rt, &words, rt.stdin(), &mut out, &mut err),
        Err(error) if error.kind() == ErrorKind::InvalidData => {
            say_plainly(Refusal::BadConfig, &mut err)
        }
        Err(_) => say_plainly(Refusal::NoMemory, &mut err),
    };
    // Where a write has failed, that was said, and no further call is made.
    if out.failures() == 0 && out.flush().is_err() {
        return ExitCode::from(say_plainly(Refusal::Output, &mut err));
    }
    ExitCode::from(status)
}

// Whether the environment lets a terminal show colours.
fn shows_colours<R: Env + AllocGlobal>(rt: &R) -> bool {
    match env::var(rt, "NO_COLOR") {
        Ok(text) => text.is_empty(),
        Err(_) => true,
    }
}

// The words of the command line. The error is that one is no text, or that memory was refused to them.
fn words_of<R: Env + AllocGlobal>(rt: &R) -> io::Result<Vec<String>> {
    Ok(env::args(rt)?.collect(rt.alloc())?)
}

// Does what the words say, and gives the exit status.
fn obeyed<
    H: AllocGlobal + Files + Threads + Clock + Eprint + Clone + Drop + Send + Sync + 'static,
    R: Read + Drop,
    W: Write,
    E: Write,
>(rt: &H, words: &[String], stdin: R, out: &mut Counted<W>, err: &mut Voice<'_, E>) -> u8 {
    let command = match command(rt.alloc()) {
        Ok(command) => command,
        Err(AllocError) => return say_plainly(Refusal::NoMemory, err),
    };
    match command.try_get_matches_from(words) {
        Ok(matches) => match matches.subcommand() {
            Some(("run", words)) => run_file(rt, words, stdin, out, err),
            Some(("check", words)) => check_file(rt, words, stdin, out, err),
            Some(("fmt", words)) => format_file(rt, words, stdin, out, err),
            Some(("size", words)) => size_file(rt, words, stdin, out, err),
            Some(("draw", words)) => draw_file(rt, words, stdin, out, err),
            _ => say_plainly(Refusal::BadConfig, err),
        },
        Err(error) => say_words(rt.alloc(), &error, out, err),
    }
}
