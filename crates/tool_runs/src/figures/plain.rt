// The plain evaluation of a job, which holds whole sequences.

use anyhow::Result;
use snesl_data::{Counted, Datum, Fault, Refusal, text_of};
use snesl_run::console::split_job;
use snesl_syntax::parse;
use snesl_types::{check, plain};
use snesl_values::read_inputs;
use std::alloc::Global;
use std::io::{self, Write};

/// Evaluates the job on standard input, and prints its value, `fault`, or the number of its refusal.
pub fn print_plainly(rt: &HostRuntime) -> Result<()> {
    let (program, input) = split_job(rt.alloc(), &mut Counted::new(rt.stdin()))?;
    match evaluated(rt.alloc(), &program, &input) {
        Ok(Ok(datum)) => print_value(rt, &datum)?,
        Ok(Err(_)) => println!(rt; "fault")?,
        Err(refusal) => println!(rt; "refused {}", refusal.number())?,
    }
    Ok(())
}

// Prints the text of a value as a line.
fn print_value(rt: &HostRuntime, datum: &Datum) -> io::Result<()> {
    let mut line = text_of(rt.alloc(), datum)?;
    line.push(b'\n')?;
    let mut stdout = rt.stdout();
    stdout.write_all(&line)?;
    stdout.flush()
}

// What a program evaluates to for an input text.
fn evaluated(alloc: Global, text: &[u8], input: &[u8]) -> Result<Result<Datum, Fault>, Refusal> {
    let program = parse(alloc, text)?;
    let typed = check(alloc, &program)?;
    let inputs = read_inputs(typed.dialect(), alloc, typed.decls(), input)?;
    Ok(plain(alloc, &typed, &inputs)?)
}
