// Drawing the network of a program.

use crate::command_line::{config_of, file_word, with_settings};
use crate::reading::read_job;
use crate::running::{run_alone, say_outcome};
use crate::saying::{say_plainly, say_refused};
use crate::voice::Voice;
use clap::{Arg, ArgAction, ArgMatches, Command};
use snesl_data::{Counted, Refusal};
use snesl_draw::{Drawing, drawing_of, network_dot, network_text};
use snesl_flatten::flatten;
use snesl_run::console::send;
use snesl_run::{Config, Outcome, Report};
use snesl_syntax::parse;
use snesl_types::check;
use snesl_values::read_inputs;
use std::alloc::{AllocError, Global};
use std::io::{self, Read, Write};
use std::rt::Files;
use std::thread::Threads;

// What is drawn besides, each by an option: its name, and a line of help.
const FLAGS: [(&str, &str); 2] = [
    ("text", "Writes a line for each node, and no picture"),
    (
        "traffic",
        "Runs the job first, and says how many messages\nwent over each edge",
    ),
];

const DRAWS: &str = "A job is a program, a line `---`, and its input text. Without `--traffic` it is
not run, and with it what no option says is chosen.

Example: levuttar draw --traffic examples/primes.snesl | dot -Tsvg >primes.svg";

// The subcommand `draw`.
pub(crate) fn draw_command<'a>(alloc: Global) -> Result<Command<'a>, AllocError> {
    let mut draw = Command::new(alloc, "draw")
        .about("Draws the network of a program, in DOT, the language of Graphviz")
        .after_help(DRAWS);
    for (name, help) in FLAGS {
        let flag = Arg::new(alloc, name).long(name);
        draw = draw.arg(flag.action(ArgAction::SetTrue).help(help))?;
    }
    with_settings(alloc, draw)?.arg(file_word(alloc))
}

// A drawing as text, and where the job was run for it, how that came out and under which chunk.
#[derive(Drop)]
struct Picture {
    text: Vec<u8>,
    run: Option<(Outcome, usize)>,
}

// Draws the program of the file that the words name, or of standard input. The drawing goes to `out`, and what went wrong to
// `err`. Gives the exit status.
pub(crate) fn draw_file<H: AllocGlobal + Files + Threads, R: Read + Drop, W: Write, E: Write>(
    rt: &H,
    matches: &ArgMatches<'_>,
    stdin: R,
    out: &mut Counted<W>,
    err: &mut Voice<'_, E>,
) -> u8 {
    let job = match read_job(rt, matches, stdin, err) {
        Ok(job) => job,
        Err(status) => return status,
    };
    let picture = match drawn(rt, rt.alloc(), matches, &job.program, &job.input) {
        Ok(picture) => picture,
        Err(refusal) => return say_refused(rt.alloc(), refusal, &job, err),
    };
    if !send(out, &picture.text) {
        return say_plainly(Refusal::Output, err);
    }
    match picture.run {
        None => 0,
        Some((outcome, chunk)) => say_outcome(rt, outcome, &job, Some(chunk), err),
    }
}

// The drawing that the words say.
fn drawn(
    rt: &impl Threads,
    alloc: Global,
    matches: &ArgMatches<'_>,
    program: &[u8],
    input: &[u8],
) -> Result<Picture, Refusal> {
    let mut drawing = drawing_of_job(alloc, program, input)?;
    let run = if matches.get_flag("traffic") {
        let config = config_of(alloc, matches)?;
        let outcome = add_traffic(rt, alloc, program, input, &config, &mut drawing)?;
        Some((outcome, config.chunk))
    } else {
        None
    };
    let text = if matches.get_flag("text") {
        network_text(alloc, program, &drawing)?
    } else {
        network_dot(alloc, program, &drawing)?
    };
    Ok(Picture { text, run })
}

// Runs a job, and adds to the drawing of its network how many messages went over each edge. Gives how it came out.
fn add_traffic(
    rt: &impl Threads,
    alloc: Global,
    program: &[u8],
    input: &[u8],
    config: &Config,
    drawing: &mut Drawing,
) -> Result<Outcome, Refusal> {
    let mut nowhere = Counted::new(io::sink());
    match run_alone(rt, alloc, program, input, config, &mut nowhere) {
        Ok(report) => {
            count_messages(drawing, &report);
            Ok(report.outcome())
        }
        Err(error) => Err(error.refusal()),
    }
}

// Adds how many messages went over each edge of a network at rest to the drawing of the same network.
fn count_messages(drawing: &mut Drawing, report: &Report) {
    let rested = report.rested();
    for (number, edge) in drawing.edges.iter_mut().enumerate() {
        if number < rested.edges() {
            let (sent, _) = rested.counts(number);
            edge.messages = Some(sent);
        }
    }
}

// The drawing of the network of a program with its input text, of which no step is made.
pub(crate) fn drawing_of_job(
    alloc: Global,
    program: &[u8],
    input: &[u8],
) -> Result<Drawing, Refusal> {
    let parsed = parse(alloc, program)?;
    let typed = check(alloc, &parsed)?;
    let inputs = read_inputs(typed.dialect(), alloc, typed.decls(), input)?;
    let plan = flatten(alloc, &typed)?;
    let graph = plan.with(inputs)?;
    drawing_of(alloc, &typed, &graph)
}
