// What is told of a program that has stalled.

use crate::drawing::drawing_of_job;
use crate::placing::say_place_in_program;
use crate::reading::Job;
use crate::saying::{say, say_plainly};
use crate::sizing::enough;
use crate::voice::Voice;
use snesl_data::Refusal;
use snesl_look::{Enough, stalled_message};
use std::alloc::Global;
use std::io::Write;
use std::thread::Threads;

// What is shown on a terminal while it is looked how many messages are enough, and how it is taken away.
const SEARCHES: &[u8] = b"the program has stalled; looking how many messages are enough";

const NOTHING: &[u8] = b"\r\x1b[K";

// Says that a run has stalled, and that it is made again with greater edges.
pub(crate) fn say_again<E: Write>(
    alloc: Global,
    held: usize,
    holds: usize,
    err: &mut Voice<'_, E>,
) {
    let note = format!(in alloc;
        "note: stalled with {held} messages an edge, and runs again with {holds}\n"
    );
    if let Ok(note) = note {
        let _ = err.say(note.as_bytes());
    }
}

// Says that a run has stalled while this edge was full: the form that writes it, and how many messages are enough. Gives the exit
// status. The chunk is that of the run; there is none where the greatest capacity was tried, so that no search is made.
pub(crate) fn say_stall<E: Write>(
    rt: &impl Threads,
    alloc: Global,
    job: &Job<'_>,
    chunk: Option<usize>,
    edge: usize,
    err: &mut Voice<'_, E>,
) -> u8 {
    let full = form_of_edge(alloc, &job.program, &job.input, edge);
    let enough = match chunk {
        Some(chunk) => searched(rt, alloc, job, chunk, err),
        None => Enough::Nothing,
    };
    if let Some(at) = full
        && say_place_in_program(alloc, job, at, err).is_err()
    {
        return say_plainly(Refusal::NoMemory, err);
    }
    say(stalled_message(alloc, &job.program, full, enough), 3, err)
}

// What a search finds of how many messages are enough. On a terminal a line tells of it meanwhile.
fn searched<E: Write>(
    rt: &impl Threads,
    alloc: Global,
    job: &Job<'_>,
    chunk: usize,
    err: &mut Voice<'_, E>,
) -> Enough {
    let on_terminal = err.on_terminal();
    if on_terminal {
        let _ = err.say(SEARCHES);
    }
    let enough = enough(rt, alloc, &job.program, &job.input, chunk);
    if on_terminal {
        let _ = err.say(NOTHING);
    }
    enough
}

// The offset of the form whose node writes this edge. The nodes that join what it writes to its readers stand after it. An
// input has no form. The network is made a second time for that: `None` too where memory was refused to it.
fn form_of_edge(alloc: Global, program: &[u8], input: &[u8], edge: usize) -> Option<usize> {
    let drawing = drawing_of_job(alloc, program, input).ok()?;
    let writer = drawing.edges.get(edge)?.edge.writer;
    let mut form = None;
    for node in &drawing.nodes {
        if node.number > writer {
            break;
        }
        match node.word {
            "Fork" | "Sink" => {}
            "Input" => form = None,
            _ => form = Some(node.at),
        }
    }
    form
}
