// Runs that try the language's implementation as a whole, and that time it.
//
// The first word of the command line says what is done. `jobs`, or no word, answers the tables of jobs in the folder that the
// program runs in (`jobs.rt`). `nodes` feeds the nodes that take memory (`nodes.rt`). `inputs` reads an input text of as many inner
// sequences as the second word says, one where there is none (`inputs.rt`). `random` makes programs and runs them
// (`random.rt`). `drives`, `graph` and `plain` give the figures of docs/TIMES.md (`figures.rt`), the first two over as many
// elements as the second word says, a thousand where there is none. `all` does all of this in turn. `worked` runs the programs of
// the worked rows by every drive, which takes much longer. `job` prints the random job of the seed that the second word says. The
// status is 1 where something differs.
#![tactic(auto)]

mod endings;
mod figures;
mod inputs;
mod jobs;
mod nodes;
mod random;

use anyhow::{Context, Result, bail};
use figures::{print_plainly, time_drives, time_graph};
use inputs::try_inputs;
use jobs::{table_names, try_jobs, try_worked};
use nodes::try_nodes;
use random::{Wish, print_job, try_programs};
use std::env::{self, Args};

// Over how many elements the figures go where no word tells.
const ELEMENTS: u64 = 1_000;

// How many inner sequences the input text has where no word tells.
const SEQUENCES: u64 = 1;

// What the command line asks for.
#[derive(Clone, Copy)]
enum Task {
    Jobs,
    Worked,
    Nodes,
    Inputs(u64),
    Random(Wish),
    Job(u64),
    Drives(u64),
    Graph(u64),
    Plain,
    All,
}

fn main(rt: HostRuntime) -> Result<()> {
    match task_of(env::args(&rt)?)? {
        Task::Jobs => try_jobs(&rt, &table_names(&rt)?),
        Task::Worked => try_worked(&rt),
        Task::Nodes => try_nodes(&rt),
        Task::Inputs(count) => try_inputs(&rt, count),
        Task::Random(wish) => try_programs(&rt, wish),
        Task::Job(seed) => print_job(&rt, seed),
        Task::Drives(count) => time_drives(&rt, count),
        Task::Graph(count) => time_graph(&rt, count),
        Task::Plain => print_plainly(&rt),
        Task::All => {
            try_jobs(&rt, &table_names(&rt)?)?;
            try_nodes(&rt)?;
            try_inputs(&rt, SEQUENCES)?;
            try_programs(&rt, Wish::usual())?;
            time_drives(&rt, ELEMENTS)?;
            time_graph(&rt, ELEMENTS)?;
            print_plainly(&rt)
        }
    }
}

// What the words ask for.
fn task_of(mut words: Args) -> Result<Task> {
    let _program = words.next();
    let Some(first) = words.next() else {
        return Ok(Task::Jobs);
    };
    match first.as_str() {
        "jobs" => Ok(Task::Jobs),
        "worked" => Ok(Task::Worked),
        "nodes" => Ok(Task::Nodes),
        "inputs" => Ok(Task::Inputs(count_of(&mut words, SEQUENCES)?)),
        "random" => Ok(Task::Random(wish_of(&mut words)?)),
        "job" => Ok(Task::Job(number_of(words.next())?)),
        "drives" => Ok(Task::Drives(count_of(&mut words, ELEMENTS)?)),
        "graph" => Ok(Task::Graph(count_of(&mut words, ELEMENTS)?)),
        "plain" => Ok(Task::Plain),
        "all" => Ok(Task::All),
        _ => bail!(
            "the first word is jobs, worked, nodes, inputs, random, job, drives, graph, plain or all"
        ),
    }
}

// What is asked of random programs, by at most two words, each with a number after it.
fn wish_of(words: &mut Args) -> Result<Wish> {
    let mut wish = Wish::usual();
    for _ in 0..2 {
        let Some(word) = words.next() else {
            break;
        };
        let number = number_of(words.next())?;
        match word.as_str() {
            "--seconds" => wish.seconds = Some(number),
            "--seed" => wish.seed = Some(number),
            _ => bail!("the words are --seconds N and --seed S"),
        }
    }
    Ok(wish)
}

// The number that the next word says, and this one where there is none.
fn count_of(words: &mut Args, otherwise: u64) -> Result<u64> {
    match words.next() {
        Some(word) => number_of(Some(word)),
        None => Ok(otherwise),
    }
}

fn number_of(word: Option<String>) -> Result<u64> {
    let word = word.context("a word stands alone")?;
    word.as_str().parse::<u64>().context("no number")
}
