// How many threads are chosen, by what they are foretold to take, and for what programs.

use flow_dealing::cut::{Link, are_between};
use flow_dealing::{LONG, SHORT, Tried, choose_threads, is_sooner, try_out};
use snesl_data::Refusal;
use snesl_flatten::flatten;
use snesl_syntax::parse;
use snesl_types::check;
use snesl_values::read_inputs;
use std::alloc::{AllocError, Global};
use std::test::Fail;

// How many threads are chosen, of at most so many, for four nodes that have so much work each in one thread and over rings. They
// make a line.
fn threads_for(
    alloc: Global,
    alone: u64,
    rings: u64,
    crossing: u64,
    most: usize,
) -> Result<usize, AllocError> {
    let mut links = Vec::new(alloc);
    for writer in 0..3 {
        links.push(Link {
            writer,
            reader: writer + 1,
            cost: crossing,
        })?;
    }
    let tried = Tried {
        messages: 0,
        alone: vec![in alloc; alone; 4]?,
        rings: vec![in alloc; rings; 4]?,
        links,
    };
    if are_between(tried.rings.len(), &tried.links) {
        Ok(choose_threads(alloc, &tried, most)?.threads)
    } else {
        Ok(0)
    }
}

// What a short run finds of a program without inputs.
fn tried(alloc: Global, text: &[u8]) -> Result<Tried, Refusal> {
    let program = parse(alloc, text)?;
    let typed = check(alloc, &program)?;
    let inputs = read_inputs(typed.dialect(), alloc, typed.decls(), b"")?;
    let plan = flatten(alloc, &typed)?;
    let graph = plan.with(inputs)?;
    Ok(try_out(alloc, graph, 1024, SHORT)?)
}

// How many threads are chosen, of at most so many, where the program takes so many times as long, and its nodes a third more over
// rings.
fn threads_if_rings_cost_little(
    alloc: Global,
    text: &[u8],
    times: u64,
    most: usize,
) -> Result<usize, Refusal> {
    let mut tried = tried(alloc, text)?;
    let mut rings = Vec::with_capacity(alloc, tried.alone.len())?;
    for own in tried.alone.iter_mut() {
        *own = own.saturating_mul(times);
        rings.push(own.saturating_add(*own / 3))?;
    }
    for link in tried.links.iter_mut() {
        link.cost = link.cost.saturating_mul(times);
    }
    tried.rings = rings;
    if are_between(tried.rings.len(), &tried.links) {
        Ok(choose_threads(alloc, &tried, most)?.threads)
    } else {
        Ok(0)
    }
}

// Four sums of chains of multiplications.
const CHAINS: &[u8] =
    b"function power(x : int) : int = x * x * x * x * x * x * x * x * x * x * x % 47;
function powers(x : int) : int = power(power(power(x % 47)));
reduce_add({powers(x) : x in iota(8000)}) + reduce_add({powers(x + 1) : x in iota(8000)})
+ reduce_add({powers(x + 2) : x in iota(8000)}) + reduce_add({powers(x + 3) : x in iota(8000)})";

#[test]
fn the_threads_that_take_least_are_chosen(rt: HostRuntime) -> Result<(), Fail> {
    let alloc = rt.alloc();
    let by_most = (
        threads_for(alloc, LONG, LONG, 0, 1)?,
        threads_for(alloc, LONG, LONG, 0, 2)?,
        threads_for(alloc, LONG, LONG, 0, 3)?,
        threads_for(alloc, LONG, LONG, 0, 4)?,
        threads_for(alloc, LONG, LONG, 0, 16)?,
    );
    assert_eq!(rt; by_most, (1, 2, 2, 4, 4));
    // Here four threads have three crossings, of which one has two, and two threads have one.
    assert_eq!(rt; threads_for(alloc, LONG, LONG, LONG, 4)?, 2);
    Ok(())
}

#[test]
fn threads_are_chosen_where_they_pay_alone(rt: HostRuntime) -> Result<(), Fail> {
    let alloc = rt.alloc();
    let quarter = LONG / 4;
    let by_length = (
        threads_for(alloc, quarter, quarter, 0, 4)?,
        threads_for(alloc, quarter + 1, quarter, 0, 4)?,
    );
    assert_eq!(rt; by_length, (1, 4));
    // Two threads take two of these, of which one thread takes 25.
    let by_gain = (
        threads_for(alloc, LONG, LONG / 5 * 8, 0, 2)?,
        threads_for(alloc, LONG, LONG / 5 * 8 - 1, 0, 2)?,
        is_sooner(10, 8),
        is_sooner(10, 7),
    );
    assert_eq!(rt; by_gain, (1, 2, false, true));
    Ok(())
}

#[test]
fn what_is_too_great_to_be_counted_is_no_gain(rt: HostRuntime) -> Result<(), Fail> {
    assert_eq!(rt;
        threads_for(rt.alloc(), u64::MAX, u64::MAX, u64::MAX, 4)?,
        1
    );
    Ok(())
}

#[test]
fn a_program_is_run_until_it_ends_or_many_messages_went(rt: HostRuntime) -> Result<(), Fail> {
    let alloc = rt.alloc();
    let short = tried(alloc, b"reduce_add({x * x : x in iota(1000)})")?;
    let long = tried(alloc, b"reduce_add({x * x : x in iota(100000)})")?;
    assert_eq!(rt;
        (short.messages, short.alone.len(), short.links.len()),
        (8_017, 10, 11)
    );
    assert_eq!(rt;
        (long.messages >= SHORT, long.messages < 2 * SHORT),
        (true, true)
    );
    Ok(())
}

#[test]
fn chains_of_operators_pay_and_short_runs_do_not(rt: HostRuntime) -> Result<(), Fail> {
    let alloc = rt.alloc();
    let chosen = (
        threads_if_rings_cost_little(alloc, CHAINS, 1000, 4)?,
        threads_if_rings_cost_little(alloc, CHAINS, 1000, 2)?,
        threads_if_rings_cost_little(alloc, CHAINS, 1, 4)?,
    );
    assert_eq!(rt; chosen, (4, 2, 1));
    Ok(())
}
