// One network of a program, for several inputs.

ghost use Rattle.std.specs.Prelude.{IfOk};
ghost use Rattle.flow_networks.specs.Graphs.{states_of};
ghost use Rattle.flow_networks.specs.Networks.{AreOpened};
ghost use Rattle.flow_nodes.specs.StreamNodes.{node_behaviour};

use flow_base::{Printing, Transducer};
use flow_drives::{Config, NoGate, Outcome, Rested, drive};
use flow_networks::Graph;
use flow_nodes::StreamNode;
use snesl_data::Refusal;
use snesl_flatten::flatten;
use snesl_syntax::{Program, parse};
use snesl_trials::in_one_thread;
use snesl_types::{TypedProgram, check};
use snesl_values::{Inputs, read_inputs};
use std::alloc::Global;
use std::process::Abort;
use std::sync::Arc;
use std::test::Fail;
use std::thread::Threads;

/// The network of the plan of a program, for the inputs of this text.
pub fn network_for(
    rt: &impl Abort,
    alloc: Global,
    typed: &TypedProgram<'_>,
    text: &[u8],
) -> Result<Graph<StreamNode>, Refusal>
    ensures { IfOk result (λ graph. AreOpened node_behaviour (states_of graph)) }
{
    let inputs = read_inputs(typed.dialect(), alloc, typed.decls(), text)?;
    network_with(rt, alloc, typed, inputs)
}

fn network_with(
    rt: &impl Abort,
    alloc: Global,
    typed: &TypedProgram<'_>,
    inputs: Inputs,
) -> Result<Graph<StreamNode>, Refusal>
    ensures { IfOk result (λ graph. AreOpened node_behaviour (states_of graph)) }
{
    let plan = flatten(alloc, typed)?;
    assert!(rt; plan.fits(&inputs));
    Ok(plan.with(inputs)?)
}

// Asserts that a network ended in this text.
fn assert_text<T: Transducer + Printing + Drop>(rt: &impl Abort, rested: Rested<T>, text: &[u8]) {
    assert_eq!(rt; (rested.outcome(), rested.text()), (Outcome::Value, text));
}

// Asserts that the network of a program ends in this text, for the inputs of this one.
fn assert_prints<R: Abort + Threads>(
    rt: &R,
    alloc: Global,
    typed: &TypedProgram<'_>,
    config: &Config,
    (input, text): (&[u8], &[u8]),
) -> Result<(), Fail> {
    let graph = network_for(rt, alloc, typed, input)?;
    let gate = Arc::new(alloc, NoGate)?;
    assert_text(rt, drive(rt, alloc, graph, config, gate)?, text);
    Ok(())
}

// Asserts what the network of a program prints for one input and for another.
fn assert_sums<R: Abort + Threads>(
    rt: &R,
    alloc: Global,
    program: &Program,
    config: &Config,
) -> Result<(), Fail> {
    let typed = check(alloc, program)?;
    let rows: [(&[u8], &[u8]); 2] = [(b"n = 5", b"10"), (b"n = 7", b"21")];
    for row in rows {
        assert_prints(rt, alloc, &typed, config, row)?;
    }
    Ok(())
}

// Step by step what a run does.
#[test]
fn one_program_and_two_inputs(rt: HostRuntime) -> Result<(), Fail> {
    let config = in_one_thread(rt.alloc(), 1, 1)?;
    let program = parse(rt.alloc(), b"input n : int; reduce_add(iota(n))")?;
    assert_sums(&rt, rt.alloc(), &program, &config)
}
