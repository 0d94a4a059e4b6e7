// Each caller of the public crates runs.
ghost use Rattle.flow_graph.specs.Graphs.{states_of};
ghost use Rattle.flow_graph.specs.Networks.{AreOpened};
ghost use Rattle.flow_graph.specs.StreamNodes.{node_behaviour};

use crate::declared_inputs::inputs_of;
use callers::drive::{SomeStarts, outcome_of_some_starts, outcome_on_two_threads};
use callers::edges::messages;
use callers::flatten::network_of;
use callers::graph::carried;
use callers::plans::networks_of;
use callers::run::line_of;
use callers::scalar::negated;
use callers::segment::printed;
use callers::strangers;
use callers::strangers::drive::{lent, outcome_of, rested, shares, shares_after_epochs};
use callers::syntax::is_program;
use callers::types::value_of;
use callers::values::value_text;
use flow_drive::{AlwaysStart, Config, Drive, DriveError, Outcome};
use flow_edges::{Item, Kind, Msg, Table};
use flow_graph::{Graph, StreamNode};
use flow_scalar::workers::Sink;
use flow_scalar::{Node, Source, Stream};
use snesl_syntax::parse;
use snesl_trials::in_threads;
use snesl_types::{TypedProgram, check};
use snesl_values::{FaultKind, Refusal, Ty, text_of};
use std::alloc::Global;
use std::test::Fail;
use std::thread::Threads;

// A program of five nodes and five edges.
const SUM: &[u8] = b"reduce_add(iota(5))";

// The same of as many numbers as an input text says.
const SUM_TO: &[u8] = b"input n : int; reduce_add(iota(n))";

#[test]
fn an_input_text_gives_a_value_to_its_name(rt: HostRuntime) -> Result<(), Fail> {
    let alloc = rt.alloc();
    let mut decls = Vec::new(alloc);
    decls.push((Vec::from_slice(alloc, b"n")?, Ty::Int))?;
    let text = value_text(alloc, &decls, b"n = -07", b"n")?.ok_or("none")?;
    assert_eq!(rt; text.as_slice(), b"-7".as_slice());
    assert!(rt; value_text(alloc, &decls, b"n = 1", b"m")?.is_none());
    assert!(rt; value_text(alloc, &decls, b"n = x", b"n").is_err());
    Ok(())
}

#[test]
fn a_text_is_a_program_or_none(rt: HostRuntime) -> Result<(), Fail> {
    assert!(rt; is_program(rt.alloc(), SUM)?);
    assert!(rt; !is_program(rt.alloc(), b"reduce_add(")?);
    Ok(())
}

#[test]
fn a_program_has_a_value_or_a_fault(rt: HostRuntime) -> Result<(), Fail> {
    let alloc = rt.alloc();
    let sum = value_of(alloc, SUM, b"")?.ok().ok_or("a fault")?;
    assert_eq!(rt; text_of(alloc, &sum)?.as_slice(), b"10".as_slice());
    let fault = value_of(alloc, b"1 / 0", b"")?.err().ok_or("a value")?;
    assert_eq!(rt; (fault.kind, fault.at), (FaultKind::Divide, 2));
    Ok(())
}

#[test]
fn messages_come_in_order(rt: HostRuntime) -> Result<(), Fail> {
    let (one, two, end) = messages(rt.alloc(), Item::Bool(true), Item::Int(5))?;
    assert!(rt; matches!(&one, Msg::Item(Item::Bool(true))));
    assert!(rt; matches!(&two, Msg::Item(Item::Int(5))));
    assert!(rt; end.is_end());
    Ok(())
}

#[test]
fn nodes_read_and_write(rt: HostRuntime) -> Result<(), Fail> {
    assert!(rt; matches!(&negated(false), Msg::Item(Item::Bool(true))));
    assert_eq!(rt; printed(rt.alloc(), -12)?.as_slice(), b"-12".as_slice());
    Ok(())
}

#[test]
fn a_program_has_a_network(rt: HostRuntime) -> Result<(), Fail> {
    let graph = network_of(rt.alloc(), SUM, b"")?;
    assert_eq!(rt; (graph.nodes(), graph.edges()), (5, 5));
    Ok(())
}

// One network for all inputs, whose program is typed once.
#[test]
fn a_program_has_a_network_for_each_input_text(rt: HostRuntime) -> Result<(), Fail> {
    let alloc = rt.alloc();
    let mut inputs = Vec::new(alloc);
    inputs.push(Vec::from_slice(alloc, b"n = 5")?)?;
    inputs.push(Vec::from_slice(alloc, b"n = -1")?)?;
    let graphs = networks_of(alloc, SUM_TO, &inputs)?;
    assert_eq!(rt; graphs.len(), 2);
    let other = network_of(alloc, SUM_TO, b"n = 0")?;
    for graph in &graphs {
        assert_eq!(rt;
            (graph.nodes(), graph.edges()),
            (other.nodes(), other.edges())
        );
    }
    inputs.push(Vec::from_slice(alloc, b"n = x")?)?;
    assert!(rt;
        matches!(
            networks_of(alloc, SUM_TO, &inputs),
            Err(Refusal::BadInput(4))
        )
    );
    Ok(())
}

#[test]
fn a_program_runs_to_a_line(rt: HostRuntime) -> Result<(), Fail> {
    let line = line_of(&rt, rt.alloc(), SUM, b"")?.ok_or("none")?;
    assert_eq!(rt; line.as_slice(), b"10\n".as_slice());
    assert!(rt; line_of(&rt, rt.alloc(), b"1 / 0", b"")?.is_none());
    Ok(())
}

// What is carried from three units to a reader of items of this kind.
fn carried_units(alloc: Global, kind: Kind) -> Result<Option<(u64, u64)>, Refusal> {
    let units = StreamNode::Source(Source::new(Stream::Units(3)));
    let reader = StreamNode::Sink(Node::new(Sink::new(kind), 0));
    carried(alloc, units, reader, 1)
}

// Three units and the end.
#[test]
fn all_is_carried_to_a_reader_of_its_kind(rt: HostRuntime) -> Result<(), Fail> {
    assert_eq!(rt; carried_units(rt.alloc(), Kind::Unit)?, Some((4, 4)));
    assert_eq!(rt; carried_units(rt.alloc(), Kind::Int)?, None);
    Ok(())
}

// Three units and the end, by a schedule, and by a first step of each node.
#[test]
fn strangers_step_and_settle_a_graph(rt: HostRuntime) -> Result<(), Fail> {
    let settled = strangers::graph::settled(rt.alloc())?.ok_or("no graph")?;
    assert_eq!(rt; strangers::graph::counts_of(&settled, 0), Some((4, 4)));
    let mut graph = strangers::graph::units(rt.alloc())?.ok_or("no graph")?;
    let mut ends = strangers::graph::table_for(rt.alloc(), &graph)?;
    assert_eq!(rt; strangers::graph::steps(&mut graph, &mut ends)?, 2);
    Ok(())
}

// Three units and the end, in blocks: four messages are drawn, of which the sink reads the units first.
#[test]
fn strangers_step_in_blocks(rt: HostRuntime) -> Result<(), Fail> {
    let mut graph = strangers::graph::units(rt.alloc())?.ok_or("no graph")?;
    let mut ends = strangers::graph::table_for(rt.alloc(), &graph)?;
    let made = [
        strangers::graph::block_steps(&mut graph, &mut ends, 64),
        strangers::graph::block_steps(&mut graph, &mut ends, 64),
    ];
    let mut other = Table::new(rt.alloc(), &[Kind::Int], 1)?;
    let put = strangers::edges::put_in_a_block(&mut other, 0, 5);
    assert_eq!(rt; (made, put), ([7, 1], true));
    Ok(())
}

// How many shares of a program without inputs come back to a stranger from two epochs.
fn back_from_epochs(
    rt: &impl Threads,
    alloc: Global,
    typed: &TypedProgram,
    config: &Config,
) -> Result<Option<usize>, Refusal> {
    let inputs = inputs_of(alloc, SUM, b"")?;
    let mut start = AlwaysStart::new();
    match shares_after_epochs(rt, alloc, typed, inputs, config, &mut start) {
        Ok(Some(shares)) => Ok(Some(shares.len())),
        Ok(None) | Err(_) => Ok(None),
    }
}

// Whether the first share has room on the first edge, while a stranger has its ends.
fn room_while_lent(
    alloc: Global,
    typed: &TypedProgram,
    config: &Config,
) -> Result<Option<bool>, Refusal> {
    let inputs = inputs_of(alloc, SUM, b"")?;
    match shares(alloc, typed, inputs, config) {
        Ok(Some(mut shares)) if !shares.is_empty() => Ok(Some(lent(shares.swap_remove(0), 0).1)),
        Ok(_) | Err(_) => Ok(None),
    }
}

// How a stranger's network comes out.
fn outcome_at_rest(
    rt: &impl Threads,
    alloc: Global,
    typed: &TypedProgram,
    config: &Config,
) -> Result<Option<Outcome>, Refusal> {
    let inputs = inputs_of(alloc, SUM, b"")?;
    match rested(rt, alloc, typed, inputs, config) {
        Ok(Some(rested)) => Ok(Some(outcome_of(&rested))),
        Ok(None) | Err(_) => Ok(None),
    }
}

#[test]
fn strangers_drive_a_network_by_its_parts(rt: HostRuntime) -> Result<(), Fail> {
    let program = parse(rt.alloc(), SUM)?;
    let typed = check(rt.alloc(), &program)?;
    let config = in_threads(rt.alloc(), Drive::Rings, 256, 2, &[0, 1])?;
    let told = (
        back_from_epochs(&rt, rt.alloc(), &typed, &config)?,
        room_while_lent(rt.alloc(), &typed, &config)?,
        outcome_at_rest(&rt, rt.alloc(), &typed, &config)?,
    );
    assert_eq!(rt; told, (Some(2), Some(true), Some(Outcome::Value)));
    Ok(())
}

// How two threads leave the network of a program.
fn driven(rt: &impl Threads, alloc: Global, graph: Graph) -> Result<Outcome, DriveError>
    requires { AreOpened node_behaviour (states_of graph) }
{
    outcome_on_two_threads(rt, alloc, graph)
}

#[test]
fn two_threads_drive_a_network(rt: HostRuntime) -> Result<(), Fail> {
    let graph = network_of(rt.alloc(), SUM, b"")?;
    assert_eq!(rt; driven(&rt, rt.alloc(), graph)?, Outcome::Value);
    Ok(())
}

// How two threads leave the network of a program, where only so many starts are allowed.
fn driven_by_some(
    rt: &impl Threads,
    alloc: Global,
    graph: Graph,
    left: usize,
) -> Result<Outcome, DriveError>
    requires { AreOpened node_behaviour (states_of graph) }
{
    let config = in_threads(alloc, Drive::Rings, 256, 2, &[0, 1])?;
    outcome_of_some_starts(rt, alloc, graph, &config, &mut SomeStarts::new(left))
}

#[test]
fn a_caller_refuses_starts(rt: HostRuntime) -> Result<(), Fail> {
    let graph = network_of(rt.alloc(), SUM, b"")?;
    let all = driven_by_some(&rt, rt.alloc(), graph, usize::MAX)?;
    assert_eq!(rt; all, Outcome::Value);
    let graph = network_of(rt.alloc(), SUM, b"")?;
    let one = driven_by_some(&rt, rt.alloc(), graph, 1);
    assert_eq!(rt; one, Err(DriveError::NoThread));
    Ok(())
}
