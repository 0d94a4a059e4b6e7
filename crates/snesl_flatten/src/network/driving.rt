// From the text of a program and its input to the network at rest.

ghost use Rattle.std.specs.Prelude.{◌≡◌, ◌⊎◌, Err, IfErr, IfOk};
ghost use Rattle.snesl_data.specs.declared.refusal.Refusal.TheVariants.{BadConfig, NoThread};
ghost use Rattle.flow_nodes.specs.StreamNodes.{node_behaviour};
ghost use Rattle.flow_networks.specs.Graphs.{states_of, edges_of};
ghost use Rattle.flow_networks.specs.Networks.{AreOpened};
ghost use Rattle.flow_drives.specs.Configs.{IsLawful};
ghost use Rattle.flow_drives.specs.Starts.{DriveAsks};
ghost use Rattle.flow_assembly.specs.GraphsOfPlans.{HoldsOfGraph};
ghost use Rattle.snesl_flatten.specs.network.Driven.{CameToRest, WasRefused};
ghost use Rattle.snesl_flatten.specs.network.Meant.{IsMeantFor, HasNoNetwork, IsAsMeant, IsRefusedAsMeant};
ghost use Rattle.snesl_flatten.specs.network.NodesAtRest.{HasRested};
ghost use Rattle.snesl_flatten.specs.network.WhichDrive.{WasDrivenBy};

use crate::flatten;
use flow_drives::{
    AlwaysStart, Config, DriveError, Gate, Rested, Start, drive_with, rested_is_sound,
};
use flow_networks::{Graph, flow_is_carried, flow_runs_to_end, graph_is_a_network};
use flow_nodes::StreamNode;
use snesl_data::Refusal;
use snesl_meaning::one_meaning;
use snesl_syntax::parse;
use snesl_types::check;
use snesl_values::read_inputs;
use std::alloc::Global;
use std::sync::Arc;
use std::thread::Threads;

/// Drives the network of a program with its input text until no node can step.
///
/// What rests is the plan's network with the inputs. It is sound, no node can step, and no edge holds more than its
/// capacity. `Serial` and `Rounds` have made a maximal run of it, and `Rings` alone has left it over rings. Where all its nodes
/// have ended, its text is that of the program's value; where a fault is named, the program ends in a fault, perhaps in
/// another one; it never stalls where the program has a value and each edge may hold all that goes over it.
///
/// # Errors
///
/// In this order: `BadConfig` exactly where the configuration is not lawful; the refusals of the program text, of its
/// typing and of the input text; `TooBig` where the network is greater than a graph may be; `NoThread` only where the
/// drive starts threads. Each comes only where none before it does. `NoMemory` may come at any time after the first
/// where memory is refused.
pub fn drive_program<R: Threads, G: Gate + Send + Sync + Drop + 'static>(
    rt: &R,
    alloc: Global,
    program: &[u8],
    input: &[u8],
    config: &Config,
    gate: Arc<G, Global>,
) -> Result<Rested<StreamNode>, Refusal>
    ensures rests { IfOk result (HasRested (CameToRest program.now input.now config.now)) }
    ensures drive { IfOk result (λ rested. WasDrivenBy config.now rested) }
    ensures refused { IfErr result (WasRefused program.now input.now config.now) }
    ensures config { (IsLawful config.now → ⊥) → result ≡ Err BadConfig }
{
    drive_program_with(
        rt,
        alloc,
        program,
        input,
        config,
        gate,
        &mut AlwaysStart::new(),
    )
}

/// The same, where `start` is asked before each thread is started, in each round and each epoch for each thread once, in
/// order. Where it refuses one, that is answered as `NoThread`.
pub fn drive_program_with<R: Threads, G: Gate + Send + Sync + Drop + 'static, S: Start>(
    rt: &R,
    alloc: Global,
    program: &[u8],
    input: &[u8],
    config: &Config,
    gate: Arc<G, Global>,
    start: &mut S,
) -> Result<Rested<StreamNode>, Refusal>
    ensures rests { IfOk result (HasRested (CameToRest program.now input.now config.now)) }
    ensures drive { IfOk result (λ rested. WasDrivenBy config.now rested) }
    ensures refused { IfErr result (WasRefused program.now input.now config.now) }
    ensures config { (IsLawful config.now → ⊥) → result ≡ Err BadConfig }
    ensures asked { IfOk result (λ rested. DriveAsks S.asked start.old start.new config.now rested) }
    ensures start { S.refused start.new → S.refused start.old ⊎ (result ≡ Err NoThread) }
{
    if !config.lawful() {
        return Err(Refusal::BadConfig);
    }
    let graph = network(alloc, program, input)?;
    driven(rt, alloc, graph, config, gate, start)
}

// The network of a program with its input text, before any step.
fn network(alloc: Global, program: &[u8], input: &[u8]) -> Result<Graph<StreamNode>, Refusal>
    ensures meant { IfOk result (HoldsOfGraph (IsMeantFor program.now input.now)) }
    ensures refused { IfErr result (HasNoNetwork program.now input.now) }
{
    let program = parse(alloc, program)?;
    let typed = check(alloc, &program)?;
    let inputs = read_inputs(typed.dialect(), alloc, typed.decls(), input)?;
    let plan = flatten(alloc, &typed)?;
    let graph = plan.with(inputs)?;
    graph_is_a_network(&graph);
    Ok(graph)
}

// Drives a network until no node can step, as each program says of which it is the network.
fn driven<R: Threads, G: Gate + Send + Sync + Drop + 'static, S: Start>(
    rt: &R,
    alloc: Global,
    graph: Graph<StreamNode>,
    config: &Config,
    gate: Arc<G, Global>,
    start: &mut S,
) -> Result<Rested<StreamNode>, Refusal>
    requires lawful { IsLawful config.now }
    requires opened { AreOpened node_behaviour (states_of graph) }
    ensures rests { IfOk result (HasRested (IsAsMeant (states_of graph) (edges_of graph)
        config.now)) }
    ensures drive { IfOk result (λ rested. WasDrivenBy config.now rested) }
    ensures refused { IfErr result (IsRefusedAsMeant (states_of graph) (edges_of graph) config.now) }
    ensures asked { IfOk result (λ rested. DriveAsks S.asked start.old start.new config.now rested) }
    ensures start { S.refused start.new → S.refused start.old ⊎ (result ≡ Err NoThread) }
{
    flow_is_carried(&graph);
    flow_runs_to_end(&graph);
    one_meaning();
    match drive_with(rt, alloc, graph, config, gate, start) {
        Ok(rested) => {
            rested_is_sound(&rested);
            Ok(rested)
        }
        Err(DriveError::BadConfig) => Err(Refusal::BadConfig),
        Err(DriveError::NoMemory) => Err(Refusal::NoMemory),
        Err(DriveError::NoThread) => Err(Refusal::NoThread),
        Err(DriveError::Short) => Err(Refusal::Short),
    }
}
