// The graph of a plan.

ghost use Rattle.std.specs.Prelude.{◌≡◌, ◌⊎◌, [], length, IfOk, IfErr};
ghost use Rattle.snesl_data.specs.declared.refusal.Refusal.TheVariants.{TooBig, NoMemory};
ghost use Rattle.flow_networks.specs.Graphs.{states_of, edges_of};
ghost use Rattle.flow_networks.specs.Networks.{AreOpened};
ghost use Rattle.flow_nodes.specs.StreamNodes.{node_behaviour};
ghost use Rattle.flow_nodes.specs.plans.Layouts.{places};
ghost use Rattle.flow_nodes.specs.plans.Ports.{AreWired};
ghost use Rattle.flow_nodes.specs.plans.Views.{steps_of};
ghost use Rattle.flow_assembly.specs.Openings.{OpensPlan};
ghost use Rattle.flow_assembly.specs.GraphsOfPlans.{IsGraphOfPlan, edges_of_plan};
ghost use Rattle.flow_assembly.specs.Partly.{HasSteps};
ghost use Rattle.flow_assembly.specs.Ready.{plan_of, IsSmallEnough, IsTooBig};

use crate::counted_steps::CountedSteps;
use crate::laws::openings_perform;
use crate::network::Network;
use flow_networks::Graph;
use flow_nodes::StreamNode;
use flow_nodes::plans::Step;
use snesl_data::{Dialect, Refusal};
use std::alloc::Global;

/// The network of a plan.
#[derive(Drop)]
pub struct Assembled {
    pub graph: Graph<StreamNode>,
    /// The number of the node of each step.
    pub places: Vec<usize>,
}

/// The network of these steps, in a program of the dialect. After a stream that no step reads stands a Sink, and after
/// one that is read several times a Fork, whose outputs go to the ports that read the stream, in the order of steps and ports.
/// There is an edge for each input port, numbered in the order of nodes and ports. The inputs are empty.
///
/// # Errors
///
/// `TooBig` only where the network has more nodes or more edges than a graph may have, and else `NoMemory`.
pub fn assemble(alloc: Global, dialect: Dialect, steps: Vec<Step>) -> Result<Assembled, Refusal>
    requires wired { AreWired [] (steps_of dialect steps.items) }
    ensures network { IfOk result (λ a. IsGraphOfPlan (steps_of dialect steps.items) a.graph) }
    ensures edges { IfOk result (λ a. edges_of a.graph ≡ edges_of_plan (steps_of dialect
        steps.items)) }
    ensures opens { IfOk result (λ a. OpensPlan (steps_of dialect steps.items) (states_of a.graph)) }
    ensures opened { IfOk result (λ a. AreOpened node_behaviour (states_of a.graph)) }
    ensures places { IfOk result (λ a. a.places.items ≡ places (steps_of dialect steps.items)) }
    ensures few { IfOk result (λ _. IsSmallEnough (steps_of dialect steps.items)) }
    ensures big { result ≡ Err TooBig → IsTooBig (steps_of dialect steps.items) }
    ensures memory { IfErr result (λ refusal. (refusal ≡ TooBig) ⊎ (refusal ≡ NoMemory)) }
{
    let plan = CountedSteps::new(alloc, dialect, steps)?;
    let mut network = Network::new(alloc);
    for number in 0..plan.steps.len() {
        network.add_step(&plan, number)?;
    }
    Ok(finished(network, &plan))
}

// The network of a plan that is built whole.
fn finished(network: Network, plan: &CountedSteps) -> Assembled
    requires wired { AreWired [] (plan_of plan.now) }
    requires built { HasSteps plan.now (length plan.now.steps.items) network }
    ensures network { IsGraphOfPlan (plan_of plan.now) result.graph }
    ensures edges { edges_of result.graph ≡ edges_of_plan (plan_of plan.now) }
    ensures opens { OpensPlan (plan_of plan.now) (states_of result.graph) }
    ensures opened { AreOpened node_behaviour (states_of result.graph) }
    ensures places { result.places.items ≡ places (plan_of plan.now) }
    ensures few { IsSmallEnough (plan_of plan.now) }
{
    openings_perform();
    Assembled {
        graph: network.builder.build(),
        places: network.places,
    }
}
