// The plan of a program.

ghost use Rattle.std.specs.Prelude.{◌≡◌, ◌↔◌, [], IsTrue, IfOk};
ghost use Rattle.snesl_values.specs.Inputs.{declarations_of, dialect_of};
ghost use Rattle.snesl_types.specs.Typed.{typed_dialect, typed_inputs, AreReadFor};
ghost use Rattle.flow_nodes.specs.StreamNodes.{node_behaviour};
ghost use Rattle.flow_networks.specs.Graphs.{states_of, edges_of};
ghost use Rattle.flow_networks.specs.Networks.{AreOpened};
ghost use Rattle.flow_nodes.specs.plans.Layouts.{places as places_of};
ghost use Rattle.flow_assembly.specs.Openings.{OpensPlan};
ghost use Rattle.flow_assembly.specs.GraphsOfPlans.{HoldsOfGraph, IsGraphOfPlan};
ghost use Rattle.snesl_flatten.specs.Set.{HaveKindsOf, HasSourcesOf, HasInputsSet, MeansForTyped};
ghost use Rattle.snesl_flatten.specs.Sources.{AreFresh};
ghost use Rattle.snesl_flatten.specs.Unset.{unset_steps, HoldsNetwork, AreButSources};

use crate::inputs::sources_of_inputs;
use crate::texts::print_tells;
use flow_assembly::openings_perform;
use flow_networks::{Graph, ended_is_lawful, graph_is_a_network};
use flow_nodes::StreamNode;
use flow_nodes::inputs::TextSource;
use flow_nodes::plans::{plan_is_its_flow, source_is_set};
use snesl_translation::programs_are_planned;
use snesl_types::{TypedProgram, soundness};
use snesl_values::{Inputs, inputs_fit};
use std::alloc::{AllocError, Global};

/// The network of a typed program: one for all its inputs, whose sources wait for their lists. It keeps that it is this
/// network.
#[derive(Drop)]
pub struct Plan<'a> {
    pub(crate) alloc: Global,
    pub(crate) typed: &'a TypedProgram<'a>,
    pub(crate) graph: Graph<StreamNode>,
    // The number of the node of each step.
    pub(crate) places: Vec<usize>,
    pub(crate) ghost holds: { ∥ HoldsNetwork typed.now (states_of graph) (edges_of graph) places.items ∥₁ },
}

impl<'a> Plan<'a> {
    ghost use Rattle.snesl_flatten.specs.PlanViews.{plan_typed, plan_edges};
    ghost use Rattle.snesl_flatten.specs.PlanViews.{steps_for, AreButSourcesOf, MeansFor};

    /// The typed program of which it is the plan.
    pub fn typed(&self) -> &'a TypedProgram<'a>
        ensures { result.now ≡ plan_typed self.now }
    {
        self.typed
    }

    /// Whether the inputs were read for the program of the plan: in its dialect and for its declared inputs.
    pub fn fits(&self, inputs: &Inputs) -> bool
        ensures { IsTrue result ↔ AreReadFor (plan_typed self.now) inputs.now }
    {
        self.typed.fits(inputs)
    }

    /// The network of the plan, with sources that read these inputs, and else as it is: the same edges, and all other
    /// nodes in the states that they have. It is in its opening states.
    ///
    /// It has a lawful flow just where the program has a value for the inputs, and then the text that is printed is that
    /// of the value.
    ///
    /// # Errors
    ///
    /// `AllocError` where memory is refused.
    pub fn with(self, inputs: Inputs) -> Result<Graph<StreamNode>, AllocError>
        requires in_dialect { dialect_of inputs ≡ typed_dialect (plan_typed self) }
        requires fits { declarations_of inputs ≡ typed_inputs (plan_typed self) }
        ensures network { IfOk result (λ graph. IsGraphOfPlan (steps_for self.entry inputs) graph) }
        ensures opens { IfOk result
            (λ graph. OpensPlan (steps_for self.entry inputs) (states_of graph)) }
        ensures opened { IfOk result (λ graph. AreOpened node_behaviour (states_of graph)) }
        ensures edges { IfOk result (λ graph. edges_of graph ≡ plan_edges self.entry) }
        ensures others { IfOk result (λ graph. AreButSourcesOf self.entry (states_of graph)) }
        ensures means { IfOk result (HoldsOfGraph (MeansFor self.entry inputs)) }
    {
        let Plan {
            alloc,
            typed,
            mut graph,
            places,
        } = self;
        let sources = sources_of_inputs(alloc, typed.decls(), &inputs)?;
        openings_perform();
        set_sources(&mut graph, typed, &places, sources);
        has_meaning(&graph, typed, &inputs);
        Ok(graph)
    }
}

// Puts these sources in place of those of the inputs, in order. Those are the steps after the first one, the source of the
// control stream.
fn set_sources(
    graph: &mut Graph<StreamNode>,
    typed: &TypedProgram,
    places: &Vec<usize>,
    sources: Vec<TextSource>,
)
    requires sources { HoldsOfGraph (HasSourcesOf typed.now []) graph.old }
    requires places { places.now.items ≡ places_of (unset_steps typed.now) }
    requires fresh { AreFresh sources.items }
    requires kinds { HaveKindsOf (typed_inputs typed.now) sources.items }
    ensures sources { HoldsOfGraph (HasSourcesOf typed.now sources.items) graph.new }
    ensures edges { edges_of graph.new ≡ edges_of graph.old }
    ensures others { AreButSources typed.now (states_of graph.old) (states_of graph.new) }
{
    openings_perform();
    let mut step = 1;
    for source in sources {
        source_is_set(graph);
        let node = StreamNode::TextSource(source);
        graph.replace(places[step], node);
        step += 1;
    }
}

// A law and no code to run: what the network means once the sources hold the values of these inputs.
fn has_meaning(graph: &Graph<StreamNode>, typed: &TypedProgram, inputs: &Inputs)
    requires in_dialect { dialect_of inputs.now ≡ typed_dialect typed.now }
    requires fits { declarations_of inputs.now ≡ typed_inputs typed.now }
    requires sources { HoldsOfGraph (HasInputsSet typed.now inputs.now) graph.now }
    ensures { HoldsOfGraph (MeansForTyped typed.now inputs.now) graph.now }
{
    inputs_fit(inputs);
    soundness();
    programs_are_planned();
    plan_is_its_flow(graph);
    graph_is_a_network(graph);
    ended_is_lawful(graph);
    print_tells(graph);
}
