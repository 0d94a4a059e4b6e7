// What holds of the network of a plan. The functions do nothing: their contracts are the theorems.

ghost use Rattle.flow_networks.specs.Graphs.{states_of, edges_of};
ghost use Rattle.flow_nodes.specs.plans.PlanFlows.{PlanIsFlow, FlowIsPlan};
ghost use Rattle.flow_nodes.specs.plans.Settings.{SourceIsSet};

use flow_base::Transducer;
use flow_networks::Graph;

/// The lawful flows of the network of a plan are the streams to which the plan runs: where it runs, they are such a flow,
/// and where there is such a flow, it runs to them.
///
/// A plan is a network of sequential processes without cycles, so it has one history (Kahn, 1974).
pub fn plan_is_its_flow<T: Transducer>(graph: &Graph<T>)
    ensures forth { PlanIsFlow T.behaviour (states_of graph.now) (edges_of graph.now) }
    ensures back { FlowIsPlan T.behaviour (states_of graph.now) (edges_of graph.now) }
{}

/// Where another source is put in place of one of the network of a plan, it is the network of the plan with the other
/// source, and the nodes of its steps are where they were.
pub fn source_is_set<T: Transducer>(graph: &Graph<T>)
    ensures { SourceIsSet T.behaviour (states_of graph.now) (edges_of graph.now) }
{}
