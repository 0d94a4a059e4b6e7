// What holds of every graph. The functions do nothing: their contracts are the theorems.
ghost use Rattle.flow_messages.specs.Ends.{View};
ghost use Rattle.flow_networks.specs.Alike.{RunsRestAlike};
ghost use Rattle.flow_networks.specs.Schedules.{SchedulesEndAlike};
ghost use Rattle.flow_networks.specs.Graphs.{states_of, edges_of};
ghost use Rattle.flow_networks.specs.Laws.{IsNetwork, IsWithinLimits, Opens, WritesOpen};
ghost use Rattle.flow_networks.specs.FlowTheorems.{RowsMakeAFlow, FlowHasRows, FlowIsCarried, FlowIsBegun, EndedHasFlow, FlowNeverStalls, FlowRunsToEnd, EndedIsLawful, EndedRunIsLawful, OneFlow};

use crate::graph::Graph;
use flow_base::Transducer;

/// A graph is a network of lawful processes (Kahn 1974), each port with its edge.
pub fn graph_is_a_network<T: Transducer>(graph: &Graph<T>)
    ensures network { IsNetwork T.behaviour (states_of graph.now) (edges_of graph.now) }
    ensures limits { IsWithinLimits T.behaviour (states_of graph.now) (edges_of graph.now) }
{}

/// Where its nodes are in their opening states and nothing was sent, a graph is where its network starts.
pub fn graph_opens<T: Transducer>(graph: &Graph<T>)
    ensures { (view : View) → Opens T.behaviour (states_of graph.now) (edges_of graph.now) view }
{}

/// In a sound configuration no node wants to write to an edge to which End was sent.
pub fn no_write_after_end<T: Transducer>(graph: &Graph<T>)
    ensures { (view : View) → WritesOpen T.behaviour (states_of graph.now)
        (edges_of graph.now) view }
{}

/// Where the nodes are in their opening states, bodies over which each node's row holds are a lawful flow. Where rows
/// speak of the bodies at ports alone (`RowsOnPorts`), each node's row holds over the bodies of a lawful flow.
pub fn rows_make_a_flow<T: Transducer>(graph: &Graph<T>)
    ensures flow { RowsMakeAFlow T.behaviour (states_of graph.now) (edges_of graph.now) }
    ensures rows { FlowHasRows T.behaviour (states_of graph.now) (edges_of graph.now) }
{}

/// A graph carries a lawful flow, on each edge the closed list of its body: these are the histories of its edges (Kahn
/// 1974). Each sound configuration has prefixes of them and no fault, and where all nodes ended the edges carried
/// just them.
pub fn flow_is_carried<T: Transducer>(graph: &Graph<T>)
    ensures carries { FlowIsCarried T.behaviour (states_of graph.now) (edges_of graph.now) }
    ensures begins { FlowIsBegun T.behaviour (states_of graph.now) (edges_of graph.now) }
    ensures ends { EndedHasFlow T.behaviour (states_of graph.now) (edges_of graph.now) }
{}

/// Where each edge may hold as many messages as its closed list of a lawful flow has, its end among them, a graph never
/// stalls: it rests only where all nodes have ended, and each maximal run from the start ends so.
pub fn flow_runs_to_end<T: Transducer>(graph: &Graph<T>)
    ensures rest { FlowNeverStalls T.behaviour (states_of graph.now) (edges_of graph.now) }
    ensures runs { FlowRunsToEnd T.behaviour (states_of graph.now) (edges_of graph.now) }
{}

/// Where all nodes of a graph have ended, its edges carried a lawful flow, whatever they may hold.
pub fn ended_is_lawful<T: Transducer>(graph: &Graph<T>)
    ensures complete { EndedIsLawful T.behaviour (states_of graph.now) (edges_of graph.now) }
    ensures runs { EndedRunIsLawful T.behaviour (states_of graph.now) (edges_of graph.now) }
{}

/// A graph has at most one lawful flow, as a network of sequential processes has one history (Kahn 1974).
pub fn one_flow<T: Transducer>(graph: &Graph<T>)
    ensures { OneFlow T.behaviour (states_of graph.now) (edges_of graph.now) }
{}

/// Where two maximal runs of one network end, at one capacity, the nodes have the same states and each edge had the same
/// traffic; and both came out alike. The network is determined, whatever the schedules (G. Kahn, "The semantics of a simple
/// language for parallel programming", 1974).
pub fn runs_rest_alike<T: Transducer>()
    ensures { RunsRestAlike T.behaviour }
{}

/// Whatever turns a schedule gave to nodes first, a maximal run from there ends where one from the start ends, and nowhere
/// else (Kahn 1974). So [`settle`](crate::settle) ends there by each schedule.
pub fn schedules_end_alike<T: Transducer>()
    ensures { SchedulesEndAlike T.behaviour }
{}
