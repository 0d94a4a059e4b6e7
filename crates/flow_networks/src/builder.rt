// How graphs are built.
ghost use Rattle.std.specs.Prelude.{◌≡◌, ◌++◌, ◌∷◌, [], ◌↔◌, ◌⊎◌, IsTrue, IfOk, OnErr, IfErr, length};
ghost use Rattle.snesl_data.specs.declared.refusal.Refusal.TheVariants.{TooBig, NoMemory};
ghost use Rattle.flow_networks.specs.Limits.{most_nodes, most_edges};
ghost use Rattle.flow_networks.specs.Networks.{IsJoined};
ghost use Rattle.flow_networks.specs.Graphs.{states_of, edges_of, states_so_far, edges_so_far, AddsNode, AcceptsEdge};
ghost use Rattle.flow_networks.specs.Standing.{StayOpened};

use crate::edge::{Edge, MAX_EDGES, MAX_NODES};
use crate::graph::{Graph, GraphBuilder};
use crate::placed::Placed;
use crate::wiring::Wiring;
use flow_base::Transducer;
use snesl_data::Refusal;
use std::alloc::Global;

impl<T: Transducer + Drop> GraphBuilder<T> {
    /// No nodes and no edges.
    pub fn new(alloc: Global) -> GraphBuilder<T>
        ensures nodes { states_so_far result ≡ [] }
        ensures edges { edges_so_far result ≡ [] }
    {
        GraphBuilder {
            nodes: Vec::new(alloc),
            wiring: Wiring::new(alloc),
            alloc,
        }
    }

    /// Adds a node, in its opening state, after all others. Its number is how many there were.
    ///
    /// It is refused as `TooBig` exactly where there are `MAX_NODES` already, and else only as
    /// `NoMemory`. Then the builder stays as it was.
    pub fn node(&mut self, node: T) -> Result<usize, Refusal>
        requires { T.behaviour.opening (T.state node) ≡ T.state node }
        ensures number { IfOk result (λ number. number ≡ length (states_so_far self.old)) }
        ensures nodes { IfOk result (λ _. AddsNode self.old (T.state node) self.new) }
        ensures edges { edges_so_far self.new ≡ edges_so_far self.old }
        ensures opened { StayOpened T.behaviour (states_so_far self.old) (states_so_far self.new) }
        ensures err { OnErr result (states_so_far self.new ≡ states_so_far self.old) }
        ensures full { (result ≡ Err TooBig) ↔ (length (states_so_far self.old) ≡ most_nodes) }
        ensures memory { IfErr result (λ refusal. (refusal ≡ TooBig) ⊎ (refusal ≡ NoMemory)) }
    {
        let number = self.nodes.len();
        if number >= MAX_NODES {
            return Err(Refusal::TooBig);
        }
        self.nodes.reserve(1)?;
        let (inputs, outputs) = (node.inputs(), node.outputs());
        let placed = Placed::new(self.alloc, number, node)?;
        self.wiring.add_node(self.alloc, inputs, outputs)?;
        match self.nodes.push(placed) {
            Ok(()) => Ok(number),
            Err(_) => unreachable!(),
        }
    }

    /// How many nodes there are so far.
    pub fn nodes(&self) -> usize
        ensures { result ≡ length (states_so_far self.now) }
    {
        self.nodes.len()
    }

    /// How many edges there are so far.
    pub fn edges(&self) -> usize
        ensures { result ≡ length (edges_so_far self.now) }
    {
        self.wiring.edges.len()
    }

    /// Whether the edge may be added.
    pub fn may_join(&self, edge: Edge) -> bool
        ensures { IsTrue result ↔ AcceptsEdge self.now edge }
    {
        if edge.writer >= edge.reader || edge.reader >= self.nodes.len() {
            return false;
        }
        if !self.wiring.is_free_output(edge.writer, edge.writer_port)
            || !self.wiring.is_free_input(edge.reader, edge.reader_port)
        {
            return false;
        }
        let from = &self.nodes[edge.writer].node;
        let to = &self.nodes[edge.reader].node;
        from.kind_out(edge.writer_port) == to.kind_in(edge.reader_port)
    }

    /// Adds an edge after all others. Its number is how many there were.
    ///
    /// It is refused as `TooBig` exactly where there are `MAX_EDGES` already, and else only as
    /// `NoMemory`. Then the builder stays as it was.
    pub fn edge(&mut self, edge: Edge) -> Result<usize, Refusal>
        requires { AcceptsEdge self.old edge }
        ensures number { IfOk result (λ number. number ≡ length (edges_so_far self.old)) }
        ensures edges { IfOk result (λ _. edges_so_far self.new ≡
            edges_so_far self.old ++ edge ∷ []) }
        ensures nodes { states_so_far self.new ≡ states_so_far self.old }
        ensures err { OnErr result (edges_so_far self.new ≡ edges_so_far self.old) }
        ensures full { (result ≡ Err TooBig) ↔ (length (edges_so_far self.old) ≡ most_edges) }
        ensures memory { IfErr result (λ refusal. (refusal ≡ TooBig) ⊎ (refusal ≡ NoMemory)) }
    {
        let number = self.wiring.edges.len();
        if number >= MAX_EDGES {
            return Err(Refusal::TooBig);
        }
        self.wiring.add_edge(edge)?;
        self.nodes[edge.writer].set_output(edge.writer_port, number);
        self.nodes[edge.reader].set_input(edge.reader_port, number);
        Ok(number)
    }

    /// Whether each port has its edge.
    pub fn complete(&self) -> bool
        ensures { IsTrue result ↔ IsJoined T.behaviour (states_so_far self.now)
            (edges_so_far self.now) }
    {
        self.wiring.is_complete()
    }

    /// The graph of these nodes and edges.
    pub fn build(self) -> Graph<T>
        requires { IsJoined T.behaviour (states_so_far self) (edges_so_far self) }
        ensures nodes { states_of result ≡ states_so_far self }
        ensures edges { edges_of result ≡ edges_so_far self }
    {
        let wiring = self.wiring;
        Graph {
            nodes: self.nodes,
            edges: wiring.edges,
        }
    }
}
