// How nodes are joined.
ghost use Rattle.std.specs.Prelude.{◌≡◌, ◌<◌, ◌++◌, ◌∷◌, [], ◌↔◌, IsTrue, IsSome, IfOk, OnOk, OnErr, Some, None, length, replicate, slice_set};
ghost use Rattle.std.specs.List.{All};
ghost use Rattle.flow_networks.specs.Tables.{ins, outs, count_at, IsWiring, HasAllEdges, IsFull};
ghost use Rattle.flow_networks.specs.Wirings.{IsFreeAt, input_counts, output_counts, HasNoEdgeTo, HasNoEdgeFrom, IsFreeInput, IsFreeOutput, AddsInputs, AddsOutputs};

use crate::edge::Edge;
use std::alloc::{AllocError, Global};

/// The edge at each port of one node, where there is one.
#[derive(Drop)]
pub struct Ports {
    pub inputs: Vec<Option<usize>>,
    pub outputs: Vec<Option<usize>>,
}

/// The edges, and for each node the edges at its ports, so that a step finds its edge without a search.
#[derive(Drop)]
pub struct Wiring {
    pub ports: Vec<Ports>,
    pub edges: Vec<Edge>,
    ghost wired: { IsWiring ports.items edges.items },
}

impl Ports {
    fn set_input(&mut self, port: usize, edge: usize)
        requires { port < length self.old.inputs.items }
        ensures inputs { self.new.inputs.items ≡ slice_set self.old.inputs.items port (Some edge) }
        ensures outputs { self.new.outputs.items ≡ self.old.outputs.items }
    {
        self.inputs[port] = Some(edge);
    }

    fn set_output(&mut self, port: usize, edge: usize)
        requires { port < length self.old.outputs.items }
        ensures outputs { self.new.outputs.items ≡
            slice_set self.old.outputs.items port (Some edge) }
        ensures inputs { self.new.inputs.items ≡ self.old.inputs.items }
    {
        self.outputs[port] = Some(edge);
    }

    fn is_complete(&self) -> bool
        ensures { IsTrue result ↔ HasAllEdges self.now }
    {
        all_taken(&self.inputs) && all_taken(&self.outputs)
    }
}

impl Wiring {
    /// No nodes and no edges.
    pub fn new(alloc: Global) -> Wiring
        ensures nodes { result.ports.items ≡ [] }
        ensures edges { result.edges.items ≡ [] }
    {
        Wiring {
            ports: Vec::new(alloc),
            edges: Vec::new(alloc),
        }
    }

    /// Adds a node with so many ports, which have no edges.
    pub fn add_node(
        &mut self,
        alloc: Global,
        inputs: usize,
        outputs: usize,
    ) -> Result<(), AllocError>
        ensures inputs { OnOk result (AddsInputs self.old.ports.items inputs self.new.ports.items) }
        ensures outputs { OnOk result (AddsOutputs self.old.ports.items outputs
            self.new.ports.items) }
        ensures edges { self.new.edges.items ≡ self.old.edges.items }
        ensures err { OnErr result (self.new.ports.items ≡ self.old.ports.items) }
    {
        let inputs = free(alloc, inputs)?;
        let outputs = free(alloc, outputs)?;
        self.ports.push(Ports { inputs, outputs })?;
        Ok(())
    }

    /// Adds an edge between ports that are free.
    pub fn add_edge(&mut self, edge: Edge) -> Result<(), AllocError>
        requires forward { edge.writer < edge.reader }
        requires reader { edge.reader < length self.old.ports.items }
        requires output { edge.writer_port < count_at (outs self.old.ports.items) edge.writer }
        requires input { edge.reader_port < count_at (ins self.old.ports.items) edge.reader }
        requires free_output { HasNoEdgeFrom self.old.edges.items edge.writer edge.writer_port }
        requires free_input { HasNoEdgeTo self.old.edges.items edge.reader edge.reader_port }
        ensures inputs { input_counts self.new.ports.items ≡ input_counts self.old.ports.items }
        ensures outputs { output_counts self.new.ports.items ≡ output_counts self.old.ports.items }
        ensures ok { OnOk result (self.new.edges.items ≡ self.old.edges.items ++ edge ∷ []) }
        ensures err { OnErr result (self.new.edges.items ≡ self.old.edges.items) }
    {
        let number = self.edges.len();
        self.edges.push(edge)?;
        self.ports[edge.writer].set_output(edge.writer_port, number);
        self.ports[edge.reader].set_input(edge.reader_port, number);
        Ok(())
    }

    /// Whether the node has this input port, with no edge.
    pub fn is_free_input(&self, node: usize, port: usize) -> bool
        requires { node < length self.now.ports.items }
        ensures { IsTrue result ↔ IsFreeInput self.now.ports.items self.now.edges.items node port }
    {
        is_free(&self.ports[node].inputs, port)
    }

    /// Whether the node has this output port, with no edge.
    pub fn is_free_output(&self, node: usize, port: usize) -> bool
        requires { node < length self.now.ports.items }
        ensures { IsTrue result ↔ IsFreeOutput self.now.ports.items self.now.edges.items node port }
    {
        is_free(&self.ports[node].outputs, port)
    }

    /// Whether each port has its edge.
    pub fn is_complete(&self) -> bool
        ensures { IsTrue result ↔ IsFull self.now.ports.items self.now.edges.items }
    {
        all_complete(&self.ports)
    }
}

/// Whether each port of each of these nodes has its edge.
fn all_complete(nodes: &[Ports]) -> bool
    ensures { IsTrue result ↔ All HasAllEdges nodes.now }
{
    for node in nodes {
        if !node.is_complete() {
            return false;
        }
    }
    true
}

/// Whether each of these ports has its edge.
fn all_taken(ports: &[Option<usize>]) -> bool
    ensures { IsTrue result ↔ All IsSome ports.now }
{
    ports.iter().all(|edge| edge.is_some())
}

/// Whether there is this port, with no edge.
fn is_free(ports: &[Option<usize>], port: usize) -> bool
    ensures { IsTrue result ↔ IsFreeAt ports.now port }
{
    port < ports.len() && ports[port].is_none()
}

/// So many ports with no edges.
fn free(alloc: Global, count: usize) -> Result<Vec<Option<usize>>, AllocError>
    ensures { IfOk result (λ ports. ports.items ≡ replicate count None) }
{
    let mut ports = Vec::new(alloc);
    ports.resize(count, None)?;
    Ok(ports)
}
