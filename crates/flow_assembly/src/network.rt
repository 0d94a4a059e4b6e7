// A network that is being built.

ghost use Rattle.std.specs.Prelude.{◌≡◌, ◌+◌, ◌<◌, ◌^◌, ◌⊎◌, [], length, IfOk, OnOk, IfErr};
ghost use Rattle.snesl_data.specs.declared.refusal.Refusal.TheVariants.{TooBig, NoMemory};
ghost use Rattle.flow_networks.specs.Graphs.{states_so_far, edges_so_far, AddsNode};
ghost use Rattle.flow_networks.specs.Limits.{most_nodes, most_edges};
ghost use Rattle.flow_nodes.specs.StreamNodes.{node_behaviour, state_of};
ghost use Rattle.flow_assembly.specs.Joined.{supplier};
ghost use Rattle.flow_assembly.specs.Partly.{MayRead, MayAttach, AddsEdge, MovesSupplier, AddsStreams, IsAtLimit, node_count};

use flow_networks::{Edge, GraphBuilder};
use flow_nodes::StreamNode;
use snesl_data::Refusal;
use std::alloc::{AllocError, Global};

/// An output port of a node.
#[derive(Clone, Copy, Debug)]
pub struct Port {
    pub node: usize,
    pub port: usize,
}

/// A network that is being built.
#[derive(Drop)]
pub struct Network {
    pub alloc: Global,
    pub builder: GraphBuilder<StreamNode>,
    /// Where the next reader of each stream gets it.
    pub supply: Vec<Port>,
    /// The number of the node of each step.
    pub places: Vec<usize>,
}

impl Network {
    /// A network of no steps.
    pub fn new(alloc: Global) -> Network
        ensures nodes { states_so_far result.builder ≡ [] }
        ensures edges { edges_so_far result.builder ≡ [] }
        ensures supply { result.supply.items ≡ [] }
        ensures places { result.places.items ≡ [] }
    {
        Network {
            alloc,
            builder: GraphBuilder::new(alloc),
            supply: Vec::new(alloc),
            places: Vec::new(alloc),
        }
    }

    /// Joins the stream to this input port.
    pub fn join(&mut self, stream: usize, reader: usize, reader_port: usize) -> Result<(), Refusal>
        requires inside { stream < length self.old.supply.items }
        requires fits { (supplier self.old.supply.items stream).port + 1 < 2 ^ 64 }
        requires may { MayRead self.old stream reader reader_port }
        ensures nodes { states_so_far self.new.builder ≡ states_so_far self.old.builder }
        ensures edges { OnOk result (AddsEdge self.old stream reader reader_port self.new) }
        ensures supply { OnOk result (MovesSupplier self.old stream self.new) }
        ensures places { self.new.places.items ≡ self.old.places.items }
        ensures room { OnOk result (length (edges_so_far self.old.builder) ≡ most_edges → ⊥) }
        ensures big { result ≡ Err TooBig → length (edges_so_far self.old.builder) ≡ most_edges }
        ensures memory { IfErr result (λ refusal. (refusal ≡ TooBig) ⊎ (refusal ≡ NoMemory)) }
    {
        let from = self.supply[stream];
        self.builder.edge(Edge {
            writer: from.node,
            writer_port: from.port,
            reader,
            reader_port,
        })?;
        self.supply[stream] = Port {
            node: from.node,
            port: from.port + 1,
        };
        Ok(())
    }

    /// Adds a transducer, whose one input reads the stream, and returns its number.
    pub fn attach(&mut self, node: StreamNode, stream: usize) -> Result<usize, Refusal>
        requires opened { node_behaviour.opening (state_of node) ≡ state_of node }
        requires inside { stream < length self.old.supply.items }
        requires fits { (supplier self.old.supply.items stream).port + 1 < 2 ^ 64 }
        requires may { MayAttach self.old node stream }
        ensures number { IfOk result (λ number. number ≡ length (states_so_far self.old.builder)) }
        ensures nodes { OnOk result (AddsNode self.old.builder (state_of node) self.new.builder) }
        ensures edges { OnOk result (AddsEdge self.old stream (node_count self.old) 0 self.new) }
        ensures supply { OnOk result (MovesSupplier self.old stream self.new) }
        ensures places { self.new.places.items ≡ self.old.places.items }
        ensures room { OnOk result (length (states_so_far self.old.builder) ≡ most_nodes → ⊥) }
        ensures room_for_edge { OnOk result (length (edges_so_far self.old.builder) ≡ most_edges →
            ⊥) }
        ensures big { result ≡ Err TooBig → IsAtLimit self.old }
        ensures memory { IfErr result (λ refusal. (refusal ≡ TooBig) ⊎ (refusal ≡ NoMemory)) }
    {
        let number = self.builder.node(node)?;
        self.join(stream, number, 0)?;
        Ok(number)
    }

    /// Adds the outputs of the node as the suppliers of the next streams.
    pub fn add_streams(&mut self, node: usize, outputs: usize) -> Result<(), AllocError>
        ensures supply { OnOk result (AddsStreams self.old node outputs self.new) }
        ensures builder { self.new.builder ≡ self.old.builder }
        ensures places { self.new.places.items ≡ self.old.places.items }
    {
        for port in 0..outputs {
            self.supply.push(Port { node, port })?;
        }
        Ok(())
    }
}
