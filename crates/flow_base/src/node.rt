// Transducers made of workers: what they do where streams end.

ghost use Rattle.std.specs.Prelude.{◌≡◌, ◌+◌, ◌<◌, ◌≤◌, true, false, cond, nat_lt, IfOk, OnErr, IsOk, IsTrue, List, [], ◌∷◌, ◌++◌, length};
ghost use Rattle.flow_messages.specs.Signals.{Signal, stop, signal_of};
ghost use Rattle.flow_messages.specs.Flats.{flat_signals};
ghost use Rattle.flow_base.specs.Machines.{move_of, ask_of};
ghost use Rattle.flow_base.specs.Workers.{IsReading};
ghost use Rattle.flow_base.specs.Nodes.{behaviour_of, closing, node_state, opened, want_for};
ghost use Rattle.flow_base.specs.Passing.{MayCome, PassedOn};
ghost use Rattle.flow_base.specs.Following.{node_passes};
ghost use Rattle.flow_base.specs.Along.{AreApart};
ghost use Rattle.flow_base.specs.Standing.{VisitsBySteps, EndsAll, Walks, MayComeTo, NodeIsPlaced, NodeReads, PassesAll, PassesOn, PassesToEnd, StandsStill, WalksOn, Visits, end_written, standing};
ghost use Rattle.flow_base.specs.declared.node.Phase.TheVariants.{Working, Ending};

use crate::certain::{look_for_messages, put_in_space};
use crate::slices::{
    PLACES, Written, at_most_two_apart, least_space, put_on_each, rise, shown_at, skip_at,
};
use crate::transducer::{Port, Side, Transducer};
use crate::worker::{Ask, Stop, Worker};
use flow_messages::{Block, Ends, Flat, Msg};
use kahn::Want;
use snesl_data::{Fault, FaultKind};
use std::alloc::AllocError;

// A worker goes over slices only in visits of so many steps and more.
const LEAST_FOR_BLOCKS: usize = 8;

// After a visit of so many steps the next one goes over slices, if it can.
const LEAST_WHEN_BUSY: usize = 5;

// A visit by single steps makes so many at most. Where there are more, the next goes over slices.
const MOST_SINGLE: usize = 16;

/// How far a node is.
#[derive(Clone, Copy, Debug, PartialEq, Eq)]
pub enum Phase {
    /// It reads and writes items.
    Working,
    /// The stream at port 0 has ended. The end of this input comes next.
    Closing(usize),
    /// All inputs have ended. The end of this output comes next; there may be none left.
    Ending(usize),
    /// It met what it cannot go on from.
    Faulted(FaultKind),
}

impl Phase {
    // After the end of this input.
    fn closing_after(port: usize, inputs: usize) -> Phase
        ensures { result ≡ closing (port + 1) inputs }
    {
        if port < inputs && port + 1 < inputs {
            Phase::Closing(port + 1)
        } else {
            Phase::Ending(0)
        }
    }
}

// The edges at the ports of a node.
#[derive(Drop)]
struct NodeEdges<'a> {
    inputs: &'a [usize],
    outputs: &'a [usize],
}

/// A transducer that lets a worker do one instance after another, until the stream at its first port ends where an
/// instance may begin. Then each other input has to end too, in the order of the ports, and the node writes the end
/// to each output in order. An end at any other place, and an item where an end is due, is a fault of kind `Shape`.
#[derive(Drop)]
pub struct Node<W> {
    worker: W,
    phase: Phase,
    at: usize,
    // Whether its last visit made more than a step or two. It says only how fast the next one is.
    is_busy: bool,
    // Where the worker writes along slices. It is kept, since a fresh one is filled before it is used.
    block: Written,
}

impl<W: Worker> Node<W> {
    /// A node before its first instance. Its faults are at this place, a byte offset in the program text.
    pub fn new(worker: W, at: usize) -> Node<W>
        ensures { ⟦<Node<W> as Transducer>⟧.state result ≡ opened (W.state worker) at }
    {
        Node {
            worker,
            phase: Phase::Working,
            at,
            is_busy: true,
            block: Written::new(),
        }
    }

    // The fault of this kind, at the node's place.
    fn fault(&self, kind: FaultKind) -> Want
        ensures { result ≡ Want.Faulted (record { kind = kind; at = self.now.at }) }
    {
        Want::Faulted(Fault { kind, at: self.at })
    }

    // What it wants while it works.
    #[inline(always)]
    fn want_on(&self) -> Want
        ensures { result ≡ want_for (ask_of (move_of W.machine (W.state self.now.worker))) }
    {
        match self.worker.ask() {
            Ask::Begin => Want::Read(0),
            Ask::Take(port) => Want::Read(port),
            Ask::Give(port) => Want::Write(port),
        }
    }

    // Reads the message that it wants while it works. Whether it works on.
    #[inline(always)]
    fn read_on(&mut self, message: Msg) -> Result<bool, AllocError>
        requires works { self.old.phase ≡ Working }
        requires reads { IsReading (ask_of (move_of W.machine (W.state self.old.worker))) }
        ensures ok { IfOk result (λ on. NodeReads W.Worker self.old message self.new) }
        ensures on { IfOk result (λ on. on ≡ true → self.new.phase ≡ Working) }
        ensures err { OnErr result (StandsStill W.Worker self.old self.new) }
        ensures sure { W.machine.takes_memory (W.state self.old.worker).1 ≡ false → IsOk result }
    {
        match message {
            Msg::Item(item) => match self.worker.take(item) {
                Ok(()) => Ok(true),
                Err(Stop::Faulted(kind)) => {
                    self.phase = Phase::Faulted(kind);
                    Ok(false)
                }
                Err(Stop::OutOfMemory) => Err(AllocError),
            },
            Msg::End => {
                self.phase = match self.worker.ask() {
                    Ask::Begin => Phase::closing_after(0, self.worker.inputs()),
                    _ => Phase::Faulted(FaultKind::Shape),
                };
                Ok(false)
            }
        }
    }

    // One step, or none where it can make none.
    #[inline(never)]
    fn step<E: Ends>(&mut self, edges: &NodeEdges<'_>, ends: &mut E) -> Result<bool, AllocError>
        requires placed { NodeIsPlaced W.Worker edges.now self.old (E.view ends.old) }
        ensures { Visits W.Worker E.Ends edges.now self.old ends.old self.new ends.new result }
    {
        match self.want() {
            Want::Read(port) => {
                prove!(port < edges.inputs.len());
                let Some(message) = ends.take(edges.inputs[port]) else {
                    return Ok(false);
                };
                self.give(port, message)?;
                Ok(true)
            }
            Want::Write(port) => {
                prove!(port < edges.outputs.len());
                let edge = edges.outputs[port];
                if !ends.room(edge) {
                    return Ok(false);
                }
                let message = self.emit()?;
                // Only after End is the message refused, and no lawful node writes after End.
                let _ = ends.put(edge, message);
                Ok(true)
            }
            Want::Ended | Want::Faulted(_) => Ok(false),
        }
    }

    // Single steps to where the worker may go on over slices, at most `chunk`. How many it made.
    #[inline(always)]
    fn finish<E: Ends>(
        &mut self,
        edges: &NodeEdges<'_>,
        ends: &mut E,
        chunk: usize,
    ) -> Result<usize, AllocError>
        requires placed { NodeIsPlaced W.Worker edges.now self.old (E.view ends.old) }
        ensures within { IfOk result (λ made. made ≤ chunk) }
        ensures visit { WalksOn W.Worker E.Ends edges.now self.old ends.old self.new ends.new result }
    {
        for made in 0..chunk {
            if self.worker.is_between() {
                return Ok(made);
            }
            if !self.step(edges, ends)? {
                return Ok(made);
            }
        }
        Ok(chunk)
    }

    // Goes once along the slices that its ends show, at most `most` steps. How many it made.
    #[inline(always)]
    fn go_along<E: Ends>(&mut self, edges: &NodeEdges<'_>, ends: &mut E, most: usize) -> usize
        requires works { self.old.phase ≡ Working }
        requires placed { NodeIsPlaced W.Worker edges.now self.old (E.view ends.old) }
        requires inputs { AreApart edges.now.inputs.now }
        requires outputs { AreApart edges.now.outputs.now }
        ensures works { self.new.phase ≡ Working }
        ensures within { result ≤ most }
        ensures visit { Walks W.Worker E.Ends edges.now self.old ends.old self.new ends.new result }
    {
        let space = least_space(ends, edges.outputs).min(PLACES);
        let first = shown_at(ends, edges.inputs, 0);
        let second = shown_at(ends, edges.inputs, 1);
        let moved = self
            .worker
            .along(first, second, &mut self.block, space, most);
        let steps = moved.steps;
        if steps == 0 {
            return 0;
        }
        skip_at(ends, edges.inputs, 0, moved.first);
        skip_at(ends, edges.inputs, 1, moved.second);
        put_on_each(&self.worker, ends, edges.outputs, &self.block, moved);
        steps
    }

    // Goes along the slices that its ends show, at most `most` steps. How many it made.
    #[inline(always)]
    fn over_slices<E: Ends>(&mut self, edges: &NodeEdges<'_>, ends: &mut E, most: usize) -> usize
        requires works { self.old.phase ≡ Working }
        requires placed { NodeIsPlaced W.Worker edges.now self.old (E.view ends.old) }
        ensures works { self.new.phase ≡ Working }
        ensures within { result ≤ most }
        ensures visit { Walks W.Worker E.Ends edges.now self.old ends.old self.new ends.new result }
    {
        // Slices of one edge are not seen at once.
        if !at_most_two_apart(edges.inputs) {
            return 0;
        }
        // The room of an edge is certain for one output alone.
        if !rise(edges.outputs) {
            return 0;
        }
        let mut made = 0;
        'rounds: loop {
            let steps = self.go_along(edges, ends, most - made);
            // Where it filled no block, another round would find next to nothing, and cost as much.
            if steps < PLACES {
                return made + steps;
            }
            made += steps;
        }
    }

    // The same, and then what a worker does that goes over slices by itself.
    #[inline(always)]
    fn blocks<E: Ends>(&mut self, edges: &NodeEdges<'_>, ends: &mut E, most: usize) -> usize
        requires works { self.old.phase ≡ Working }
        requires placed { NodeIsPlaced W.Worker edges.now self.old (E.view ends.old) }
        ensures within { result ≤ most }
        ensures visit { Walks W.Worker E.Ends edges.now self.old ends.old self.new ends.new result }
    {
        let along = self.over_slices(edges, ends, most);
        // What is left of a visit that went along slices would begin an instance that the next has to end by single steps.
        if along > 0 {
            return along;
        }
        let whole = self
            .worker
            .blocks(edges.inputs, edges.outputs, ends, most - along);
        along + whole
    }

    // The rest of an instance that has begun, and then whole instances over slices, at most `chunk` steps. How many it made.
    #[inline(always)]
    fn whole_blocks<E: Ends>(
        &mut self,
        edges: &NodeEdges<'_>,
        ends: &mut E,
        chunk: usize,
    ) -> Result<usize, AllocError>
        requires placed { NodeIsPlaced W.Worker edges.now self.old (E.view ends.old) }
        ensures within { IfOk result (λ made. made ≤ chunk) }
        ensures visit { WalksOn W.Worker E.Ends edges.now self.old ends.old self.new ends.new result }
    {
        let first = self.finish(edges, ends, chunk)?;
        if let Phase::Working = self.phase {
            look_for_messages(ends, edges.inputs);
            let whole = self.blocks(edges, ends, chunk - first);
            return Ok(first + whole);
        }
        Ok(first)
    }

    // The same, and nothing in short visits. How many steps it made.
    #[inline(always)]
    fn many<E: Ends>(
        &mut self,
        edges: &NodeEdges<'_>,
        ends: &mut E,
        chunk: usize,
    ) -> Result<usize, AllocError>
        requires works { self.old.phase ≡ Working }
        requires placed { NodeIsPlaced W.Worker edges.now self.old (E.view ends.old) }
        ensures within { IfOk result (λ made. made ≤ chunk) }
        ensures visit { WalksOn W.Worker E.Ends edges.now self.old ends.old self.new ends.new result }
    {
        if chunk < LEAST_FOR_BLOCKS {
            return Ok(0);
        }
        // Where hardly an instance fits, the worker goes on from within one, if it can.
        if chunk / 2 <= edges.outputs.len() {
            look_for_messages(ends, edges.inputs);
            return Ok(self.blocks(edges, ends, chunk));
        }
        self.whole_blocks(edges, ends, chunk)
    }

    // Single steps while it works, at most `chunk`. How many it made.
    #[inline(always)]
    fn work<E: Ends>(
        &mut self,
        edges: &NodeEdges<'_>,
        ends: &mut E,
        chunk: usize,
    ) -> Result<usize, AllocError>
        requires some { 0 < chunk }
        requires works { self.old.phase ≡ Working }
        requires placed { NodeIsPlaced W.Worker edges.now self.old (E.view ends.old) }
        ensures within { IfOk result (λ made. made ≤ chunk) }
        ensures visit { VisitsBySteps W.Worker E.Ends edges.now self.old ends.old self.new ends.new result }
    {
        for made in 0..chunk {
            match self.want_on() {
                Want::Read(port) => {
                    prove!(port < edges.inputs.len());
                    let Some(message) = ends.take(edges.inputs[port]) else {
                        return Ok(made);
                    };
                    if !self.read_on(message)? {
                        return Ok(made + 1);
                    }
                }
                Want::Write(port) => {
                    prove!(port < edges.outputs.len());
                    let edge = edges.outputs[port];
                    if !ends.room(edge) {
                        return Ok(made);
                    }
                    let item = self.worker.give()?;
                    put_in_space(ends, edge, Msg::Item(item));
                }
                Want::Ended | Want::Faulted(_) => return Ok(made),
            }
        }
        Ok(chunk)
    }

    // Steps in any phase, at most `left`. Whether it made one.
    #[inline(never)]
    fn close<E: Ends>(
        &mut self,
        edges: &NodeEdges<'_>,
        ends: &mut E,
        left: usize,
    ) -> Result<bool, AllocError>
        requires some { 0 < left }
        requires placed { NodeIsPlaced W.Worker edges.now self.old (E.view ends.old) }
        ensures { Visits W.Worker E.Ends edges.now self.old ends.old self.new ends.new result }
    {
        let mut moved = false;
        for _ in 0..left {
            if !self.step(edges, ends)? {
                break;
            }
            moved = true;
        }
        Ok(moved)
    }

    // A visit by single steps: in a loop while it works, and then in any phase.
    #[inline(never)]
    fn visit_by_steps<E: Ends>(
        &mut self,
        edges: &NodeEdges<'_>,
        ends: &mut E,
        chunk: usize,
    ) -> Result<bool, AllocError>
        requires some { 0 < chunk }
        requires placed { NodeIsPlaced W.Worker edges.now self.old (E.view ends.old) }
        ensures { Visits W.Worker E.Ends edges.now self.old ends.old self.new ends.new result }
    {
        if !matches!(self.phase, Phase::Working) {
            return self.close(edges, ends, chunk);
        }
        let made = self.work(edges, ends, chunk)?;
        self.is_busy = made >= LEAST_WHEN_BUSY;
        if made == chunk || matches!(self.phase, Phase::Working) {
            return Ok(made > 0);
        }
        // It has made the step that ended its work.
        self.close(edges, ends, chunk - made)?;
        Ok(true)
    }

    // A visit over slices, if a step can be made so, and else by single steps.
    #[inline(never)]
    fn visit_over_slices<E: Ends>(
        &mut self,
        edges: &NodeEdges<'_>,
        ends: &mut E,
        chunk: usize,
    ) -> Result<bool, AllocError>
        requires some { 0 < chunk }
        requires placed { NodeIsPlaced W.Worker edges.now self.old (E.view ends.old) }
        ensures { Visits W.Worker E.Ends edges.now self.old ends.old self.new ends.new result }
    {
        if !matches!(self.phase, Phase::Working) {
            return self.close(edges, ends, chunk);
        }
        let whole = self.many(edges, ends, chunk)?;
        if whole == 0 {
            return self.visit_by_steps(edges, ends, chunk);
        }
        // The steps that are left would open an instance, or find nothing.
        self.is_busy = whole >= LEAST_WHEN_BUSY;
        Ok(true)
    }

    // Whether it passes messages on from here.
    fn may_pass(&self) -> bool
        ensures exact { result ≡ node_passes W.machine W.passes (standing W.Worker self.now) }
        ensures one { result ≡ true → W.machine.inputs (W.state self.now.worker).0 ≡ 1 }
    {
        matches!(self.phase, Phase::Working)
            && matches!(self.worker.ask(), Ask::Begin)
            && self.worker.passes()
    }

    // Passes these items on, up to an end: what it writes to each output goes to `out`, and it stays as it is. Whether an end
    // came.
    fn pass_items(&self, flats: &[Flat], out: &mut Block) -> bool
        requires passes { node_passes W.machine W.passes (standing W.Worker self.now) ≡ true }
        requires come { MayComeTo W.Worker self.now flats.now }
        requires short { length flats.now ≤ 64 }
        requires empty { out.old.items ≡ [] }
        ensures room { result ≡ true → length out.new.items < 64 }
        ensures ended { result ≡ true → PassesToEnd W.Worker self.now flats.now out.new.items }
        ensures all { result ≡ false → PassesAll W.Worker self.now flats.now out.new.items }
    {
        for flat in flats {
            if flat.is_end() {
                return true;
            }
            if let Some(next) = self.worker.follows(*flat) {
                out.push(next);
            }
        }
        false
    }

    // Passes the end on: it goes to each output, and to `out`, where there is one.
    fn pass_end(&mut self, out: &mut Block)
        requires { length out.old.items < 64 }
        ensures state { EndsAll W.Worker self.old self.new }
        ensures out { out.new.items ≡ out.old.items ++ end_written W.Worker self.old }
    {
        let outputs = self.worker.outputs();
        self.phase = Phase::Ending(outputs);
        if outputs > 0 {
            out.push(Flat::End);
        }
    }
}

impl<W: Worker> Transducer for Node<W> {
    ghost use Rattle.flow_base.specs.Nodes.{NodeState};
    ghost use Rattle.flow_base.specs.NodeLaws.{behaviour_laws};

    ghost State = { NodeState (W.Parameters × W.State) };

    ghost state = { λ n. node_state (W.state n.worker) n.phase n.at };

    ghost behaviour = { behaviour_of W.machine };

    ghost laws = { behaviour_laws W.machine W.laws };

    #[inline(always)]
    fn want(&self) -> Want {
        match self.phase {
            Phase::Working => self.want_on(),
            Phase::Closing(port) => {
                if port < self.worker.inputs() {
                    Want::Read(port)
                } else {
                    self.fault(FaultKind::Shape)
                }
            }
            Phase::Ending(port) => {
                if port < self.worker.outputs() {
                    Want::Write(port)
                } else {
                    Want::Ended
                }
            }
            Phase::Faulted(kind) => self.fault(kind),
        }
    }

    // The worker is after each item where it was before.
    fn pass(&mut self, block: &Block, out: &mut Block) -> bool
        requires { MayComeTo W.Worker self.old block.now.items }
        ensures passed { IsTrue result →
            PassesOn W.Worker self.old block.now.items self.new out.new.items }
        ensures kept { result ≡ false → StandsStill W.Worker self.old self.new }
        ensures untouched { result ≡ false → out.new.items ≡ out.old.items }
        ensures exact { result ≡ node_passes W.machine W.passes (standing W.Worker self.old) }
    {
        if !self.may_pass() {
            return false;
        }
        out.clear();
        if self.pass_items(block.as_slice(), out) {
            self.pass_end(out);
        }
        true
    }

    fn port(&self, side: Side, number: usize) -> Port {
        match side {
            Side::In => Port {
                count: self.worker.inputs(),
                kind: self.worker.kind_in(number),
            },
            Side::Out => Port {
                count: self.worker.outputs(),
                kind: self.worker.kind_out(number),
            },
        }
    }

    #[inline(always)]
    fn give(&mut self, port: usize, message: Msg) -> Result<(), AllocError> {
        if matches!(self.phase, Phase::Working) {
            self.read_on(message)?;
            return Ok(());
        }
        match message {
            Msg::Item(_) => {
                self.phase = Phase::Faulted(FaultKind::Shape);
            }
            Msg::End => {
                self.phase = Phase::closing_after(port, self.worker.inputs());
            }
        }
        Ok(())
    }

    #[inline(always)]
    fn emit(&mut self) -> Result<Msg, AllocError> {
        if let Phase::Ending(port) = self.phase {
            if port < self.worker.outputs() {
                self.phase = Phase::Ending(port + 1);
            }
            return Ok(Msg::End);
        }
        let item = self.worker.give()?;
        Ok(Msg::Item(item))
    }

    // Over slices where the visit before found many messages; else this one hardly does.
    #[inline(always)]
    fn run<E: Ends>(
        &mut self,
        inputs: &[usize],
        outputs: &[usize],
        ends: &mut E,
        chunk: usize,
    ) -> Result<bool, AllocError> {
        let edges = NodeEdges { inputs, outputs };
        if self.is_busy {
            return self.visit_over_slices(&edges, ends, chunk);
        }
        self.visit_by_steps(&edges, ends, chunk.min(MOST_SINGLE))
    }
}
