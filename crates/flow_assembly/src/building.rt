// The steps of a plan as parts of its network.

ghost use Rattle.std.specs.Prelude.{◌≡◌, ℕ, ◌+◌, ◌<◌, ◌≤◌, ◌⊎◌, [], length, Some, OnOk, IfErr};
ghost use Rattle.std.specs.List.{slice_get};
ghost use Rattle.snesl_data.specs.declared.refusal.Refusal.TheVariants.{TooBig, NoMemory};
ghost use Rattle.flow_networks.specs.Graphs.{states_so_far};
ghost use Rattle.flow_nodes.specs.plans.Layouts.{layout, stream_to};
ghost use Rattle.flow_nodes.specs.plans.Ports.{AreWired};
ghost use Rattle.flow_assembly.specs.Partly.{HasSteps, HasPutBefore, OwesEdges, HasAllUsesLeft, IsToRead, HasReadTo};
ghost use Rattle.flow_assembly.specs.Partly.{node_after, nodes_after, AreNext, GrowsBy};
ghost use Rattle.flow_assembly.specs.Ready.{plan_of, IsCounted, IsTooBig};

use crate::counted_steps::CountedSteps;
use crate::laws::openings_perform;
use crate::network::{Network, Port};
use crate::nodes::{fork_of, kinds_written, node_of, sink_of};
use flow_messages::Kind;
use snesl_data::Refusal;

impl Network {
    /// Adds the step of this number, after all before it: its transducer, and what stands after the streams that it
    /// writes. Each port that reads a stream is joined.
    pub fn add_step(&mut self, plan: &CountedSteps, number: usize) -> Result<(), Refusal>
        requires inside { number < length plan.now.steps.items }
        requires wired { AreWired [] (plan_of plan.now) }
        requires counted { IsCounted plan.now.uses.items (plan_of plan.now) }
        requires built { HasSteps plan.now number self.old }
        ensures built { OnOk result (HasSteps plan.now (number + 1) self.new) }
        ensures big { result ≡ Err TooBig → IsTooBig (plan_of plan.now) }
        ensures memory { IfErr result (λ refusal. (refusal ≡ TooBig) ⊎ (refusal ≡ NoMemory)) }
    {
        let step = &plan.steps[number];
        let node = node_of(self.alloc, plan.dialect, step.at, &step.operation)?;
        let kinds = kinds_written(self.alloc, &node)?;
        openings_perform();
        let place = self.builder.node(node)?;
        self.places.push(place)?;
        self.read_streams(plan, &step.reads, place)?;
        let first = self.supply.len();
        self.add_streams(place, kinds.len())?;
        self.put_all_after(plan, step.at, first, &kinds)?;
        Ok(())
    }

    // Joins the streams that the last node reads to its inputs, port by port.
    fn read_streams(
        &mut self,
        plan: &CountedSteps,
        reads: &[usize],
        node: usize,
    ) -> Result<(), Refusal>
        requires wired { AreWired [] (plan_of plan.now) }
        requires last { length (states_so_far self.old.builder) ≡ node + 1 }
        requires reads { (q : ℕ) → stream_to (layout (plan_of plan.now)) node q ≡
            slice_get reads.now q }
        requires there { (q s : ℕ) → slice_get reads.now q ≡ Some s → s <
            length self.old.supply.items }
        requires within { OwesEdges plan.now (length reads.now) self.old }
        requires joined { IsToRead plan.now self.old node reads.now }
        ensures joined { OnOk result
            (HasReadTo plan.now self.old node (length reads.now) self.new) }
        ensures within { OnOk result (OwesEdges plan.now 0 self.new) }
        ensures nodes { states_so_far self.new.builder ≡ states_so_far self.old.builder }
        ensures supply { OnOk result (length self.new.supply.items ≡ length self.old.supply.items) }
        ensures places { self.new.places.items ≡ self.old.places.items }
        ensures big { result ≡ Err TooBig → IsTooBig (plan_of plan.now) }
        ensures memory { IfErr result (λ refusal. (refusal ≡ TooBig) ⊎ (refusal ≡ NoMemory)) }
    {
        openings_perform();
        for (port, stream) in reads.iter().enumerate() {
            self.join(*stream, node, port)?;
        }
        Ok(())
    }

    // Puts what stands after the streams of these kinds, the first of which has this number.
    fn put_all_after(
        &mut self,
        plan: &CountedSteps,
        at: usize,
        first: usize,
        kinds: &[Kind],
    ) -> Result<(), Refusal>
        requires wired { AreWired [] (plan_of plan.now) }
        requires counted { IsCounted plan.now.uses.items (plan_of plan.now) }
        requires inside { first + length kinds.now ≤ length self.old.supply.items }
        requires later { (s : ℕ) → first ≤ s → HasAllUsesLeft plan.now self.old s }
        requires next { AreNext plan.now (nodes_after plan.now at first kinds.now) self.old }
        requires so_far { HasPutBefore plan.now first self.old }
        ensures so_far { OnOk result (HasPutBefore plan.now (first + length kinds.now) self.new) }
        ensures nodes { OnOk result
            (GrowsBy self.old (nodes_after plan.now at first kinds.now) self.new) }
        ensures supply { OnOk result (length self.new.supply.items ≡ length self.old.supply.items) }
        ensures places { self.new.places.items ≡ self.old.places.items }
        ensures big { result ≡ Err TooBig → IsTooBig (plan_of plan.now) }
        ensures memory { IfErr result (λ refusal. (refusal ≡ TooBig) ⊎ (refusal ≡ NoMemory)) }
    {
        for (port, kind) in kinds.iter().enumerate() {
            self.put_after(plan, at, first + port, *kind)?;
        }
        Ok(())
    }

    // Puts what stands after one stream.
    fn put_after(
        &mut self,
        plan: &CountedSteps,
        at: usize,
        stream: usize,
        kind: Kind,
    ) -> Result<(), Refusal>
        requires wired { AreWired [] (plan_of plan.now) }
        requires counted { IsCounted plan.now.uses.items (plan_of plan.now) }
        requires inside { stream < length self.old.supply.items }
        requires later { HasAllUsesLeft plan.now self.old stream }
        requires next { AreNext plan.now (node_after plan.now at stream kind) self.old }
        requires so_far { HasPutBefore plan.now stream self.old }
        ensures so_far { OnOk result (HasPutBefore plan.now (stream + 1) self.new) }
        ensures nodes { OnOk result
            (GrowsBy self.old (node_after plan.now at stream kind) self.new) }
        ensures supply { OnOk result (length self.new.supply.items ≡ length self.old.supply.items) }
        ensures places { self.new.places.items ≡ self.old.places.items }
        ensures big { result ≡ Err TooBig → IsTooBig (plan_of plan.now) }
        ensures memory { IfErr result (λ refusal. (refusal ≡ TooBig) ⊎ (refusal ≡ NoMemory)) }
    {
        openings_perform();
        let outputs = plan.uses(stream);
        if outputs == 1 {
            return Ok(());
        }
        if outputs == 0 {
            let sink = sink_of(at, kind);
            self.attach(sink, stream)?;
            return Ok(());
        }
        let fork = fork_of(at, kind, outputs);
        let node = self.attach(fork, stream)?;
        self.supply[stream] = Port { node, port: 0 };
        Ok(())
    }
}
