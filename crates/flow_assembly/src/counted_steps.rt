// The steps of a plan, and how often they read each stream.

ghost use Rattle.std.specs.Prelude.{◌≡◌, ℕ, ◌+◌, ◌<◌, ◌≤◌, ◌⊎◌, length, IfOk, OnOk, IfErr};
ghost use Rattle.snesl_data.specs.declared.refusal.Refusal.TheVariants.{TooBig, NoMemory};
ghost use Rattle.flow_networks.specs.Limits.{most_edges};
ghost use Rattle.flow_nodes.specs.plans.Views.{steps_of};
ghost use Rattle.flow_assembly.specs.Ready.{plan_of, IsCounted, IsTooBig};
ghost use Rattle.flow_assembly.specs.Tables.{uses_in, CountsReads, CountsTooMany, SameUsesBut};

use flow_networks::MAX_EDGES;
use flow_nodes::plans::Step;
use snesl_data::{Dialect, Refusal};
use std::alloc::{AllocError, Global};

/// The steps of a plan in a program of the dialect, with how often they read each stream.
#[derive(Debug, Drop)]
pub struct CountedSteps {
    pub dialect: Dialect,
    pub steps: Vec<Step>,
    pub uses: Vec<usize>,
}

impl CountedSteps {
    /// The plan of these steps. `TooBig` only where they read so much that their network has too many edges.
    pub fn new(alloc: Global, dialect: Dialect, steps: Vec<Step>) -> Result<CountedSteps, Refusal>
        ensures plan { IfOk result (λ plan. plan_of plan ≡ steps_of dialect steps.items) }
        ensures counted { IfOk result (λ plan. IsCounted plan.uses.items (plan_of plan)) }
        ensures dialect { IfOk result (λ plan. plan.dialect ≡ dialect) }
        ensures steps { IfOk result (λ plan. plan.steps.items ≡ steps.items) }
        ensures big { result ≡ Err TooBig → IsTooBig (steps_of dialect steps.items) }
        ensures memory { IfErr result (λ refusal. (refusal ≡ TooBig) ⊎ (refusal ≡ NoMemory)) }
    {
        let mut uses = Vec::new(alloc);
        for step in &steps {
            add_uses(&mut uses, &step.reads)?;
        }
        Ok(CountedSteps {
            dialect,
            steps,
            uses,
        })
    }

    /// How often the steps read the stream.
    pub fn uses(&self, stream: usize) -> usize
        ensures { result ≡ uses_in self.now.uses.items stream }
    {
        match self.uses.get(stream) {
            Some(uses) => *uses,
            None => 0,
        }
    }
}

// Counts these reads.
fn add_uses(uses: &mut Vec<usize>, reads: &[usize]) -> Result<(), Refusal>
    ensures counted { OnOk result (CountsReads uses.old.items reads.now uses.new.items) }
    ensures big { result ≡ Err TooBig → CountsTooMany uses.old.items reads.now }
    ensures memory { IfErr result (λ refusal. (refusal ≡ TooBig) ⊎ (refusal ≡ NoMemory)) }
{
    for stream in reads {
        add_use(uses, *stream)?;
    }
    Ok(())
}

// Counts one read of the stream.
fn add_use(uses: &mut Vec<usize>, stream: usize) -> Result<(), Refusal>
    ensures one { OnOk result (uses_in uses.new.items stream ≡ uses_in uses.old.items stream + 1) }
    ensures others { OnOk result (SameUsesBut uses.old.items stream uses.new.items) }
    ensures big { result ≡ Err TooBig → most_edges ≤ uses_in uses.old.items stream }
    ensures memory { IfErr result (λ refusal. (refusal ≡ TooBig) ⊎ (refusal ≡ NoMemory)) }
{
    extend(uses, stream)?;
    if uses[stream] >= MAX_EDGES {
        return Err(Refusal::TooBig);
    }
    uses[stream] += 1;
    Ok(())
}

// Makes the table so long that the stream is in it.
fn extend(uses: &mut Vec<usize>, stream: usize) -> Result<(), AllocError>
    ensures inside { OnOk result (stream < length uses.new.items) }
    ensures same { (s : ℕ) → uses_in uses.new.items s ≡ uses_in uses.old.items s }
{
    while uses.len() <= stream {
        uses.push(0)?;
    }
    Ok(())
}
