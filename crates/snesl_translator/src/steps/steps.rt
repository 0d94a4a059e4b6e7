// Steps in the order in which they are made.

ghost use Rattle.std.specs.Prelude.{◌≤◌, vec_len};
ghost use Rattle.flow_networks.specs.Limits.{most_nodes};

use crate::steps::wires::{Wires, next_number, next_wires};
use flow_messages::Kind;
use flow_networks::MAX_NODES;
use flow_nodes::plans::{Operation, Step};
use flow_values::kinds;
use snesl_data::{Dialect, Refusal, Ty};
use std::alloc::Global;

/// The steps of a plan so far. It stops where there would be more than a graph has nodes.
#[derive(Debug, Drop)]
pub struct Steps {
    pub(crate) alloc: Global,
    pub(crate) dialect: Dialect,
    pub(crate) steps: Vec<Step>,
    // The number of the next stream.
    pub(crate) next: usize,
    // As a graph has nodes.
    ghost few: { vec_len steps ≤ most_nodes },
}

impl Steps {
    ghost use Rattle.std.specs.Prelude.{◌≡◌, []};
    ghost use Rattle.snesl_data.specs.Types.{ty_of};
    ghost use Rattle.flow_nodes.specs.plans.Views.{steps_of};
    ghost use Rattle.snesl_translation.specs.Programs.{control_sourced, sourced, unset_cells};
    ghost use Rattle.snesl_translator.specs.steps.Views.{dialect_of_steps, next_in, steps_in};
    ghost use Rattle.snesl_translator.specs.steps.Added.{Adds, AddsFlags, AddsSources, AddsStep, AddsTest, AddsWires};

    /// No steps. All that are made compute in the dialect.
    pub fn new(alloc: Global, dialect: Dialect) -> Steps
        ensures dialect { dialect_of_steps result ≡ dialect }
        ensures steps { steps_in result ≡ [] }
        ensures next { next_in result ≡ 0 }
    {
        Steps {
            alloc,
            dialect,
            steps: Vec::new(alloc),
            next: 0,
        }
    }

    /// Where memory is taken for steps.
    pub fn alloc(&self) -> Global {
        self.alloc
    }

    /// All steps, in order. They are no more than a graph has nodes.
    pub fn into_steps(self) -> Vec<Step>
        ensures few { vec_len result ≤ most_nodes }
        ensures steps { steps_of (dialect_of_steps self) result.items ≡ steps_in self }
    {
        self.steps
    }

    /// Adds a step whose outputs are the streams of a type, and returns them.
    ///
    /// # Errors
    ///
    /// `TooBig` where there would be more steps than a graph has nodes, and else `NoMemory`.
    pub fn step(
        &mut self,
        at: usize,
        operation: Operation,
        reads: Vec<usize>,
        ty: &Ty,
    ) -> Result<Wires, Refusal>
        ensures { AddsStep self.old self.new at operation reads.items ty.now result }
    {
        self.test(at, operation, reads)?;
        let wires = next_wires(self.alloc, ty, &mut self.next)?;
        Ok(wires)
    }

    /// The same, where the streams that are read are given as a slice. The errors are those of `step`.
    pub fn step_on(
        &mut self,
        at: usize,
        operation: Operation,
        reads: &[usize],
        ty: &Ty,
    ) -> Result<Wires, Refusal>
        ensures { AddsStep self.old self.new at operation reads.now ty.now result }
    {
        let reads = reads.to_vec(self.alloc)?;
        self.step(at, operation, reads, ty)
    }

    /// Adds a step that writes one stream of flags, and returns its number. The errors are those of `step`.
    pub fn flags(
        &mut self,
        at: usize,
        operation: Operation,
        reads: &[usize],
    ) -> Result<usize, Refusal>
        ensures { AddsFlags self.old self.new at operation reads.now result }
    {
        self.test_on(at, operation, reads)?;
        let number = next_number(&mut self.next)?;
        Ok(number)
    }

    /// Adds a step that writes nothing. The errors are those of `step`.
    pub fn test(
        &mut self,
        at: usize,
        operation: Operation,
        reads: Vec<usize>,
    ) -> Result<(), Refusal>
        ensures { AddsTest self.old self.new at operation reads.items result }
    {
        if self.steps.len() >= MAX_NODES {
            return Err(Refusal::TooBig);
        }
        self.steps.push(Step {
            at,
            operation,
            reads,
        })?;
        Ok(())
    }

    /// The same, where the streams that are read are given as a slice. The errors are those of `step`.
    pub fn test_on(
        &mut self,
        at: usize,
        operation: Operation,
        reads: &[usize],
    ) -> Result<(), Refusal>
        ensures { AddsTest self.old self.new at operation reads.now result }
    {
        let reads = reads.to_vec(self.alloc)?;
        self.test(at, operation, reads)
    }

    /// Adds the beginning of the control stream, and returns its number. The errors are those of `step`.
    pub fn control(&mut self, at: usize) -> Result<usize, Refusal>
        ensures { Adds (λ number. number) self.old self.new
            (control_sourced at (next_in self.old)) result }
    {
        self.test(at, Operation::Control, Vec::new(self.alloc))?;
        let number = next_number(&mut self.next)?;
        Ok(number)
    }

    /// Adds the beginnings of the streams of an input of this type, whose lists are to be set, and returns them. The errors
    /// are those of `step`.
    pub fn input(&mut self, at: usize, ty: &Ty) -> Result<Wires, Refusal>
        ensures { AddsWires self.old self.new (sourced at unset_cells (ty_of ty.now)) result }
    {
        let kinds = kinds(self.alloc, ty)?;
        self.sources(at, &kinds)?;
        let wires = next_wires(self.alloc, ty, &mut self.next)?;
        Ok(wires)
    }

    // Adds the beginnings of streams of these kinds.
    fn sources(&mut self, at: usize, kinds: &[Kind]) -> Result<(), Refusal>
        ensures { AddsSources self.old self.new at kinds.now result }
    {
        for kind in kinds {
            self.test(at, Operation::Input(*kind), Vec::new(self.alloc))?;
        }
        Ok(())
    }
}
