// Visits of single nodes.
ghost use Rattle.std.specs.Prelude.{◌<◌, ◌∷◌, [], length, OnErr};
ghost use Rattle.flow_networks.specs.EdgeKinds.{EdgesTakeAll};
ghost use Rattle.flow_networks.specs.Graphs.{states_of, edges_of};
ghost use Rattle.flow_networks.specs.Shapes.{KeepsShape};
ghost use Rattle.flow_networks.specs.Visits.{HasAllEnds};
ghost use Rattle.flow_networks.specs.Turns.{BreaksOffVisit, VisitAll};

use crate::graph::Graph;
use flow_base::Transducer;
use flow_messages::WholeEnds;
use std::alloc::AllocError;

impl<T: Transducer> Graph<T> {
    /// Lets the node make a visit. Whether it made a step.
    ///
    /// An error where memory was refused. Then the node stays where it was before that step, and a message that it was
    /// to read may be lost: no other is, and no other node moved.
    pub fn visit<E: WholeEnds>(
        &mut self,
        ends: &mut E,
        node: usize,
        chunk: usize,
    ) -> Result<bool, AllocError>
        requires inside { node < length (states_of self.old) }
        requires some { 0 < chunk }
        requires ends { HasAllEnds (length (edges_of self.old)) (E.view ends.old) }
        requires kinds { EdgesTakeAll self.old (E.view ends.old) }
        ensures shape { KeepsShape E.same E.view self.old ends.old self.new ends.new }
        ensures visits { VisitAll E.capacity E.view (node ∷ []) self.old ends.old self.new ends.new
            result }
        ensures broke { OnErr result (BreaksOffVisit E.view node self.old ends.old self.new
            ends.new) }
    {
        self.nodes[node].run(ends, chunk)
    }
}
