// Whether nodes can step.
ghost use Rattle.std.specs.Prelude.{◌↔◌, IsTrue};
ghost use Rattle.std.specs.List.{All};
ghost use Rattle.flow_shares.specs.Looks.{LookedAround, IsLookedAt};
ghost use Rattle.flow_shares.specs.Shares.{HasItsEnds, AreApart, AreStuck};

use crate::share::Share;
use flow_base::Transducer;
use flow_messages::Ends;
use flow_networks::Placed;

impl<T: Transducer, E: Ends> Share<T, E> {
    /// Whether none of its nodes can step by what its ends are certain of. It looks at ends that nodes want, which may be
    /// certain of more then; else nothing changes.
    pub fn is_stuck(&mut self) -> bool
        ensures looked { IsLookedAt self.old self.new }
        ensures stuck { IsTrue result ↔ AreStuck (E.view self.new.ends) self.new.nodes.items }
    {
        are_stuck(&self.nodes, &mut self.ends)
    }
}

// Whether none of these nodes can step by what the ends are certain of.
fn are_stuck<T: Transducer, E: Ends>(nodes: &[Placed<T>], ends: &mut E) -> bool
    requires there { All (HasItsEnds (E.view ends.old)) nodes.now }
    requires apart { AreApart nodes.now }
    ensures same { E.same ends.old ends.new }
    ensures looked { LookedAround (E.view ends.old) (E.view ends.new) }
    ensures stuck { IsTrue result ↔ AreStuck (E.view ends.new) nodes.now }
{
    for placed in nodes {
        if !placed.is_stuck(ends) {
            return false;
        }
    }
    true
}
