// A share while its ends are elsewhere.
ghost use Rattle.std.specs.Prelude.{◌≡◌};
ghost use Rattle.flow_messages.specs.Ends.{SameEnds, SameTraffic};
ghost use Rattle.flow_shares.specs.Lending.{share_nodes};

use crate::share::Share;
use flow_base::Transducer;
use flow_messages::Ends;
use flow_networks::Placed;
use std::snapshot::Snapshot;

/// What is left of a share while its ends are elsewhere, as where they meet those of other shares.
#[derive(Drop)]
pub struct Lender<T: Transducer, E: Ends> {
    number: usize,
    nodes: Vec<Placed<T>>,
    spent: bool,
    starved: bool,
    moved: bool,
    pub(crate) share: Snapshot<Share<T, E>>,
    ghost same_number: { number ≡ share.value.number },
    ghost same_nodes: { nodes ≡ share.value.nodes },
    ghost same_spent: { spent ≡ share.value.spent },
    ghost same_starved: { starved ≡ share.value.starved },
    ghost same_moved: { moved ≡ share.value.moved },
}

impl<T: Transducer, E: Ends> Share<T, E> {
    /// Lends its ends.
    pub fn lend(self) -> (Lender<T, E>, E)
        ensures share { result.0.share.value ≡ self }
        ensures ends { result.1 ≡ self.ends }
    {
        let share = Snapshot::of(&self);
        let Share {
            number,
            nodes,
            ends,
            spent,
            starved,
            moved,
        } = self;
        let lender = Lender {
            number,
            nodes,
            spent,
            starved,
            moved,
            share,
        };
        (lender, ends)
    }
}

impl<T: Transducer, E: Ends> Lender<T, E> {
    /// The share as it was, with these ends: those that it lent, on which nothing was put or taken since.
    pub fn take_back(self, ends: E) -> Share<T, E>
        requires same { E.same self.share.value.ends ends }
        requires ends { SameEnds (E.view self.share.value.ends) (E.view ends) }
        requires traffic { SameTraffic (E.view self.share.value.ends) (E.view ends) }
        ensures body { share_nodes result ≡ share_nodes self.share.value }
        ensures ends { result.ends ≡ ends }
    {
        Share {
            number: self.number,
            nodes: self.nodes,
            ends,
            spent: self.spent,
            starved: self.starved,
            moved: self.moved,
        }
    }
}
