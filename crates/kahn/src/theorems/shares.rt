//! What holds where the nodes are shared out among several that step side by side. Networks are those of G. Kahn,
//! "The semantics of a simple language for parallel programming", 1974, with edges that may be bounded.

ghost use Rattle.kahn.specs.Processes.{Process};
ghost use Rattle.kahn.specs.Networks.{Network};
ghost use Rattle.kahn.specs.ShareTheorems.{SharesAreOneRun, AllSharesAreOneRun, OthersAreUntouched, SharesAreSound, ReachedByOwnEnds};

/// Two shares that stepped side by side from one configuration are one run: the events of mine and those of
/// the others can come one after another, in either order, and end alike.
pub fn shares_are_one_run<State, Message>()
    ensures { (P : Process State Message) (net : Network State) → SharesAreOneRun P net }
{}

/// However many shares stepped side by side from one configuration, they are one run together.
pub fn all_shares_are_one_run<State, Message>()
    ensures { (P : Process State Message) (net : Network State) → AllSharesAreOneRun P net }
{}

/// A run of nodes of mine leaves each other node its state, and what it received and sent.
pub fn others_are_untouched<State, Message>()
    ensures { (P : Process State Message) (net : Network State) → OthersAreUntouched P net }
{}

/// A configuration put together from shares is sound where each node's part is reached and the edges flow.
pub fn shares_are_sound<State, Message>()
    ensures { (P : Process State Message) (net : Network State) → SharesAreSound P net }
{}

/// Whether a node's part is reached depends on its own state and on the lists of its own ends alone.
pub fn reached_by_own_ends<State, Message>()
    ensures { (P : Process State Message) (net : Network State) → ReachedByOwnEnds P net }
{}
