//! What holds of every lawful process, as a function of the histories that it reads (G. Kahn, "The semantics of a
//! simple language for parallel programming", 1974).

ghost use Rattle.kahn.specs.Processes.{Process};
ghost use Rattle.kahn.specs.ProcessTheorems.{FollowsWhole, FollowsLists, OfLawfulOpenings};

/// On beginnings of what a complete run of it reads, a process writes beginnings of what that run writes, and
/// has not faulted: a process is a monotonic function of its histories (Kahn 1974).
pub fn follows_whole<State, Message>()
    ensures { (P : Process State Message) → OfLawfulOpenings P (FollowsWhole P) }
{}

/// A process that has a complete run over lists that begin with what it read wrote beginnings of what that
/// run writes, and has not faulted.
pub fn follows_lists<State, Message>()
    ensures { (P : Process State Message) → OfLawfulOpenings P (FollowsLists P) }
{}
