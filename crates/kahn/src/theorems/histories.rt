//! What holds where one node makes many reads and writes before another is looked at. Networks are those of
//! G. Kahn, "The semantics of a simple language for parallel programming", 1974, with edges that may be bounded.

ghost use Rattle.kahn.specs.Processes.{Process};
ghost use Rattle.kahn.specs.Networks.{OfLawfulNetworks};
ghost use Rattle.kahn.specs.HistoryTheorems.{HistoriesAreRuns, AllHistoriesAreOneRun};

/// What one node read and wrote at its ports, one after another, is a run of the network: what it read had been
/// sent to it, and what it wrote found room.
pub fn histories_are_runs<State, Message>()
    ensures { (P : Process State Message) → OfLawfulNetworks P (HistoriesAreRuns P) }
{}

/// What all nodes read and wrote at their ports, each from what stood at first, is one run of the network: what
/// each read had been sent to it before, and what it wrote found room without any of these reads.
pub fn all_histories_are_one_run<State, Message>()
    ensures { (P : Process State Message) → OfLawfulNetworks P (AllHistoriesAreOneRun P) }
{}
