//! What holds of every run of a network, whatever the schedule. Networks are those of G. Kahn, "The semantics
//! of a simple language for parallel programming", 1974, with edges that may be bounded.

ghost use Rattle.kahn.specs.Processes.{Process};
ghost use Rattle.kahn.specs.Networks.{Network, IsWired, OfLawfulNetworks};
ghost use Rattle.kahn.specs.RunTheorems.{RunsAreSound, StepsKeepSound, RunsFit, EndIsLast, StepsMove, RunsEndAlike, AllRunsGoOn};

/// Whatever the schedule, each configuration of a run is sound.
pub fn runs_are_sound<State, Message>()
    ensures { (P : Process State Message) (net : Network State) → IsWired net → RunsAreSound P net }
{}

/// A step keeps a configuration sound.
pub fn steps_keep_sound<State, Message>()
    ensures { (P : Process State Message) (net : Network State) → IsWired net →
        StepsKeepSound P net }
{}

/// No edge ever holds more messages than the capacity.
pub fn runs_fit<State, Message>()
    ensures { (P : Process State Message) (net : Network State) → RunsFit P net }
{}

/// Nothing follows the end on an edge.
pub fn end_is_last<State, Message>()
    ensures { (P : Process State Message) → OfLawfulNetworks P (EndIsLast P) }
{}

/// Each step moves one message.
pub fn steps_move<State, Message>()
    ensures { (P : Process State Message) (net : Network State) → StepsMove P net }
{}

/// All maximal runs from one configuration end alike, whatever the schedule: the network is determined
/// (Kahn 1974), here with bounded edges too.
pub fn runs_end_alike<State, Message>()
    ensures { (P : Process State Message) (net : Network State) → IsWired net → RunsEndAlike P net }
{}

/// A maximal run bounds every other run from where it began, which can go on to the same end.
pub fn all_runs_go_on<State, Message>()
    ensures { (P : Process State Message) (net : Network State) → IsWired net → AllRunsGoOn P net }
{}
