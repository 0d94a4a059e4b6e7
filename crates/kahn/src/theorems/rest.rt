//! What holds of every configuration at rest. Networks are those of G. Kahn, "The semantics of a simple language
//! for parallel programming", 1974, with bounded edges, by which a run may stall.

ghost use Rattle.kahn.specs.Processes.{Process};
ghost use Rattle.kahn.specs.Networks.{Network, IsWired, OfLawfulNetworks};
ghost use Rattle.kahn.specs.Faults.{OneIsNamed};
ghost use Rattle.kahn.specs.RestTheorems.{EndsOrStalls, OneOutcome, ListedFaultIsOutcome, RunsComeOutAlike, AllReceived, NeverStalls};

/// At rest with no fault, all nodes have ended, or a least edge is full while its writer waits.
pub fn ends_or_stalls<State, Message>()
    ensures { (P : Process State Message) → OfLawfulNetworks P (EndsOrStalls P) }
{}

/// A sound configuration at rest has exactly one outcome.
pub fn one_outcome<State, Message>()
    ensures { (P : Process State Message) → OfLawfulNetworks P (OneOutcome P) }
{}

/// The fault that is named of a list of all faults to which nodes have come is the outcome.
pub fn listed_fault_is_outcome<State, Message>()
    ensures { (P : Process State Message) (net : Network State) → ListedFaultIsOutcome P net }
{}

/// Of a list of faults no two are named: `named_fault` gives the one.
pub fn one_is_named()
    ensures { OneIsNamed }
{}

/// All maximal runs from one configuration have one outcome, whatever the schedule.
pub fn runs_come_out_alike<State, Message>()
    ensures { (P : Process State Message) (net : Network State) → IsWired net →
        RunsComeOutAlike P net }
{}

/// Where all nodes ended, all that was sent was received.
pub fn all_received<State, Message>()
    ensures { (P : Process State Message) → OfLawfulNetworks P (AllReceived P) }
{}

/// Where the whole traffic fits the edges, no run stalls.
pub fn never_stalls<State, Message>()
    ensures { (P : Process State Message) → OfLawfulNetworks P (NeverStalls P) }
{}
