// That plans are wired. The function does nothing: its contract is the theorem.

ghost use Rattle.snesl_translation.specs.wiring.Wirings.{PlansAreWired};

/// The law that each step of the plan of a typed program reads streams that there are, one for each of its ports and of the
/// port's kind.
pub fn plans_are_wired()
    ensures { PlansAreWired }
{}
