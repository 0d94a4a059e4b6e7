// What is said of networks that have stalled.

ghost use Rattle.std.specs.Prelude.{◌≡◌};
ghost use Rattle.snesl_look.specs.Stalls.{stalled_hint};

/// What went wrong where a network has stalled.
pub const STALLED_SENTENCE: &str = "the program has stalled: its edges hold too few messages";

/// What is known of how many messages a program that has stalled needs its edges to hold.
#[derive(Clone, Copy, Debug, PartialEq, Eq)]
pub enum Enough {
    /// So many are enough.
    Messages(usize),
    /// With more of them it ends in a fault.
    Fault,
    /// As many as an edge may hold are not enough.
    Nothing,
    /// Nothing is known.
    Unknown,
}

/// What may help there.
pub fn stalled_hint(enough: Enough) -> &'static str
    ensures { result.now ≡ stalled_hint enough }
{
    match enough {
        Enough::Fault => "where they hold more, the program ends in a fault",
        Enough::Nothing =>
            "an edge may hold 65536, and these are too few: let fewer elements wait for others",
        _ => "let them hold more, as by `--capacity 4096`, at most 65536",
    }
}
