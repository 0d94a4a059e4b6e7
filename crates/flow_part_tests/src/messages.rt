// Messages of tests, by numbers: a message carries the number, or is `End` where there is none. (What was taken is let go in
// here, and not in each test.)
ghost use Rattle.std.specs.Prelude.{◌≡◌, true};
ghost use Rattle.flow_messages.specs.declared.message.Kind.TheVariants.{Int as IntKind};
ghost use Rattle.flow_messages.specs.Signals.{signal_of};
ghost use Rattle.flow_messages.specs.Kinds.{fits};

use flow_messages::{Item, Msg, Refused, Why};

/// The message of this number, or `End`.
pub fn message(number: Option<i128>) -> Msg
    ensures { fits IntKind (signal_of result) ≡ true }
{
    match number {
        Some(value) => Msg::Item(Item::Int(value)),
        None => Msg::End,
    }
}

/// Whether a message is there, and is that of this number, or `End`.
pub fn is_message(taken: Option<Msg>, number: Option<i128>) -> bool {
    match (taken, number) {
        (Some(Msg::Item(Item::Int(carried))), Some(value)) => carried == value,
        (Some(Msg::End), None) => true,
        _ => false,
    }
}

/// Whether a message is there, and carries a vector.
pub fn is_vector(taken: Option<Msg>) -> bool {
    match taken {
        Some(Msg::Item(Item::Vec(_) | Item::Typed(_))) => true,
        _ => false,
    }
}

/// Whether the message of this number, or `End`, came back for this cause.
pub fn is_refused(answer: Result<(), Refused>, number: Option<i128>, cause: Why) -> bool {
    match answer {
        Ok(()) => false,
        Err(refused) => refused.why == cause && is_message(Some(refused.message), number),
    }
}
