// Scalar messages, as they lie in blocks and in rings of scalars.
ghost use Rattle.std.specs.Prelude.{◌≡◌, false, IfSome, IfNone};
ghost use Rattle.flow_messages.specs.Signals.{signal_of, is_stop};
ghost use Rattle.flow_messages.specs.Flats.{message_of, is_scalar};

use crate::message::{Item, Msg};
use arrayvec::ArrayVec;

/// A scalar message: an item that is no vector, or the end of the stream.
#[derive(Clone, Copy, Debug, PartialEq, Eq)]
pub enum Flat {
    Unit,
    Bool(bool),
    Int(i128),
    End,
}

/// At most 64 scalar messages, which are put or taken in one call.
pub type Block = ArrayVec<Flat, 64>;

impl Default for Flat {
    fn default() -> Flat {
        Flat::End
    }
}

impl Flat {
    /// The message that stands for the same, or none for a vector.
    #[inline(always)]
    pub fn of(message: &Msg) -> Option<Flat>
        ensures some { IfSome result (λ x. message_of x ≡ message.now) }
        ensures none { IfNone result (is_scalar (signal_of message.now) ≡ false) }
    {
        match message {
            Msg::Item(Item::Unit) => Some(Flat::Unit),
            Msg::Item(Item::Bool(truth)) => Some(Flat::Bool(*truth)),
            Msg::Item(Item::Int(number)) => Some(Flat::Int(*number)),
            Msg::Item(Item::Vec(_) | Item::Typed(_)) => None,
            Msg::End => Some(Flat::End),
        }
    }

    /// The message that it stands for.
    #[inline(always)]
    pub fn message(self) -> Msg
        ensures { result ≡ message_of self }
    {
        match self {
            Flat::Unit => Msg::Item(Item::Unit),
            Flat::Bool(truth) => Msg::Item(Item::Bool(truth)),
            Flat::Int(number) => Msg::Item(Item::Int(number)),
            Flat::End => Msg::End,
        }
    }

    /// Whether it is the end of the stream.
    #[inline(always)]
    pub fn is_end(self) -> bool
        ensures { result ≡ is_stop (signal_of (message_of self)) }
    {
        match self {
            Flat::Unit | Flat::Bool(_) | Flat::Int(_) => false,
            Flat::End => true,
        }
    }
}
