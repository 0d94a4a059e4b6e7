// Numbers as messages.
ghost use Rattle.std.specs.Prelude.{◌≡◌, true, false, IfOk};
ghost use Rattle.flow_messages.specs.Signals.{signals, signal_of, is_stop, ended, orderly};

use flow_messages::{Item, Msg};
use std::alloc::{AllocError, Global};

/// A message that carries this number.
pub fn number(value: i128) -> Msg
    ensures { is_stop (signal_of result) ≡ false }
{
    Msg::Item(Item::Int(value))
}

/// The numbers from 0 on, so many, and then `End`. Its only error is that memory was refused.
#[tactic(auto, using(crate::proofs::OfCrossing::Lists::list_steps))]
pub fn numbers_and_end(alloc: Global, count: u32) -> Result<Vec<Msg>, AllocError>
    ensures ended { IfOk result (λ messages. ended (signals messages.items) ≡ true) }
    ensures orderly { IfOk result (λ messages. orderly (signals messages.items) ≡ true) }
{
    let mut messages = Vec::new(alloc);
    for value in 0..count {
        messages.push(number(i128::from(value)))?;
    }
    messages.push(Msg::End)?;
    Ok(messages)
}

/// Whether a message is there that carries this number.
pub fn is_number(message: Option<&Msg>, value: i128) -> bool {
    match message {
        Some(Msg::Item(Item::Int(carried))) => *carried == value,
        _ => false,
    }
}

/// Whether the messages are the numbers from 0 on, so many, and then `End`.
pub fn are_numbers_and_end(messages: &[Msg], count: usize) -> bool {
    let mut value = 0i128;
    for message in messages.iter().take(count) {
        if !is_number(Some(message), value) {
            return false;
        }
        value = value.wrapping_add(1);
    }
    messages.len().checked_sub(1) == Some(count) && matches!(messages.last(), Some(Msg::End))
}
