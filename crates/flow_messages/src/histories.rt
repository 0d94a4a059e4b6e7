// Histories of messages in blocks. A history has no bytes, so the loops are none at run time: each makes messages of one kind, so
// that a compiler sees that nothing is to be dropped.
ghost use Rattle.std.specs.Prelude.{◌≡◌, ◌++◌};
ghost use Rattle.flow_messages.specs.Contents.{unit_messages, flag_messages, int_messages, item_messages};

use crate::history::History;
use crate::items::Items;
use crate::message::{Item, Msg};

// The history with so many units more.
#[inline(always)]
fn with_units(history: History<Msg>, count: usize) -> History<Msg>
    ensures { result.items ≡ history.items ++ unit_messages count }
{
    let mut all = history;
    for _ in 0..count {
        all = all.with(&Msg::Item(Item::Unit));
    }
    all
}

// The history with these truth values more.
#[inline(always)]
fn with_flags(history: History<Msg>, flags: &[bool]) -> History<Msg>
    ensures { result.items ≡ history.items ++ flag_messages flags.now }
{
    let mut all = history;
    for flag in flags {
        all = all.with(&Msg::Item(Item::Bool(*flag)));
    }
    all
}

// The history with these integers more.
#[inline(always)]
fn with_ints(history: History<Msg>, ints: &[i64]) -> History<Msg>
    ensures { result.items ≡ history.items ++ int_messages ints.now }
{
    let mut all = history;
    for int in ints {
        all = all.with(&Msg::Item(Item::Int(*int as i128)));
    }
    all
}

/// The history with these items more.
#[inline(always)]
pub fn with_items(history: History<Msg>, items: Items<'_>) -> History<Msg>
    ensures { result.items ≡ history.items ++ item_messages items.entry }
{
    match items {
        Items::Nothing => history,
        Items::Units(count) => with_units(history, count),
        Items::Flags(flags) => with_flags(history, flags),
        Items::Ints(ints) => with_ints(history, ints),
    }
}
