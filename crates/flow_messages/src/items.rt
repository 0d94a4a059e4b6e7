// Items of one kind, side by side.
ghost use Rattle.std.specs.Prelude.{◌≡◌, ◌<◌, Some, length, slice_get};
ghost use mathlib.Core.List.{IsPrefix};
ghost use Rattle.flow_messages.specs.Blocks.{unit_signals, flag_signals, int_signals, item_signals};
ghost use Rattle.flow_messages.specs.Contents.{item_messages};

use crate::message::{Item, Msg};

/// Items of one kind, side by side, the oldest first.
#[derive(Clone, Copy)]
pub enum Items<'a> {
    /// No item.
    Nothing,
    /// So many units.
    Units(usize),
    /// These truth values.
    Flags(&'a [bool]),
    /// These integers of 64 bits.
    Ints(&'a [i64]),
}

impl<'a> Items<'a> {
    /// How many there are.
    #[inline(always)]
    pub fn len(self) -> usize
        ensures { result ≡ length (item_messages self.entry) }
    {
        match self {
            Items::Nothing => 0,
            Items::Units(count) => count,
            Items::Flags(flags) => flags.len(),
            Items::Ints(ints) => ints.len(),
        }
    }

    /// How many units there are.
    #[inline(always)]
    pub fn units(self) -> usize
        ensures { IsPrefix (unit_signals result) (item_signals self.entry) }
    {
        match self {
            Items::Units(count) => count,
            _ => 0,
        }
    }

    /// The truth values.
    #[inline(always)]
    pub fn flags(self) -> &'a [bool]
        ensures { IsPrefix (flag_signals result.now) (item_signals self.entry) }
    {
        match self {
            Items::Flags(flags) => flags,
            _ => &[],
        }
    }

    /// The integers.
    #[inline(always)]
    pub fn ints(self) -> &'a [i64]
        ensures { IsPrefix (int_signals result.now) (item_signals self.entry) }
    {
        match self {
            Items::Ints(ints) => ints,
            _ => &[],
        }
    }

    /// The message that carries the item at this place.
    #[inline(always)]
    pub fn message(self, at: usize) -> Msg
        requires { at < length (item_messages self) }
        ensures { slice_get (item_messages self.entry) at ≡ Some result }
    {
        match self {
            Items::Nothing => unreachable!(),
            Items::Units(_) => Msg::Item(Item::Unit),
            Items::Flags(flags) => Msg::Item(Item::Bool(flags[at])),
            Items::Ints(ints) => Msg::Item(Item::Int(ints[at] as i128)),
        }
    }
}
