// What an edge carries.
ghost use Rattle.std.specs.Prelude.{◌≡◌, true, false, IfOk, IsOk};
ghost use Rattle.snesl_data.specs.Types.{ty_of};
ghost use Rattle.snesl_data.specs.Values.{a_vec, elements_of};
ghost use Rattle.flow_messages.specs.Shapes.{all_are};
ghost use Rattle.flow_messages.specs.Cells.{cell_of, datum as datum_cell, is_of};
ghost use Rattle.flow_messages.specs.Signals.{signal_of, is_stop};
ghost use Rattle.flow_messages.specs.Flats.{is_scalar};

use crate::typed::Typed;
use snesl_data::{Elements, Ty};
use std::alloc::AllocError;
use std::sync::Arc;

/// What kind of items a stream carries.
#[derive(Clone, Copy, Debug, PartialEq, Eq)]
pub enum Kind {
    /// Items that say only that they are there.
    Unit,
    /// Truth values.
    Bool,
    /// Integers.
    Int,
    /// Vectors.
    Vec,
}

impl Kind {
    /// Whether the item is of this kind.
    #[inline(always)]
    pub fn fits(self, item: &Item) -> bool
        ensures { result ≡ is_of self (cell_of item.now) }
    {
        matches!(
            (self, item),
            (Kind::Unit, Item::Unit)
                | (Kind::Bool, Item::Bool(_))
                | (Kind::Int, Item::Int(_))
                | (Kind::Vec, Item::Vec(_) | Item::Typed(_))
        )
    }
}

/// One item of a stream. Each variant is of the `Kind` of its name, and `Typed` is a vector too, the type of whose elements
/// is known. The elements of a vector are shared, so that all items are small, and none takes long to copy.
#[derive(Debug, Drop)]
pub enum Item {
    Unit,
    Bool(bool),
    Int(i128),
    Vec(Elements),
    Typed(Typed),
}

impl Item {
    /// An item that carries the vector of these elements, of which no type is known.
    pub fn of_elements(all: Elements) -> Item
        ensures { cell_of result ≡ datum_cell (a_vec (elements_of all)) }
    {
        Item::Vec(all)
    }

    /// The same, where its elements are known to be of this type.
    pub fn of_known(all: Elements, of: Arc<Ty>) -> Item
        requires { all_are (ty_of of.value) (elements_of all) ≡ true }
        ensures { cell_of result ≡ datum_cell (a_vec (elements_of all)) }
    {
        Item::Typed(Typed { elements: all, of })
    }

    /// An item that carries the same. It takes no memory: its only error is that too many share a vector.
    #[inline(always)]
    pub fn copy(&self) -> Result<Item, AllocError>
        ensures ok { IfOk result (λ item. cell_of item ≡ cell_of self.now) }
        ensures scalar { is_of Kind.Vec (cell_of self.now) ≡ false → IsOk result }
    {
        match self {
            Item::Unit => Ok(Item::Unit),
            Item::Bool(truth) => Ok(Item::Bool(*truth)),
            Item::Int(number) => Ok(Item::Int(*number)),
            Item::Vec(elements) => Ok(Item::Vec(elements.share()?)),
            Item::Typed(typed) => Ok(Item::Typed(typed.share()?)),
        }
    }
}

/// An item, or the end of the stream.
#[derive(Debug, Drop)]
pub enum Msg {
    Item(Item),
    End,
}

impl Msg {
    /// Whether it is the end of the stream.
    #[inline(always)]
    pub fn is_end(&self) -> bool
        ensures { result ≡ is_stop (signal_of self.now) }
    {
        match self {
            Msg::Item(_) => false,
            Msg::End => true,
        }
    }

    /// Whether it is no vector: an item of another kind, or the end of the stream.
    #[inline(always)]
    pub fn is_scalar(&self) -> bool
        ensures { result ≡ is_scalar (signal_of self.now) }
    {
        match self {
            Msg::Item(Item::Vec(_) | Item::Typed(_)) => false,
            Msg::Item(Item::Unit | Item::Bool(_) | Item::Int(_)) | Msg::End => true,
        }
    }
}
