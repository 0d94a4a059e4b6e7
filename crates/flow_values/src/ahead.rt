// What is still to be read of a value that is printed, and the text so far.

ghost use Rattle.std.specs.Prelude.{◌≡◌, ◌+◌, ◌++◌, [], ◌∷◌, false, true, List, IfOk, OnOk, Result};
ghost use Rattle.snesl_data.specs.Types.{ty_of, seq};
ghost use Rattle.flow_messages.specs.Cells.{cell_of};
ghost use Rattle.flow_values.specs.Places.{PortsFit};
ghost use Rattle.flow_values.specs.PrintMachine.{closing_brackets, next};
ghost use Rattle.flow_values.specs.Aheads.{pending_of, LeadsAhead, Finds};
ghost use Rattle.flow_values.specs.PrintSteps.{ElementIsAhead, Says, entered_item};

use crate::pending::{Flags, Pending, Place};
use crate::shapes::{are_elements, edge_count, is_typed};
use flow_base::Stop;
use flow_messages::Item;
use snesl_data::{Datum, FaultKind, Ty, copy_ty, text_of};
use std::alloc::{AllocError, Global};

/// What is still to be read, the next as the last, and the text so far.
#[derive(Drop)]
pub struct Ahead {
    pub pending: Vec<Pending>,
    pub text: Vec<u8>,
}

impl Ahead {
    /// Nothing to be read, and no text.
    pub fn new(alloc: Global) -> Ahead
        ensures pending { result.pending.items ≡ [] }
        ensures text { result.text.items ≡ [] }
    {
        Ahead {
            pending: Vec::new(alloc),
            text: Vec::new(alloc),
        }
    }

    /// What is then to be read, and what is then said, where the item is given to what is to be read next. `Shape` where
    /// it does not go on with that item.
    pub fn after(alloc: Global, pending: &Pending, item: &Item) -> Result<Ahead, Stop>
        ensures { Finds (next (pending_of pending.now) (cell_of item.now)) result }
    {
        let mut ahead = Ahead::new(alloc);
        match pending {
            Pending::Whole(place) => {
                ahead.enter(alloc, &place.ty, place.port, place.brackets, item)?;
                Ok(ahead)
            }
            Pending::Second(place) => {
                ahead.say(b",")?;
                ahead.enter(alloc, &place.ty, place.port, place.brackets, item)?;
                Ok(ahead)
            }
            Pending::Further(flags) => match item {
                Item::Bool(false) => {
                    ahead.element(alloc, b",", &flags.item, flags.port, flags.brackets)?;
                    Ok(ahead)
                }
                Item::Bool(true) => {
                    ahead.finish(b"}", flags.brackets)?;
                    Ok(ahead)
                }
                _ => Err(Stop::Faulted(FaultKind::Shape)),
            },
        }
    }

    // What was last is to be read next.
    fn add(&mut self, pending: Pending) -> Result<(), AllocError>
        ensures pending { OnOk result (self.new.pending.items ≡
            self.old.pending.items ++ pending ∷ []) }
        ensures text { self.new.text.items ≡ self.old.text.items }
    {
        self.pending.push(pending)?;
        Ok(())
    }

    fn say(&mut self, bytes: &[u8]) -> Result<(), AllocError>
        ensures text { OnOk result (Says self.old bytes.now self.new) }
        ensures pending { self.new.pending.items ≡ self.old.pending.items }
    {
        self.text.extend_from_slice(bytes)
    }

    // The last text of a value, and the brackets closed after it.
    fn finish(&mut self, bytes: &[u8], brackets: usize) -> Result<(), AllocError>
        ensures text { OnOk result (Says self.old (bytes.now ++ closing_brackets brackets) self.new) }
        ensures pending { self.new.pending.items ≡ self.old.pending.items }
    {
        self.text.extend_from_slice(bytes)?;
        for _ in 0..brackets {
            self.text.push(b')')?;
        }
        Ok(())
    }

    // A text, and an element that is to be read, and further ones after it.
    fn element(
        &mut self,
        alloc: Global,
        bytes: &[u8],
        item: &Ty,
        port: usize,
        brackets: usize,
    ) -> Result<(), AllocError>
        requires { PortsFit (seq (ty_of item.now)) port brackets }
        ensures text { OnOk result (Says self.old bytes.now self.new) }
        ensures pending { OnOk result (ElementIsAhead self.old item.now port brackets self.new) }
    {
        self.say(bytes)?;
        let further = Flags {
            item: copy_ty(alloc, item)?,
            port,
            brackets,
        };
        self.add(Pending::Further(further))?;
        let element = Place {
            ty: copy_ty(alloc, item)?,
            port: port + 1,
            brackets: 0,
        };
        self.add(Pending::Whole(element))
    }

    // The first item of a value: what is then to be read of it, and the text before that. `Shape` where no value of the
    // type begins with the item.
    fn enter(
        &mut self,
        alloc: Global,
        ty: &Ty,
        port: usize,
        brackets: usize,
        item: &Item,
    ) -> Result<(), Stop>
        requires { PortsFit (ty_of ty.now) port brackets }
        ensures { LeadsAhead (entered_item ty.now port brackets item.now) result self.old self.new }
    {
        match (ty, item) {
            (Ty::Int, Item::Int(number)) => {
                let said = text_of(alloc, &Datum::Int(*number))?;
                self.finish(&said, brackets)?;
                Ok(())
            }
            (Ty::Bool, Item::Bool(true)) => {
                self.finish(b"true", brackets)?;
                Ok(())
            }
            (Ty::Bool, Item::Bool(false)) => {
                self.finish(b"false", brackets)?;
                Ok(())
            }
            (Ty::Vec(element), Item::Vec(elements)) => {
                if !are_elements(element, elements) {
                    return Err(Stop::Faulted(FaultKind::Shape));
                }
                let vector = Datum::Vec(elements.share()?);
                let said = text_of(alloc, &vector)?;
                self.finish(&said, brackets)?;
                Ok(())
            }
            (Ty::Vec(element), Item::Typed(typed)) => {
                if !is_typed(element, typed) {
                    return Err(Stop::Faulted(FaultKind::Shape));
                }
                let vector = Datum::Vec(typed.elements.share()?);
                let said = text_of(alloc, &vector)?;
                self.finish(&said, brackets)?;
                Ok(())
            }
            (Ty::Pair(first, second), _) => {
                self.say(b"(")?;
                let place = Place {
                    ty: copy_ty(alloc, second)?,
                    port: port + edge_count(first),
                    brackets: brackets + 1,
                };
                self.add(Pending::Second(place))?;
                self.enter(alloc, first, port, 0, item)
            }
            (Ty::Seq(element), Item::Bool(false)) => {
                self.element(alloc, b"{", element, port, brackets)?;
                Ok(())
            }
            (Ty::Seq(_), Item::Bool(true)) => {
                self.finish(b"{}", brackets)?;
                Ok(())
            }
            _ => Err(Stop::Faulted(FaultKind::Shape)),
        }
    }
}
