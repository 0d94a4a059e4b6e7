// The end of the streams of a value: its text.

ghost use Rattle.std.specs.Prelude.{◌≡◌, false, [], ◌∷◌, ◌++◌, List, IfOk, OnOk, OnErr, IsOk};
ghost use Rattle.snesl_data.specs.Types.{ty_of};
ghost use Rattle.flow_values.specs.Shapes.{kinds_of};
ghost use Rattle.flow_values.specs.PrintMachine.{print_opening, print_behaviour};
ghost use Rattle.flow_base.specs.Impls.{KeepsState, StandsAsOpened, WritesAs, takes_memory_at};
ghost use Rattle.flow_values.specs.laws.Print.{PrintsText};

use crate::ahead::Ahead;
use crate::pending::{Pending, Place};
use crate::shapes::{kind_at, kinds};
use flow_base::{Port, Side, Stop, Transducer};
use flow_messages::{Item, Kind, Msg};
use kahn::Want;
use snesl_data::{Fault, FaultKind, Ty, copy_ty};
use std::alloc::{AllocError, Global};

/// Reads one value of a type, item by item in the order of its text, and keeps the text. Then each input has to end, in
/// the order of the ports. It writes nothing.
///
/// Its inputs are the edges of the type. Fault: `Shape` where an item is not the next one of such a value, and where an
/// input ends inside the value or does not end after it.
///
/// The text grows with each item, which takes memory; where it is refused, the transducer is unchanged.
///
/// Row: `PrintRow` (specs/Rows.antt).
#[derive(Drop)]
pub struct Print {
    alloc: Global,
    ty: Ty,
    kinds: Vec<Kind>,
    // What is still to be read, the next as the last.
    pending: Vec<Pending>,
    text: Vec<u8>,
    // Where nothing is still to be read, the end of this input comes next, if there is one.
    closing: usize,
    stuck: bool,
    at: usize,
    ghost edges: { kinds.items ≡ kinds_of (ty_of ty) },
}

impl Print {
    ghost use Rattle.flow_values.specs.PrintSteps.{PrintAdvances, PrintLooksAhead};

    /// Before the value. Its faults are at this place, a byte offset in the program text. Its only error is that memory
    /// was refused.
    pub fn new(alloc: Global, ty: Ty, at: usize) -> Result<Print, AllocError>
        ensures { IfOk result (λ print. ⟦<Print as Transducer>⟧.state print ≡
            print_opening (ty_of ty) at) }
    {
        let kinds = kinds(alloc, &ty)?;
        let mut pending = Vec::new(alloc);
        let place = Place {
            ty: copy_ty(alloc, &ty)?,
            port: 0,
            brackets: 0,
        };
        pending.push(Pending::Whole(place))?;
        Ok(Print {
            alloc,
            ty,
            kinds,
            pending,
            text: Vec::new(alloc),
            closing: 0,
            stuck: false,
            at,
        })
    }

    /// The type of the value.
    pub fn ty(&self) -> &Ty
        ensures { ty_of result.now ≡ (⟦<Print as Transducer>⟧.state self.now).ty }
    {
        &self.ty
    }

    /// The text so far: where the transducer has ended, the text of the value.
    pub fn text(&self) -> &[u8]
        ensures { result.now ≡ (⟦<Print as Transducer>⟧.state self.now).text }
    {
        &self.text
    }

    // What comes in place of what is to be read next, where this is its next item. `Shape` where it is not.
    fn ahead(&self, item: &Item) -> Result<Ahead, Stop>
        requires { self.now.stuck ≡ false }
        ensures { PrintLooksAhead self.now item.now result }
    {
        match self.pending.last() {
            Some(pending) => {
                if self.kind_in(pending.port()).fits(item) {
                    Ahead::after(self.alloc, pending, item)
                } else {
                    Err(Stop::Faulted(FaultKind::Shape))
                }
            }
            None => Err(Stop::Faulted(FaultKind::Shape)),
        }
    }

    // What was to be read next is done, and this comes in its place.
    fn advance(&mut self, ahead: Ahead) -> Result<(), AllocError>
        requires { self.old.stuck ≡ false }
        ensures ok { OnOk result (PrintAdvances self.old ahead self.new) }
        ensures err { OnErr result (KeepsState ⟦<Print as Transducer>⟧ self.old self.new) }
    {
        let mut pending = ahead.pending;
        self.pending.reserve(pending.len())?;
        self.text.extend_from_slice(&ahead.text)?;
        self.pending.pop();
        self.pending.append(&mut pending)?;
        self.closing = 0;
        Ok(())
    }

    fn fault(&self) -> Want
        ensures { result ≡ Want.Faulted (record { kind = FaultKind.Shape; at = self.now.at }) }
    {
        Want::Faulted(Fault {
            kind: FaultKind::Shape,
            at: self.at,
        })
    }
}

impl Transducer for Print {
    ghost use Rattle.flow_values.specs.PrintMachine.{PrintState};
    ghost use Rattle.flow_values.specs.laws.Print.{print_laws};
    ghost use Rattle.flow_values.specs.Aheads.{state_in};

    ghost State = { PrintState };

    ghost state = { λ n. state_in
        (ty_of n.ty) n.pending.items n.text.items n.closing n.stuck n.at };

    ghost behaviour = { print_behaviour };

    ghost laws = { print_laws };

    fn want(&self) -> Want {
        if self.stuck {
            return self.fault();
        }
        match self.pending.last() {
            Some(pending) => {
                let port = pending.port();
                if port < self.kinds.len() {
                    Want::Read(port)
                } else {
                    self.fault()
                }
            }
            None => {
                if self.closing < self.kinds.len() {
                    Want::Read(self.closing)
                } else {
                    Want::Ended
                }
            }
        }
    }

    fn port(&self, side: Side, number: usize) -> Port {
        match side {
            Side::In => Port {
                count: self.kinds.len(),
                kind: kind_at(&self.kinds, number),
            },
            Side::Out => Port {
                count: 0,
                kind: Kind::Unit,
            },
        }
    }

    fn give(&mut self, _port: usize, message: Msg) -> Result<(), AllocError> {
        match message {
            Msg::Item(item) => match self.ahead(&item) {
                Ok(ahead) => self.advance(ahead),
                Err(Stop::Faulted(_)) => {
                    self.stuck = true;
                    Ok(())
                }
                Err(Stop::OutOfMemory) => Err(AllocError),
            },
            Msg::End => {
                if !self.pending.is_empty() {
                    self.stuck = true;
                    return Ok(());
                }
                if self.closing < self.kinds.len() {
                    self.closing += 1;
                }
                Ok(())
            }
        }
    }

    fn emit(&mut self) -> Result<Msg, AllocError>
        ensures ok { IfOk result (λ m. WritesAs ⟦<Print as Transducer>⟧ self.old m self.new) }
        ensures err { OnErr result (KeepsState ⟦<Print as Transducer>⟧ self.old self.new) }
        ensures sure { takes_memory_at ⟦<Print as Transducer>⟧ self.old ≡ false → IsOk result }
    {
        Ok(Msg::End)
    }
}

/// A law and no code to run: where a transducer has ended that was opened as this one, it read one value of its type, and
/// its text is the text of that value.
pub fn prints_text(opened: &Print)
    requires { StandsAsOpened ⟦<Print as Transducer>⟧ opened.now }
    ensures { PrintsText (⟦<Print as Transducer>⟧.state opened.now) }
{}
