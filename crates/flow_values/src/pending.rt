// What is still to be read of a value that is printed.

ghost use Rattle.snesl_data.specs.Types.{ty_of, seq};
ghost use Rattle.flow_values.specs.Places.{PortsFit};

use snesl_data::Ty;

/// The edges of a type from a port on, and the brackets that are closed after a value that comes there.
#[derive(Drop)]
pub struct Place {
    pub ty: Ty,
    pub port: usize,
    pub brackets: usize,
    ghost fits: { PortsFit (ty_of ty) port brackets },
}

/// The flags of a sequence at a port, the type of its elements, and the brackets that are closed after it.
#[derive(Drop)]
pub struct Flags {
    pub item: Ty,
    pub port: usize,
    pub brackets: usize,
    ghost fits: { PortsFit (seq (ty_of item)) port brackets },
}

/// What is still to be read of a value.
#[derive(Drop)]
pub enum Pending {
    /// A value.
    Whole(Place),
    /// A value after a comma.
    Second(Place),
    /// Further elements of a sequence.
    Further(Flags),
}

impl Pending {
    ghost use Rattle.std.specs.Prelude.{◌≡◌};
    ghost use Rattle.flow_values.specs.PrintMachine.{port_of};
    ghost use Rattle.flow_values.specs.Aheads.{pending_of};

    /// The port at which the next item comes.
    pub fn port(&self) -> usize
        ensures { result ≡ port_of (pending_of self.now) }
    {
        match self {
            Pending::Whole(place) | Pending::Second(place) => place.port,
            Pending::Further(flags) => flags.port,
        }
    }
}
