// Refusals.

ghost use Rattle.std.specs.Prelude.{◌≡◌};
ghost use Rattle.snesl_data.specs.Refusals.{number_of_refusal, offset_of_refusal, is_of_the_system, status_of_refusal};

use std::alloc::{AllocError, AllocFailed};

/// Why a job was refused. An offset counts bytes from 0 in the program text, that of `BadInput` in
/// the input text.
#[derive(Clone, Copy, Debug, PartialEq, Eq)]
pub enum Refusal {
    /// The program is over 65,536 bytes.
    TooLong,
    /// No token begins here, or an integer literal starts here that is over the range.
    Lex(usize),
    /// The token here cannot continue a program, or the text ends before the program does.
    Syntax(usize),
    /// The program is nested deeper than 64.
    Deep,
    /// A name that is unbound here, or bound here for the second time.
    Name(usize),
    /// Types or argument counts that do not fit.
    Mismatch(usize),
    /// A streamed type where only a concrete one may stand.
    Streamed(usize),
    /// The input text is not lawful here.
    BadInput(usize),
    /// A size, a count or a graph is over its limit.
    TooBig,
    /// The command line or the configuration is not lawful.
    BadConfig,
    /// Memory was refused.
    NoMemory,
    /// The writer failed.
    Output,
    /// A thread's start was refused.
    NoThread,
    /// Standard input could not be read.
    Read,
    /// A ring told less than its capacity.
    Short,
}

impl Refusal {
    /// The number by which the refusal is printed, from 1 to 15.
    pub fn number(&self) -> u8
        ensures { result ≡ number_of_refusal self.now }
    {
        match self {
            Refusal::TooLong => 1,
            Refusal::Lex(_) => 2,
            Refusal::Syntax(_) => 3,
            Refusal::Deep => 4,
            Refusal::Name(_) => 5,
            Refusal::Mismatch(_) => 6,
            Refusal::Streamed(_) => 7,
            Refusal::BadInput(_) => 8,
            Refusal::TooBig => 9,
            Refusal::BadConfig => 10,
            Refusal::NoMemory => 11,
            Refusal::Output => 12,
            Refusal::NoThread => 13,
            Refusal::Read => 14,
            Refusal::Short => 15,
        }
    }

    /// The offset that the refusal names, if it has one.
    pub fn at(&self) -> Option<usize>
        ensures { result ≡ offset_of_refusal self.now }
    {
        match self {
            Refusal::Lex(at)
            | Refusal::Syntax(at)
            | Refusal::Name(at)
            | Refusal::Mismatch(at)
            | Refusal::Streamed(at)
            | Refusal::BadInput(at) => Some(*at),
            _ => None,
        }
    }

    /// Whether the system is at fault and not the job: true of 11 to 15. Such a refusal is said on
    /// standard error, any other on standard output.
    pub fn is_of_the_system(&self) -> bool
        ensures { result ≡ is_of_the_system self.now }
    {
        matches!(
            self,
            Refusal::NoMemory | Refusal::Output | Refusal::NoThread | Refusal::Read | Refusal::Short
        )
    }

    /// The exit status of a program that ends in the refusal: 4 where the system is at fault, else 1.
    pub fn status(&self) -> u8
        ensures { result ≡ status_of_refusal self.now }
    {
        if self.is_of_the_system() { 4 } else { 1 }
    }
}

impl From<AllocError> for Refusal {
    ghost use Rattle.snesl_data.specs.declared.refusal.Refusal.TheVariants.{NoMemory};

    ghost from_gives = { λ _ refusal. refusal ≡ NoMemory };

    fn from(_: AllocError) -> Self {
        Refusal::NoMemory
    }
}

impl<T: Drop> From<AllocFailed<T>> for Refusal {
    ghost use Rattle.snesl_data.specs.declared.refusal.Refusal.TheVariants.{NoMemory};

    ghost from_gives = { λ _ refusal. refusal ≡ NoMemory };

    fn from(_: AllocFailed<T>) -> Self {
        Refusal::NoMemory
    }
}
