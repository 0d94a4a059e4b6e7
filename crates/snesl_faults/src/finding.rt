// What a search ends in.

ghost use Rattle.std.specs.Prelude.{◌≡◌};
ghost use Rattle.snesl_faults.specs.declared.finding.Stop.TheVariants.{GivenUp};

use snesl_data::{Datum, Elements, Fault};
use snesl_evaluation::Halt;
use std::alloc::{AllocError, AllocFailed};

/// A fault, and the values of the parts of the form that it stands at.
#[derive(Drop)]
pub(crate) struct Finding {
    pub fault: Fault,
    pub values: Vec<Datum>,
}

/// Why a search ends before its expression has a value: the form at fault is found, or it would take too much.
#[derive(Drop)]
pub(crate) enum Stop {
    Found(Finding),
    GivenUp,
}

impl From<AllocError> for Stop {
    ghost from_gives = { λ _ stop. stop ≡ GivenUp };

    fn from(_: AllocError) -> Stop {
        Stop::GivenUp
    }
}

impl<T: Drop> From<AllocFailed<T>> for Stop {
    ghost from_gives = { λ _ stop. stop ≡ GivenUp };

    fn from(_: AllocFailed<T>) -> Stop {
        Stop::GivenUp
    }
}

impl From<Halt> for Stop {
    ghost from_gives = { λ _ stop. stop ≡ GivenUp };

    fn from(_: Halt) -> Stop {
        Stop::GivenUp
    }
}

// Takes from what may be spent as many elements as a value holds, itself counted, and tells whether there are so many.
#[cycle(spend)]
pub(crate) fn spend(budget: &mut usize, datum: &Datum) -> bool {
    if *budget == 0 {
        return false;
    }
    *budget -= 1;
    match datum {
        Datum::Int(_) | Datum::Bool(_) => true,
        Datum::Pair(first, second) => spend(budget, first) && spend(budget, second),
        Datum::Vec(elements) => spend_elements(budget, elements),
        Datum::Seq(items) => spend_items(budget, items),
    }
}

#[cycle(spend)]
fn spend_elements(budget: &mut usize, elements: &Elements) -> bool {
    match elements {
        Elements::Ints(_) | Elements::Wides(_) | Elements::Bools(_) => {
            let count = elements.len();
            if *budget < count {
                return false;
            }
            *budget -= count;
            true
        }
        Elements::Others(all) => spend_items(budget, all),
    }
}

#[cycle(spend)]
fn spend_items(budget: &mut usize, items: &[Datum]) -> bool {
    for item in items {
        if !spend(budget, item) {
            return false;
        }
    }
    true
}
