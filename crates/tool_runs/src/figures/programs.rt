// The programs that are timed.

use std::alloc::{AllocError, Global};

/// A program of which each run goes over so many elements.
#[derive(Drop)]
pub struct Program {
    pub name: &'static str,
    pub text: String,
    pub count: u64,
}

/// A sum of squares.
pub fn squares(alloc: Global, count: u64) -> Result<Program, AllocError> {
    Ok(Program {
        name: "squares",
        text: format!(in alloc; "reduce_add({{x * x : x in iota({count})}})")?,
        count,
    })
}

/// Eight sums that do not depend on one another, each over an eighth of the elements.
pub fn wide(alloc: Global, count: u64) -> Result<Program, AllocError> {
    let part = count / 8;
    let mut text = String::new(alloc);
    for k in 0..8 {
        if k > 0 {
            text.push_str(" + ")?;
        }
        let sum = format!(in alloc; "reduce_add({{x * x + {k} : x in iota({part})}})")?;
        text.push_str(sum.as_str())?;
    }
    Ok(Program {
        name: "wide",
        text,
        count,
    })
}

/// Twenty comprehensions one after another.
pub fn deep(alloc: Global, count: u64) -> Result<Program, AllocError> {
    let mut text = format!(in alloc; "iota({count})")?;
    for _ in 0..20 {
        text = format!(in alloc; "{{x + 1 : x in {text}}}")?;
    }
    Ok(Program {
        name: "deep",
        text: format!(in alloc; "reduce_add({text})")?,
        count,
    })
}
