// What names stand for.

ghost use Rattle.std.specs.Prelude.{◌≡◌, IfOk};
ghost use Rattle.snesl_translation.specs.Wires.{Bound};
ghost use Rattle.snesl_translation.specs.Translation.{is_bound, wires_named};
ghost use Rattle.snesl_translator.specs.steps.Views.{bindings_of, wires_of};
ghost use Rattle.snesl_translator.specs.scopes.Scopes.{LooksUp, bound_of};

use crate::steps::{Binding, Wires, copy_wires};
use snesl_data::Ty;
use std::alloc::{AllocError, Global};

/// What the names in scope stand for, the innermost first.
#[derive(Clone, Copy)]
pub enum Scope<'a> {
    Nothing,
    /// These bindings, of which the first hides others of its name, and after them another scope.
    Frame(&'a [Binding<'a>], &'a Scope<'a>),
}

/// The streams that a name stands for, in memory of their own; no typed program has a name that stands for nothing. The
/// error is that memory was refused.
pub fn look_up(alloc: Global, name: &[u8], scope: &Scope<'_>) -> Result<Wires, AllocError>
    ensures { IfOk result (λ wires. wires_of wires ≡ wires_named name.now (bound_of scope.now)) }
{
    match *scope {
        Scope::Nothing => Ok(Wires::Wire(Ty::Int, 0)),
        Scope::Frame(bindings, outer) => match find(name, bindings) {
            Some(wires) => copy_wires(alloc, wires),
            None => look_up(alloc, name, outer),
        },
    }
}

// The streams of the first binding of the name.
fn find<'a>(name: &[u8], bindings: &'a [Binding<'_>]) -> Option<&'a Wires>
    ensures { (outer : Bound) → LooksUp name.now bindings.now outer result }
{
    for binding in bindings {
        if name == binding.name {
            return Some(&binding.wires);
        }
    }
    None
}

// Whether there is a binding of the name.
pub fn is_bound(name: &[u8], bindings: &[Binding<'_>]) -> bool
    ensures { result ≡ is_bound name.now (bindings_of bindings.now) }
{
    for binding in bindings {
        if name == binding.name {
            return true;
        }
    }
    false
}
