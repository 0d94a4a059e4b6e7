// Types.

ghost use Rattle.std.specs.Prelude.{◌≡◌, IfOk};
ghost use Rattle.snesl_data.specs.Types.{ty_of, is_concrete, is_same};

use std::alloc::{AllocError, Global};

/// A type of the language: integers, truth values, pairs, vectors (materialised) and sequences
/// (which may be streamed). A vector holds no sequence.
///
/// The split of sequences from vectors is this project's profile of Streaming NESL (Madsen and
/// Filinski, FHPC 2013).
#[derive(Debug, Drop)]
pub enum Ty {
    Int,
    Bool,
    Pair(Box<Ty>, Box<Ty>),
    Vec(Box<Ty>),
    Seq(Box<Ty>),
}

impl Ty {
    /// Whether no sequence occurs in the type.
    pub fn concrete(&self) -> bool
        ensures { result ≡ is_concrete (ty_of self.now) }
    {
        match self {
            Ty::Int | Ty::Bool => true,
            Ty::Pair(first, second) => first.concrete() && second.concrete(),
            Ty::Vec(item) => item.concrete(),
            Ty::Seq(_) => false,
        }
    }

    /// Whether this is the same type as another.
    pub fn is(&self, other: &Ty) -> bool
        ensures { result ≡ is_same (ty_of self.now) (ty_of other.now) }
    {
        match (self, other) {
            (Ty::Int, Ty::Int) | (Ty::Bool, Ty::Bool) => true,
            (Ty::Pair(first, second), Ty::Pair(other, another)) => {
                first.is(other) && second.is(another)
            }
            (Ty::Vec(item), Ty::Vec(other)) | (Ty::Seq(item), Ty::Seq(other)) => item.is(other),
            _ => false,
        }
    }
}

/// The same type in memory of its own. Its only error is that memory was refused.
pub fn copy_ty(alloc: Global, ty: &Ty) -> Result<Ty, AllocError>
    ensures { IfOk result (λ copy. ty_of copy ≡ ty_of ty.now) }
{
    match ty {
        Ty::Int => Ok(Ty::Int),
        Ty::Bool => Ok(Ty::Bool),
        Ty::Pair(first, second) => {
            let first = copy_ty(alloc, first)?;
            let second = copy_ty(alloc, second)?;
            Ok(Ty::Pair(Box::new(alloc, first)?, Box::new(alloc, second)?))
        }
        Ty::Vec(item) => {
            let item = copy_ty(alloc, item)?;
            Ok(Ty::Vec(Box::new(alloc, item)?))
        }
        Ty::Seq(item) => {
            let item = copy_ty(alloc, item)?;
            Ok(Ty::Seq(Box::new(alloc, item)?))
        }
    }
}
