// The types of the results of built-in functions.

ghost use Rattle.std.specs.Prelude.{◌≡◌, [], ◌∷◌, map};
ghost use Rattle.snesl_data.specs.Types.{ty_of, int, bool, pair, vec, seq};
ghost use Rattle.snesl_grammar.specs.declared.tree.operator.Builtin.TheVariants.{Tab};
ghost use Rattle.snesl_types.specs.Verdicts.{IsType, of_builtin};

use crate::forms::sequence_of;
use snesl_data::{Refusal, Ty, copy_ty};
use snesl_grammar::tree::Builtin;
use std::alloc::Global;

// The type of a built-in's result.
pub(crate) fn builtin_type(
    alloc: Global,
    at: usize,
    function: Builtin,
    arguments: &[Ty],
) -> Result<Ty, Refusal>
    ensures { IsType (of_builtin at function (map ty_of arguments.now)) result }
{
    match arguments {
        [source, flags] => part_type(alloc, at, function, source, flags),
        [Ty::Int] => count_type(alloc, at, function),
        [Ty::Pair(first, second)] => component_type(alloc, at, function, first, second),
        [Ty::Vec(item)] => vector_type(alloc, at, function, item),
        [Ty::Seq(item)] => sequence_type(alloc, at, function, item),
        _ => Err(Refusal::Mismatch(at)),
    }
}

// A function of two arguments.
fn part_type(
    alloc: Global,
    at: usize,
    function: Builtin,
    source: &Ty,
    flags: &Ty,
) -> Result<Ty, Refusal>
    ensures { IsType (of_builtin at function (ty_of source.now ∷ ty_of flags.now ∷ [])) result }
{
    match (function, source, flags) {
        (Builtin::Part, Ty::Seq(_), Ty::Seq(flag)) if flag.is(&Ty::Bool) => {
            let part = copy_ty(alloc, source)?;
            sequence_of(alloc, part)
        }
        _ => Err(Refusal::Mismatch(at)),
    }
}

// A function of an integer.
fn count_type(alloc: Global, at: usize, function: Builtin) -> Result<Ty, Refusal>
    ensures { IsType (of_builtin at function (int ∷ [])) result }
{
    match function {
        Builtin::Iota => sequence_of(alloc, Ty::Int),
        _ => Err(Refusal::Mismatch(at)),
    }
}

// A function of a pair.
fn component_type(
    alloc: Global,
    at: usize,
    function: Builtin,
    first: &Ty,
    second: &Ty,
) -> Result<Ty, Refusal>
    ensures { IsType (of_builtin at function (pair (ty_of first.now) (ty_of second.now) ∷ [])) result }
{
    match function {
        Builtin::Fst => Ok(copy_ty(alloc, first)?),
        Builtin::Snd => Ok(copy_ty(alloc, second)?),
        _ => Err(Refusal::Mismatch(at)),
    }
}

// A function of a vector.
fn vector_type(alloc: Global, at: usize, function: Builtin, item: &Ty) -> Result<Ty, Refusal>
    ensures { IsType (of_builtin at function (vec (ty_of item.now) ∷ [])) result }
{
    match function {
        Builtin::Seq => {
            let item = copy_ty(alloc, item)?;
            sequence_of(alloc, item)
        }
        _ => Err(Refusal::Mismatch(at)),
    }
}

// A function of a sequence.
fn sequence_type(alloc: Global, at: usize, function: Builtin, item: &Ty) -> Result<Ty, Refusal>
    ensures { IsType (of_builtin at function (seq (ty_of item.now) ∷ [])) result }
{
    match (function, item) {
        (Builtin::Length, _) => Ok(Ty::Int),
        (Builtin::The, _) => Ok(copy_ty(alloc, item)?),
        (Builtin::Tab, _) => table_type(alloc, at, item),
        (Builtin::Concat, Ty::Seq(_)) => Ok(copy_ty(alloc, item)?),
        (Builtin::ScanAdd, Ty::Int) => sequence_of(alloc, Ty::Int),
        (Builtin::ReduceAdd | Builtin::ReduceMax, Ty::Int) => Ok(Ty::Int),
        (Builtin::ReduceAnd | Builtin::ReduceOr, Ty::Bool) => Ok(Ty::Bool),
        _ => Err(Refusal::Mismatch(at)),
    }
}

// A sequence as a vector.
fn table_type(alloc: Global, at: usize, item: &Ty) -> Result<Ty, Refusal>
    ensures { IsType (of_builtin at Tab (seq (ty_of item.now) ∷ [])) result }
{
    if item.concrete() {
        let item = copy_ty(alloc, item)?;
        Ok(Ty::Vec(Box::new(alloc, item)?))
    } else {
        Err(Refusal::Streamed(at))
    }
}
