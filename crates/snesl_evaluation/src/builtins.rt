// Built-in functions at data.

ghost use Rattle.std.specs.Prelude.{◌∷◌, [], map};
ghost use Rattle.snesl_data.specs.Values.{value_of};
ghost use Rattle.snesl_grammar.specs.declared.tree.operator.Builtin.TheVariants as builtin;
ghost use Rattle.snesl_evaluation.specs.Answer.{go};
ghost use Rattle.snesl_evaluation.specs.Builtins.{applied, elements_at, int_at, iota_answer, items_at, part_answer, reduce_answer, scan_answer, the_answer};
ghost use Rattle.snesl_evaluation.specs.Results.{Answers};
ghost use Rattle.snesl_evaluation.specs.Data.{AnswersBuiltin, joined_answer, sequence_answer, vector_answer};

use crate::halt::{Halt, fault};
use crate::operators::scalar_result;
use crate::parts::{elements, integer, items, sequence_of, vector_of};
use crate::sequences::{
    add_copies, count_up, integers, joined, parts, reduce, scalars, scan_add, truths,
};
use snesl_data::operators::Reduction;
use snesl_data::{Datum, Dialect, FaultKind, copy_datum};
use snesl_grammar::tree::Builtin;
use std::alloc::Global;

// A built-in at its arguments.
#[inline(never)]
pub fn apply(
    dialect: Dialect,
    alloc: Global,
    at: usize,
    function: Builtin,
    arguments: &[Datum],
) -> Result<Datum, Halt>
    ensures { Answers value_of result (applied dialect at function (map value_of arguments.now)) }
{
    match (function, arguments) {
        (Builtin::Iota, [count]) => iota(alloc, at, count),
        (Builtin::ScanAdd, [sequence]) => scan(dialect, alloc, at, sequence),
        (Builtin::ReduceAdd, [sequence]) => reduction(dialect, alloc, at, Reduction::Sum, sequence),
        (Builtin::ReduceMax, [sequence]) => reduction(dialect, alloc, at, Reduction::Max, sequence),
        (Builtin::ReduceAnd, [sequence]) => reduction(dialect, alloc, at, Reduction::All, sequence),
        (Builtin::ReduceOr, [sequence]) => reduction(dialect, alloc, at, Reduction::Any, sequence),
        (Builtin::Length, [sequence]) => length(dialect, at, sequence),
        (Builtin::Concat, [sequence]) => concat(alloc, at, sequence),
        (Builtin::Part, [sequence, flags]) => part(alloc, at, sequence, flags),
        (Builtin::The, [sequence]) => the(alloc, at, sequence),
        (Builtin::Tab, [sequence]) => tab(alloc, at, sequence),
        (Builtin::Seq, [vector]) => seq(alloc, at, vector),
        (Builtin::Fst, [pair]) => fst(alloc, at, pair),
        (Builtin::Snd, [pair]) => snd(alloc, at, pair),
        _ => Err(fault(FaultKind::Shape, at)),
    }
}

// A count that no machine's memory has room for is refused at once.
fn iota(alloc: Global, at: usize, count: &Datum) -> Result<Datum, Halt>
    ensures { Answers value_of result (go (int_at at (value_of count.now)) (iota_answer at)) }
{
    let n = integer(at, count)?;
    if n < 0 {
        return Err(fault(FaultKind::NegativeCount, at));
    }
    match usize::try_from(n) {
        Ok(n) => Ok(sequence_of(count_up(alloc, n)?)),
        Err(_) => Err(Halt::NoMemory),
    }
}

fn scan(dialect: Dialect, alloc: Global, at: usize, sequence: &Datum) -> Result<Datum, Halt>
    ensures { Answers value_of result (scan_answer dialect at (value_of sequence.now)) }
{
    let all = items(at, sequence)?;
    let numbers = integers(alloc, at, all)?;
    let sums = scan_add(dialect, alloc, at, &numbers)?;
    Ok(sequence_of(sums))
}

fn reduction(
    dialect: Dialect,
    alloc: Global,
    at: usize,
    reduction: Reduction,
    sequence: &Datum,
) -> Result<Datum, Halt>
    ensures { Answers value_of result (reduce_answer dialect at reduction (value_of sequence.now)) }
{
    let all = items(at, sequence)?;
    let read = scalars(alloc, at, all)?;
    scalar_result(at, reduce(dialect, reduction, &read))
}

fn length(dialect: Dialect, at: usize, sequence: &Datum) -> Result<Datum, Halt>
    ensures { Answers value_of result (applied dialect at builtin.Length
        (value_of sequence.now ∷ [])) }
{
    let all = items(at, sequence)?;
    let n = all.len() as i128;
    if dialect.has(n) {
        Ok(Datum::Int(n))
    } else {
        Err(fault(FaultKind::Overflow, at))
    }
}

fn concat(alloc: Global, at: usize, sequence: &Datum) -> Result<Datum, Halt>
    ensures { Answers value_of result (go (items_at at (value_of sequence.now)) (joined_answer at)) }
{
    let all = items(at, sequence)?;
    let values = joined(alloc, at, all)?;
    Ok(sequence_of(values))
}

fn part(alloc: Global, at: usize, sequence: &Datum, flags: &Datum) -> Result<Datum, Halt>
    ensures { Answers value_of result (part_answer at (value_of sequence.now)
        (value_of flags.now)) }
{
    let all = items(at, sequence)?;
    let ends = items(at, flags)?;
    let ends = truths(alloc, at, ends)?;
    let values = parts(alloc, at, all, &ends)?;
    Ok(sequence_of(values))
}

// The one item.
fn the(alloc: Global, at: usize, sequence: &Datum) -> Result<Datum, Halt>
    ensures { Answers value_of result (go (items_at at (value_of sequence.now)) (the_answer at)) }
{
    let all = items(at, sequence)?;
    match all {
        [one] => Ok(copy_datum(alloc, one)?),
        _ => Err(fault(FaultKind::The, at)),
    }
}

fn tab(alloc: Global, at: usize, sequence: &Datum) -> Result<Datum, Halt>
    ensures { Answers value_of result (go (items_at at (value_of sequence.now)) vector_answer) }
{
    let all = items(at, sequence)?;
    let mut values = Vec::with_capacity(alloc, all.len())?;
    add_copies(alloc, &mut values, all)?;
    Ok(vector_of(alloc, values)?)
}

fn seq(alloc: Global, at: usize, vector: &Datum) -> Result<Datum, Halt>
    ensures { Answers value_of result (go (elements_at at (value_of vector.now)) sequence_answer) }
{
    let all = elements(at, vector)?;
    let values = all.data(alloc)?;
    Ok(sequence_of(values))
}

fn fst(alloc: Global, at: usize, pair: &Datum) -> Result<Datum, Halt>
    ensures { AnswersBuiltin at builtin.Fst pair.now result }
{
    match pair {
        Datum::Pair(first, _) => Ok(copy_datum(alloc, first)?),
        _ => Err(fault(FaultKind::Shape, at)),
    }
}

fn snd(alloc: Global, at: usize, pair: &Datum) -> Result<Datum, Halt>
    ensures { AnswersBuiltin at builtin.Snd pair.now result }
{
    match pair {
        Datum::Pair(_, second) => Ok(copy_datum(alloc, second)?),
        _ => Err(fault(FaultKind::Shape, at)),
    }
}
