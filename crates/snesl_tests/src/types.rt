// Types: whether they are concrete, and whether two are the same.

use snesl_data::{Refusal, Ty, copy_ty};
use snesl_syntax::{Program, parse};
use snesl_types::check;
use std::alloc::Global;
use std::test::Fail;

// Inputs of six types.
const SIX: &[u8] = b"\
input a : int;
input b : [int];
input c : (bool, [int]);
input d : {int};
input e : {(bool, [int])};
input f : (int, {(bool, [int])});
1";

// Whether a type and its copy are concrete.
fn are_concrete(alloc: Global, ty: &Ty) -> Result<(bool, bool), Refusal> {
    let copy = copy_ty(alloc, ty)?;
    Ok((ty.concrete(), copy.concrete()))
}

// Two types, by their numbers, that are the same or not though they are to be otherwise, or one that is concrete or not though it is
// to be otherwise. The first three are concrete, and no others, and no two are the same.
fn first_wrong(alloc: Global, decls: &[(Vec<u8>, Ty)]) -> Result<Option<(usize, usize)>, Refusal> {
    for (number, (_, ty)) in decls.iter().enumerate() {
        if are_concrete(alloc, ty)? != (number < 3, number < 3) {
            return Ok(Some((number, number)));
        }
        for (other, (_, another)) in decls.iter().enumerate() {
            if ty.is(another) != (number == other) {
                return Ok(Some((number, other)));
            }
        }
    }
    Ok(None)
}

// How many types of inputs a program has, and the first that are not as they are to be.
fn told_of(alloc: Global, program: &Program) -> Result<(usize, Option<(usize, usize)>), Refusal> {
    let typed = check(alloc, program)?;
    Ok((typed.decls().len(), first_wrong(alloc, typed.decls())?))
}

#[test]
fn six_types(rt: HostRuntime) -> Result<(), Fail> {
    let told = told_of(rt.alloc(), &parse(rt.alloc(), SIX)?)?;
    assert_eq!(rt; told, (6, None));
    Ok(())
}
