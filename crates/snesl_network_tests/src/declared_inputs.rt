// Inputs, and the declarations for which they were read. What texts spell stands in the tables of `tool_runs`.

use snesl_data::{Datum, Dialect, Refusal, Ty};
use snesl_evaluation::evaluate;
use snesl_syntax::{Program, parse};
use snesl_types::check;
use snesl_values::{Inputs, read_inputs};
use std::alloc::{AllocError, Global};
use std::test::Fail;

/// The inputs of a program, from their text.
pub fn inputs_of(alloc: Global, program: &[u8], text: &[u8]) -> Result<Inputs, Refusal> {
    let program = parse(alloc, program)?;
    inputs_for(alloc, &program, text)
}

fn inputs_for(alloc: Global, program: &Program, text: &[u8]) -> Result<Inputs, Refusal> {
    let typed = check(alloc, program)?;
    Ok(read_inputs(typed.dialect(), alloc, typed.decls(), text)?)
}

// Whether a program takes the inputs.
fn takes(alloc: Global, program: &[u8], inputs: &Inputs) -> Result<bool, Refusal> {
    let program = parse(alloc, program)?;
    Ok(check(alloc, &program)?.fits(inputs))
}

// Whether the inputs of a text for a program fit this program and another one.
fn fit_both(
    alloc: Global,
    (program, text): (&[u8], &[u8]),
    other: &[u8],
) -> Result<(bool, bool), Refusal> {
    let inputs = inputs_of(alloc, program, text)?;
    Ok((
        takes(alloc, program, &inputs)?,
        takes(alloc, other, &inputs)?,
    ))
}

#[test]
fn inputs_fit_their_program_alone(rt: HostRuntime) -> Result<(), Fail> {
    // A program and an input text for it, and a program of other declarations or of the other dialect.
    let rows: [(&[u8], &[u8], &[u8]); 7] = [
        (b"input s : {int}; s", b"s = {}", b"input s : {bool}; s"),
        (b"input s : {bool}; s", b"s = {}", b"input s : {int}; s"),
        (
            b"input a : int; input b : int; a",
            b"a = 1; b = 2",
            b"input b : int; input a : int; a",
        ),
        (b"input n : int; n", b"n = 3", b"1"),
        (b"1", b" \t\r\n", b"input n : int; input v : [bool]; n"),
        (
            b"input n : int; n",
            b"n = 3",
            b"dialect 2; input n : int; n",
        ),
        (b"dialect 2; 1", b"", b"1"),
    ];
    for (program, text, other) in rows {
        assert_eq!(rt;
            fit_both(rt.alloc(), (program, text), other)?,
            (true, false)
        );
    }
    Ok(())
}

// The value of the input of this number, if it is there and is an integer.
fn value_at(alloc: Global, inputs: &Inputs, number: usize) -> Result<Option<i128>, AllocError> {
    if number >= inputs.len() {
        return Ok(None);
    }
    match inputs.datum(alloc, number)? {
        Datum::Int(value) => Ok(Some(value)),
        _ => Ok(None),
    }
}

// What a name means where the inputs are in scope, if it is bound there and is an integer.
fn value_named(alloc: Global, inputs: &Inputs, name: &[u8]) -> Result<Option<i128>, Refusal> {
    let program = parse(alloc, name)?;
    match evaluate(alloc, &program, inputs)? {
        Ok(Datum::Int(value)) => Ok(Some(value)),
        _ => Ok(None),
    }
}

// What inputs are in order: how many they and their declarations are and whether there are none, the values of the first two, whether
// the second is named so, and whether there is no third.
type InOrder = ((usize, usize, bool), [Option<i128>; 2], (bool, bool));

fn in_order(alloc: Global, inputs: &Inputs, name: &[u8]) -> Result<InOrder, AllocError> {
    let counts = (inputs.len(), inputs.decls().len(), inputs.is_empty());
    let values = [value_at(alloc, inputs, 0)?, value_at(alloc, inputs, 1)?];
    let is_named = inputs.name(1) == Some(name);
    let ends = inputs.name(2).is_none() && inputs.place(2).is_none();
    Ok((counts, values, (is_named, ends)))
}

// What each of three names means where the inputs are in scope.
fn by_name(alloc: Global, inputs: &Inputs) -> Result<[Option<i128>; 3], Refusal> {
    Ok([
        value_named(alloc, inputs, b"n")?,
        value_named(alloc, inputs, b"nn")?,
        value_named(alloc, inputs, b"m")?,
    ])
}

// The declaration of an integer.
fn declared(alloc: Global, name: &[u8]) -> Result<(Vec<u8>, Ty), AllocError> {
    Ok((name.to_vec(alloc)?, Ty::Int))
}

// What the name of two inputs means.
fn first_of_two(alloc: Global) -> Result<Option<i128>, Refusal> {
    let decls = vec![in alloc; declared(alloc, b"n")?, declared(alloc, b"n")?]?;
    let inputs = read_inputs(Dialect::Two, alloc, &decls, b"n = 1; n = 2")?;
    value_named(alloc, &inputs, b"n")
}

#[test]
fn names(rt: HostRuntime) -> Result<(), Fail> {
    let first = first_of_two(rt.alloc())?;
    let program = b"input nn : int; input n : int; n".as_slice();
    let inputs = inputs_of(rt.alloc(), program, b"nn = 5; n = 3")?;
    let told = (
        in_order(rt.alloc(), &inputs, b"n")?,
        by_name(rt.alloc(), &inputs)?,
        first,
    );
    let order = ((2, 2, false), [Some(5), Some(3)], (true, true));
    assert_eq!(rt; told, (order, [Some(3), Some(5), None], Some(1)));
    Ok(())
}
