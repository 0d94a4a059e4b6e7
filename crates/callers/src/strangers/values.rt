// Types, values, faults, refusals and texts.
use snesl_values::{
    Builder, Counted, Datum, Dialect, Elements, Fault, FaultKind, InputError, Inputs, Refusal, Ty,
    read_inputs, text_of,
};
use std::alloc::{AllocError, Global};
use std::io::{self, Read, Write};

/// Whether the type may stand where a concrete one must.
pub fn is_concrete(ty: &Ty) -> bool {
    ty.concrete()
}

/// One type of each form.
pub fn types(alloc: Global) -> Result<Ty, AllocError> {
    let pair = Ty::Pair(Box::new(alloc, Ty::Int)?, Box::new(alloc, Ty::Bool)?);
    let vector = Ty::Vec(Box::new(alloc, pair)?);
    Ok(Ty::Seq(Box::new(alloc, vector)?))
}

/// The text of a sequence of a pair.
pub fn text_of_pairs(alloc: Global) -> Result<Vec<u8>, AllocError> {
    let pair = Datum::Pair(
        Box::new(alloc, Datum::Int(7))?,
        Box::new(alloc, Datum::Bool(true))?,
    );
    let mut items = Vec::new(alloc);
    items.push(pair)?;
    text_of(alloc, &Datum::Seq(items))
}

/// The elements of a vector of these two.
pub fn two_elements(alloc: Global, first: Datum, second: Datum) -> Result<Elements, AllocError> {
    let mut builder = Builder::Empty;
    builder.push(alloc, first)?;
    builder.push(alloc, second)?;
    match builder.finish(alloc) {
        Ok(elements) => Ok(elements),
        Err(_) => Err(AllocError),
    }
}

/// The text of the vector of these elements, and how many there are.
pub fn vector_told(alloc: Global, elements: &Elements) -> Result<(Vec<u8>, usize), AllocError> {
    let vector = Datum::Vec(elements.share()?);
    Ok((text_of(alloc, &vector)?, elements.len()))
}

/// The first element, if there is one, and all of them.
pub fn elements_copied(
    alloc: Global,
    elements: &Elements,
) -> Result<(Option<Datum>, Vec<Datum>), AllocError> {
    Ok((elements.at(alloc, 0)?, elements.data(alloc)?))
}

/// The number and the place of a fault.
pub fn fault_told(fault: Fault) -> (u8, usize) {
    (fault.kind.number(), fault.at)
}

/// The kinds of faults.
pub fn kinds_of_faults() -> [FaultKind; 9] {
    [
        FaultKind::Divide,
        FaultKind::Overflow,
        FaultKind::NegativeCount,
        FaultKind::Length,
        FaultKind::Part,
        FaultKind::The,
        FaultKind::EmptyMax,
        FaultKind::Index,
        FaultKind::Shape,
    ]
}

/// The number and the offset of a refusal.
pub fn refusal_told(refusal: &Refusal) -> (u8, Option<usize>) {
    (refusal.number(), refusal.at())
}

/// The values of the declared inputs.
pub fn inputs_of(
    alloc: Global,
    decls: &[(Vec<u8>, Ty)],
    bytes: &[u8],
) -> Result<Inputs, InputError> {
    read_inputs(Dialect::One, alloc, decls, bytes)
}

/// Where an input text is refused, if it is.
pub fn refused_at(error: &InputError) -> Option<usize> {
    match error {
        InputError::Bad(at) => Some(*at),
        InputError::NoMemory => None,
    }
}

/// How many calls failed while a part of what a reader has was read.
pub fn failures_of_reads<R: Read>(reader: R, bytes: &mut [u8]) -> (R, u64) {
    let mut counted = Counted::new(reader);
    let _ = counted.read(bytes);
    let failures = counted.failures();
    (counted.into_inner(), failures)
}

/// How many bytes a counted writer took.
pub fn written<W: Write>(out: &mut Counted<W>, bytes: &[u8]) -> io::Result<usize> {
    out.write(bytes)
}
