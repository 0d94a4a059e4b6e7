// The streams of values.

ghost use Rattle.std.specs.Prelude.{◌≡◌, ◌+◌, ◌++◌, IfOk, OnOk};
ghost use Rattle.snesl_data.specs.Types.{ty_of};
ghost use Rattle.flow_values.specs.Flats.{width};
ghost use Rattle.snesl_translation.specs.Wires.{type_of_wires, numbers_of, wires_from, kind_of_type, stream_of, first_wires, second_wires, item_wires, two, segments};
ghost use Rattle.snesl_translator.specs.steps.Views.{wires_of};

use flow_messages::Kind;
use snesl_data::{Ty, copy_ty};
use std::alloc::{AllocError, Global};

/// The numbers of the streams that carry values of a type.
///
/// A scalar or a vector has one stream, a pair those of both parts, and a sequence a stream of flags and those
/// of its elements.
#[derive(Debug, Drop)]
pub enum Wires {
    /// The type, which is of a scalar or a vector, and the stream.
    Wire(Ty, usize),
    Two(Box<Wires>, Box<Wires>),
    /// The stream of flags, and the streams of the elements.
    Segments(usize, Box<Wires>),
}

/// A name and the streams that it stands for.
#[derive(Debug, Drop)]
pub struct Binding<'a> {
    pub name: &'a [u8],
    pub wires: Wires,
}

impl Wires {
    /// The stream of a scalar or a vector, and the flags of a sequence.
    pub fn stream(&self) -> usize
        ensures { result ≡ stream_of (wires_of self.now) }
    {
        match self {
            Wires::Wire(_, number) => *number,
            Wires::Two(_, _) => 0,
            Wires::Segments(flags, _) => *flags,
        }
    }

    /// The streams of the first part of a pair.
    pub fn first(&self) -> &Wires
        ensures { wires_of result.now ≡ first_wires (wires_of self.now) }
    {
        match self {
            Wires::Two(first, _) => first,
            _ => self,
        }
    }

    /// The streams of the second part of a pair.
    pub fn second(&self) -> &Wires
        ensures { wires_of result.now ≡ second_wires (wires_of self.now) }
    {
        match self {
            Wires::Two(_, second) => second,
            _ => self,
        }
    }

    /// The streams of the elements of a sequence.
    pub fn items(&self) -> &Wires
        ensures { wires_of result.now ≡ item_wires (wires_of self.now) }
    {
        match self {
            Wires::Segments(_, items) => items,
            _ => self,
        }
    }

    /// The type whose values the streams carry. The error is that memory was refused.
    pub fn ty(&self, alloc: Global) -> Result<Ty, AllocError>
        ensures { IfOk result (λ ty. ty_of ty ≡ type_of_wires (wires_of self.now)) }
    {
        match self {
            Wires::Wire(ty, _) => copy_ty(alloc, ty),
            Wires::Two(first, second) => {
                let first = first.ty(alloc)?;
                let second = second.ty(alloc)?;
                Ok(Ty::Pair(Box::new(alloc, first)?, Box::new(alloc, second)?))
            }
            Wires::Segments(_, items) => {
                let items = items.ty(alloc)?;
                Ok(Ty::Seq(Box::new(alloc, items)?))
            }
        }
    }

    /// The numbers of the streams, edge by edge of the type. The error is that memory was refused.
    pub fn numbers(&self, alloc: Global) -> Result<Vec<usize>, AllocError>
        ensures { IfOk result (λ numbers. numbers.items ≡ numbers_of (wires_of self.now)) }
    {
        let mut numbers = Vec::new(alloc);
        add_numbers(&mut numbers, self)?;
        Ok(numbers)
    }
}

fn add_numbers(numbers: &mut Vec<usize>, wires: &Wires) -> Result<(), AllocError>
    ensures { OnOk result (numbers.new.items ≡ numbers.old.items ++
        numbers_of (wires_of wires.now)) }
{
    match wires {
        Wires::Wire(_, number) => numbers.push(*number)?,
        Wires::Two(first, second) => {
            add_numbers(numbers, first)?;
            add_numbers(numbers, second)?;
        }
        Wires::Segments(flags, items) => {
            numbers.push(*flags)?;
            add_numbers(numbers, items)?;
        }
    }
    Ok(())
}

/// The same streams, in memory of their own. The error is that memory was refused.
pub fn copy_wires(alloc: Global, wires: &Wires) -> Result<Wires, AllocError>
    ensures { IfOk result (λ copy. wires_of copy ≡ wires_of wires.now) }
{
    match wires {
        Wires::Wire(ty, number) => {
            let ty = copy_ty(alloc, ty)?;
            Ok(Wires::Wire(ty, *number))
        }
        Wires::Two(first, second) => {
            let first = copy_wires(alloc, first)?;
            let second = copy_wires(alloc, second)?;
            Ok(Wires::Two(Box::new(alloc, first)?, Box::new(alloc, second)?))
        }
        Wires::Segments(flags, items) => {
            let items = copy_wires(alloc, items)?;
            Ok(Wires::Segments(*flags, Box::new(alloc, items)?))
        }
    }
}

/// The streams of both parts of a pair. The error is that memory was refused.
pub fn pair_wires(alloc: Global, first: Wires, second: Wires) -> Result<Wires, AllocError>
    ensures { IfOk result (λ wires. wires_of wires ≡ two (wires_of first) (wires_of second)) }
{
    Ok(Wires::Two(Box::new(alloc, first)?, Box::new(alloc, second)?))
}

/// The flags of a sequence, and the streams of its elements. The error is that memory was refused.
pub fn sequence_wires(alloc: Global, flags: usize, items: Wires) -> Result<Wires, AllocError>
    ensures { IfOk result (λ wires. wires_of wires ≡ segments flags (wires_of items)) }
{
    Ok(Wires::Segments(flags, Box::new(alloc, items)?))
}

/// The kind of a stream of this scalar or vector type, and `Unit` for any other type.
pub fn kind_of(ty: &Ty) -> Kind
    ensures { result ≡ kind_of_type (ty_of ty.now) }
{
    match ty {
        Ty::Int => Kind::Int,
        Ty::Bool => Kind::Bool,
        Ty::Vec(_) => Kind::Vec,
        _ => Kind::Unit,
    }
}

// The streams of a type from the next number on. No machine has as many as there are numbers.
pub(crate) fn next_wires(alloc: Global, ty: &Ty, next: &mut usize) -> Result<Wires, AllocError>
    ensures wires { IfOk result (λ wires. wires_of wires ≡ wires_from (ty_of ty.now) next.old) }
    ensures next { OnOk result (next.new ≡ next.old + width (ty_of ty.now)) }
{
    match ty {
        Ty::Pair(first, second) => {
            let first = next_wires(alloc, first, next)?;
            let second = next_wires(alloc, second, next)?;
            Ok(Wires::Two(Box::new(alloc, first)?, Box::new(alloc, second)?))
        }
        Ty::Seq(item) => {
            let flags = next_number(next)?;
            let items = next_wires(alloc, item, next)?;
            Ok(Wires::Segments(flags, Box::new(alloc, items)?))
        }
        _ => {
            let ty = copy_ty(alloc, ty)?;
            let number = next_number(next)?;
            Ok(Wires::Wire(ty, number))
        }
    }
}

// The next number, and then the one after it is the next.
pub(crate) fn next_number(next: &mut usize) -> Result<usize, AllocError>
    ensures number { IfOk result (λ number. number ≡ next.old) }
    ensures next { OnOk result (next.new ≡ next.old + 1) }
{
    let number = *next;
    match number.checked_add(1) {
        Some(behind) => {
            *next = behind;
            Ok(number)
        }
        None => Err(AllocError),
    }
}
