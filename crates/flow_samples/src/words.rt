// What the words of a table stand for: messages, types, kinds and operators.

use flow_messages::{Item, Kind, Msg};
use snesl_data::operators::{BinaryOperator, Reduction, UnaryOperator};
use snesl_data::{Builder, Datum, Dialect, Elements, Ty};
use std::alloc::{AllocError, Global};

/// Why words stand for nothing.
#[derive(Clone, Copy, Debug)]
pub enum WordError {
    /// A word that is not known, or that is missing.
    Unread,
    /// Memory was refused.
    NoMemory,
}

impl From<AllocError> for WordError {
    fn from(_: AllocError) -> WordError {
        WordError::NoMemory
    }
}

/// Flags, and the items of streams of truth values.
pub const TRUTHS: [(&str, bool); 2] = [("F", false), ("T", true)];

/// The kinds of items.
pub const KINDS: [(&str, Kind); 4] = [
    ("unit", Kind::Unit),
    ("bool", Kind::Bool),
    ("int", Kind::Int),
    ("vec", Kind::Vec),
];

pub const DIALECTS: [(&str, Dialect); 2] = [("one", Dialect::One), ("two", Dialect::Two)];

/// The operators on one scalar.
pub const UNARY: [(&str, UnaryOperator); 2] = [
    ("negate", UnaryOperator::Negate),
    ("not", UnaryOperator::Not),
];

/// The operators on two scalars.
pub const BINARY: [(&str, BinaryOperator); 6] = [
    ("add", BinaryOperator::Add),
    ("subtract", BinaryOperator::Subtract),
    ("multiply", BinaryOperator::Multiply),
    ("divide", BinaryOperator::Divide),
    ("less", BinaryOperator::Less),
    ("and", BinaryOperator::And),
];

pub const REDUCTIONS: [(&str, Reduction); 4] = [
    ("sum", Reduction::Sum),
    ("max", Reduction::Max),
    ("all", Reduction::All),
    ("any", Reduction::Any),
];

/// What a word names.
pub fn named<T: Copy>(names: &[(&str, T)], word: &str) -> Result<T, WordError> {
    for &(name, value) in names {
        if name == word {
            return Ok(value);
        }
    }
    Err(WordError::Unread)
}

/// The number of a decimal word.
pub fn number_of(word: &str) -> Result<usize, WordError> {
    word.parse::<usize>().map_err(|_| WordError::Unread)
}

/// The integer of a decimal word.
pub fn integer_of(word: &str) -> Result<i128, WordError> {
    word.parse::<i128>().map_err(|_| WordError::Unread)
}

/// The message of a word: `u` for a Unit, `F` and `T` for flags, a decimal number, a vector as it is printed, and `.`
/// for the end.
pub fn message(alloc: Global, word: &str) -> Result<Msg, WordError> {
    Ok(Msg::Item(match word {
        "." => return Ok(Msg::End),
        "u" => Item::Unit,
        "F" => Item::Bool(false),
        "T" => Item::Bool(true),
        _ => match integer_of(word) {
            Ok(number) => Item::Int(number),
            Err(_) => {
                let items = vector(alloc, word)?.ok_or(WordError::Unread)?;
                Item::of_elements(elements_of(alloc, items)?)
            }
        },
    }))
}

// The vectors that stand in tables.
fn vector(alloc: Global, word: &str) -> Result<Option<Vec<Datum>>, AllocError> {
    Ok(Some(match word {
        "[]" => Vec::new(alloc),
        "[1]" => vec![in alloc; Datum::Int(1)]?,
        "[170141183460469231731687303715884105727]" => vec![in alloc; Datum::Int(i128::MAX)]?,
        "[8,-9]" => vec![in alloc; Datum::Int(8), Datum::Int(-9)]?,
        "[1,true]" => vec![in alloc; Datum::Int(1), Datum::Bool(true)]?,
        "[(1,[4,5]),(2,[])]" => pairs(alloc)?,
        _ => return Ok(None),
    }))
}

// The elements of `[(1,[4,5]),(2,[])]`.
fn pairs(alloc: Global) -> Result<Vec<Datum>, AllocError> {
    let first = pair(alloc, 1, vec![in alloc; Datum::Int(4), Datum::Int(5)]?)?;
    Ok(vec![in alloc; first, pair(alloc, 2, Vec::new(alloc))?]?)
}

// A pair of an integer and a vector.
fn pair(alloc: Global, first: i128, second: Vec<Datum>) -> Result<Datum, AllocError> {
    let second = Datum::Vec(elements_of(alloc, second)?);
    let first = Box::new(alloc, Datum::Int(first))?;
    Ok(Datum::Pair(first, Box::new(alloc, second)?))
}

// The elements of a vector, packed where they may be.
fn elements_of(alloc: Global, items: Vec<Datum>) -> Result<Elements, AllocError> {
    let mut elements = Builder::Empty;
    for item in items {
        elements.push(alloc, item)?;
    }
    elements.finish(alloc).map_err(|_| AllocError)
}

/// The type of words in which each former stands before what it is of, as `pair int vec bool`.
pub fn type_of(alloc: Global, words: &str) -> Result<Ty, WordError> {
    let mut types = Vec::new(alloc);
    for word in words.split_whitespace().rev() {
        let ty = formed(alloc, &mut types, word)?;
        types.push(ty).map_err(AllocError::from)?;
    }
    match types.pop() {
        Some(ty) if types.is_empty() => Ok(ty),
        _ => Err(WordError::Unread),
    }
}

// The type of a word, formed of the last of those types that its former stands before.
fn formed(alloc: Global, types: &mut Vec<Ty>, word: &str) -> Result<Ty, WordError> {
    match word {
        "int" => Ok(Ty::Int),
        "bool" => Ok(Ty::Bool),
        "vec" => Ok(Ty::Vec(boxed(alloc, types)?)),
        "seq" => Ok(Ty::Seq(boxed(alloc, types)?)),
        "pair" => {
            let first = boxed(alloc, types)?;
            Ok(Ty::Pair(first, boxed(alloc, types)?))
        }
        _ => Err(WordError::Unread),
    }
}

// The last of the types, in a box.
fn boxed(alloc: Global, types: &mut Vec<Ty>) -> Result<Box<Ty>, WordError> {
    let ty = types.pop().ok_or(WordError::Unread)?;
    Ok(Box::new(alloc, ty).map_err(AllocError::from)?)
}
