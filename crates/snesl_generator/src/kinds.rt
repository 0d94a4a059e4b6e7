// Types, each of which stands once in a table and is named by its place there.

use std::alloc::{AllocError, Global};

/// The place of `int`.
pub const INT: usize = 0;

/// The place of `bool`.
pub const BOOL: usize = 1;

/// The form of a type, with the places of its parts.
#[derive(Clone, Copy, PartialEq, Eq)]
pub enum Shape {
    Int,
    Bool,
    Pair(usize, usize),
    Vector(usize),
    Sequence(usize),
}

/// The types that are drawn, at the places from 0 on. More types come in as the forms around an expression ask for them.
pub const FIRST: [Shape; 18] = [
    Shape::Int,
    Shape::Bool,
    Shape::Pair(0, 0),
    Shape::Pair(0, 1),
    Shape::Vector(0),
    Shape::Vector(1),
    Shape::Sequence(0),
    Shape::Sequence(1),
    Shape::Vector(2),
    Shape::Sequence(2),
    Shape::Sequence(4),
    Shape::Sequence(6),
    Shape::Sequence(7),
    Shape::Pair(6, 0),
    Shape::Sequence(13),
    Shape::Sequence(11),
    Shape::Pair(4, 1),
    Shape::Pair(11, 6),
];

/// What is known of a type: its form, whether no sequence occurs in it, and how many types it is made of, itself included.
#[derive(Clone, Copy)]
pub struct Kind {
    pub shape: Shape,
    pub concrete: bool,
    pub size: usize,
}

const INTEGER: Kind = Kind {
    shape: Shape::Int,
    concrete: true,
    size: 1,
};

/// A table of types.
#[derive(Drop)]
pub struct Kinds {
    rows: Vec<Kind>,
}

impl Kinds {
    /// The table of the types that are drawn.
    pub fn new(alloc: Global) -> Result<Kinds, AllocError> {
        let mut kinds = Kinds {
            rows: Vec::new(alloc),
        };
        for shape in &FIRST {
            let _place = kinds.place(*shape)?;
        }
        Ok(kinds)
    }

    /// The place of the type of this form, where it is put if it has none.
    pub fn place(&mut self, shape: Shape) -> Result<usize, AllocError> {
        for (place, row) in self.rows.iter().enumerate() {
            if row.shape == shape {
                return Ok(place);
            }
        }
        let (concrete, parts) = match shape {
            Shape::Int | Shape::Bool => (true, 0),
            Shape::Pair(first, second) => {
                let (first, second) = (self.at(first), self.at(second));
                (
                    first.concrete && second.concrete,
                    first.size.saturating_add(second.size),
                )
            }
            Shape::Vector(element) => (true, self.at(element).size),
            Shape::Sequence(element) => (false, self.at(element).size),
        };
        let size = parts.saturating_add(1);
        let place = self.rows.len();
        self.rows.push(Kind {
            shape,
            concrete,
            size,
        })?;
        Ok(place)
    }

    /// The type at a place.
    pub fn at(&self, place: usize) -> Kind {
        match self.rows.get(place) {
            Some(row) => *row,
            None => INTEGER,
        }
    }

    /// The places of the element of a sequence or vector, or of the parts of a pair.
    pub fn parts(&self, place: usize) -> (usize, usize) {
        match self.at(place).shape {
            Shape::Int | Shape::Bool => (place, place),
            Shape::Pair(first, second) => (first, second),
            Shape::Vector(element) | Shape::Sequence(element) => (element, element),
        }
    }
}
