// Writing a random program: the forms that are begun stand on a stack, the innermost last, and each piece is written in turn.

use crate::dice::Dice;
use crate::forms::{EXPRESSIONS, FUNCTIONS, Form, PROGRAMS, SHORT, TYPES, Table, VALUES};
use crate::kinds::{BOOL, FIRST, INT, Kinds, Shape};
use std::alloc::{AllocError, Global};

// Where a program is longer, each expression still to come is a short one.
const LONG: usize = 600;

// A program of more pieces is given up.
const MOST_PIECES: usize = 60_000;

// A name that is bound: `x` and its number, its type, and in how many comprehensions it was bound.
#[derive(Clone, Copy)]
struct Name {
    number: usize,
    kind: usize,
    level: usize,
}

// A form that is begun.
#[derive(Clone, Copy)]
struct Begun {
    // What of its text is still to be written, and the types of its names.
    rest: &'static [u8],
    types: &'static str,
    // The mark before its next letter, if there is one, and how many forms may still stand within one another.
    mark: Option<u8>,
    depth: usize,
    // T, O, U and N.
    kind: usize,
    other: usize,
    second: usize,
    number: usize,
    // The numbers of X, Y and Z.
    names: [usize; 3],
    // How many names were bound before it, and in how many comprehensions it stands.
    bound: usize,
    level: usize,
}

// A program that is being written.
#[derive(Drop)]
struct Writer {
    dice: Dice,
    kinds: Kinds,
    functions: Vec<Begun>,
    names: Vec<Name>,
    level: usize,
    begun: Vec<Begun>,
    text: String,
    alloc: Global,
}

/// The job that a seed decides: a program, and after a line `---` the input text. None where it would be too long.
pub fn random_job(alloc: Global, seed: u64) -> Result<Option<String>, AllocError> {
    let mut writer = Writer {
        dice: Dice::new(seed),
        kinds: Kinds::new(alloc)?,
        functions: Vec::new(alloc),
        names: Vec::new(alloc),
        level: 0,
        begun: Vec::new(alloc),
        text: String::new(alloc),
        alloc,
    };
    if writer.dice.once_in(8) {
        writer.text.push_str("dialect 2; ")?;
    }
    for _ in 0..writer.dice.below(3) {
        let (kind, depth) = (writer.any_kind(), writer.dice.below(3));
        if !writer.write_all(FUNCTIONS, kind, depth.saturating_add(2))? {
            return Ok(None);
        }
    }
    let mut kind = writer.any_kind();
    if writer.dice.once_in(2) {
        kind = writer.kinds.place(Shape::Sequence(kind))?;
    }
    let depth = writer.dice.below(4).saturating_add(4);
    if writer.write_all(PROGRAMS, kind, depth)? {
        Ok(Some(writer.text))
    } else {
        Ok(None)
    }
}

impl Writer {
    // Writes a form of the table for a type; whether there were few enough pieces.
    fn write_all(&mut self, table: Table, kind: usize, depth: usize) -> Result<bool, AllocError> {
        let mut form = self.drawn(table, kind, depth)?;
        form.number = self.functions.len();
        self.begun.push(form)?;
        for _ in 0..MOST_PIECES {
            match self.begun.pop() {
                Some(form) => self.write(form)?,
                None => return Ok(true),
            }
        }
        Ok(false)
    }

    // Writes the next piece of a form.
    fn write(&mut self, mut form: Begun) -> Result<(), AllocError> {
        self.names.truncate(form.bound);
        self.level = form.level;
        let Some((piece, rest)) = form.rest.split_first() else {
            return Ok(());
        };
        form.rest = rest;
        match *piece {
            b'\'' | b'?' | b'.' => form.mark = Some(*piece),
            b'@' => {
                self.functions.push(form)?;
                return Ok(());
            }
            b'N' => self.number("", form.number)?,
            b'X' | b'Y' | b'Z' => self.number("x", form.number_of(*piece))?,
            b'A'..=b'Z' => return self.part(form, *piece),
            sign => self.text.push(char::from(sign))?,
        }
        self.begun.push(form)?;
        Ok(())
    }

    // Writes a word and a number.
    fn number(&mut self, word: &str, number: usize) -> Result<(), AllocError> {
        let written = format!(in self.alloc; "{word}{number}")?;
        self.text.push_str(written.as_str())
    }

    // Begins the part of a form that a letter stands for, where the names after it are bound.
    fn part(&mut self, mut form: Begun, letter: u8) -> Result<(), AllocError> {
        let kind = self.kind_of(&form, letter)?;
        let table = match form.mark {
            Some(b'\'') => TYPES,
            Some(b'?') => VALUES,
            None if form.depth > 1 && self.text.len() < LONG => EXPRESSIONS,
            _ => SHORT,
        };
        form.mark = None;
        if form.rest.first() == Some(&b'[') {
            for _ in 0..form.rest.len() {
                let Some((sign, rest)) = form.rest.split_first() else {
                    break;
                };
                form.rest = rest;
                match *sign {
                    b']' => break,
                    b'[' => {}
                    name => self.bind(&form, name)?,
                }
            }
        }
        let inner = self.drawn(table, kind, form.depth.saturating_sub(1))?;
        self.begun.push(form)?;
        self.begun.push(inner)?;
        Ok(())
    }

    // Binds a name of a form: X where the form stands, the others in one more comprehension.
    fn bind(&mut self, form: &Begun, name: u8) -> Result<(), AllocError> {
        let kind = self.kind_of(form, told(form.types, name).unwrap_or(b'I'))?;
        if name != b'X' {
            self.level = form.level.saturating_add(1);
        }
        self.names.push(Name {
            number: form.number_of(name),
            kind,
            level: self.level,
        })?;
        Ok(())
    }

    // The type that a letter stands for.
    fn kind_of(&mut self, form: &Begun, letter: u8) -> Result<usize, AllocError> {
        let (element, second) = self.kinds.parts(form.kind);
        match letter {
            b'I' => Ok(INT),
            b'B' => Ok(BOOL),
            b'O' => Ok(form.other),
            b'U' => Ok(form.second),
            b'E' => Ok(element),
            b'F' => Ok(second),
            b'D' => Ok(self.kinds.parts(element).0),
            b'L' => self.kinds.place(Shape::Sequence(form.other)),
            b'M' => self.kinds.place(Shape::Sequence(form.second)),
            b'V' => self.kinds.place(Shape::Vector(form.other)),
            b'P' => self.kinds.place(Shape::Pair(form.kind, form.other)),
            b'Q' => self.kinds.place(Shape::Pair(form.other, form.kind)),
            _ => Ok(form.kind),
        }
    }

    // A form that is drawn from the table for a type, or a name or a call in its place.
    fn drawn(&mut self, table: Table, kind: usize, depth: usize) -> Result<Begun, AllocError> {
        let mut form = self.plain(kind, depth);
        let (asked, part) = (self.kinds.at(kind), self.kinds.at(self.kinds.parts(kind).0));
        let mut total = 0usize;
        for &Form(of, times, text, types) in table.forms {
            if of.has(asked, part) && wins(&mut self.dice, &mut total, times) {
                form.rest = text.as_bytes();
                form.types = types;
            }
        }
        for place in 0..self.names.len() {
            if let Some(name) = self.usable(place) {
                if name.kind == kind && wins(&mut self.dice, &mut total, table.names) {
                    form.rest = b"X";
                    form.names[0] = name.number;
                }
            }
        }
        for function in &self.functions {
            if function.kind == kind && wins(&mut self.dice, &mut total, table.calls) {
                form.rest = function.rest;
                form.types = function.types;
                form.other = function.other;
                form.second = function.second;
                form.number = function.number;
            }
        }
        if let Some(letter) = told(form.types, b'O') {
            form.other = self.kind_of(&form, letter)?;
        }
        Ok(form)
    }

    // A form with no text yet: what is drawn for it.
    fn plain(&mut self, kind: usize, depth: usize) -> Begun {
        let bound = self.names.len();
        let fresh = bound.saturating_mul(3);
        let end = if self.dice.once_in(8) { 25 } else { 7 };
        Begun {
            rest: b"",
            types: "",
            mark: None,
            depth,
            kind,
            other: self.other_kind(),
            second: self.other_kind(),
            number: self.dice.below(end),
            names: [
                self.new_number(fresh),
                self.new_number(fresh.saturating_add(1)),
                fresh.saturating_add(2),
            ],
            bound,
            level: self.level,
        }
    }

    // A number for a new name, now and then that of a name which it hides.
    fn new_number(&mut self, fresh: usize) -> usize {
        let hidden = self.dice.below(self.names.len());
        match self.names.get(hidden) {
            Some(name) if self.dice.once_in(10) => name.number,
            _ => fresh,
        }
    }

    // One of the types that are drawn, often `int`.
    fn any_kind(&mut self) -> usize {
        if self.dice.once_in(3) {
            INT
        } else {
            self.dice.below(FIRST.len())
        }
    }

    // One of the types that are drawn, or that of the elements of some sequence that has a name here.
    fn other_kind(&mut self) -> usize {
        let mut chosen = self.any_kind();
        let mut total = 1usize;
        for place in 0..self.names.len() {
            if let Some(name) = self.usable(place) {
                if let Shape::Sequence(element) = self.kinds.at(name.kind).shape {
                    if wins(&mut self.dice, &mut total, 1) {
                        chosen = element;
                    }
                }
            }
        }
        chosen
    }

    // The name at a place, where it may be used here: it is not hidden, and it is concrete or was bound in no fewer
    // comprehensions.
    fn usable(&self, place: usize) -> Option<Name> {
        let name = *self.names.get(place)?;
        for (other, later) in self.names.iter().enumerate() {
            if other > place && later.number == name.number {
                return None;
            }
        }
        let within = name.level == self.level || self.kinds.at(name.kind).concrete;
        if within { Some(name) } else { None }
    }
}

impl Begun {
    // The number of X, Y or Z.
    fn number_of(&self, name: u8) -> usize {
        match name {
            b'X' => self.names[0],
            b'Y' => self.names[1],
            _ => self.names[2],
        }
    }
}

// The type that a form tells for a letter.
fn told(types: &str, letter: u8) -> Option<u8> {
    for entry in types.as_bytes().chunks(4) {
        if entry.first() == Some(&letter) {
            return entry.get(2).copied();
        }
    }
    None
}

// Whether the next of several is drawn in place of those before it, so that each is at the end as often as it is to be.
fn wins(dice: &mut Dice, total: &mut usize, times: usize) -> bool {
    *total = total.saturating_add(times);
    dice.below(*total) < times
}
