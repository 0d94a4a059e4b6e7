// Declared inputs, each a name and the place of its value.

ghost use Rattle.std.specs.Prelude.{◌≤◌, length, IfOk, IfErr};
ghost use Rattle.snesl_values.specs.Declarations.{declared, declaration_of};
ghost use Rattle.snesl_values.specs.Wants.{IsEntryStop, IsStopOf, EntryRead, EntriesRead};
ghost use Rattle.snesl_values.specs.Entries.{IsEntryPlaced, AreEntriesPlaced};

use crate::checker::{check_value, expect_sign, expect_word};
use crate::inputs::InputError;
use crate::scan::after_sign;
use snesl_data::{Dialect, Ty};
use std::alloc::Global;

/// A declared name, and the place from which its value is read: an offset in bytes from the start
/// of the text.
#[derive(Debug, Drop)]
pub struct InputPlace {
    pub name: Vec<u8>,
    pub place: usize,
}

/// The names and places of the declared inputs with which the text begins, in order, and the offset
/// after them, in bytes from the start of the text.
///
/// # Errors
///
/// - `Bad(at)`: the text does not begin so. `at` is the offset of the first token that no lawful
///   text can have there, or the length of a text that ends too early.
/// - `NoMemory`: memory was refused.
pub fn read_places(
    dialect: Dialect,
    alloc: Global,
    decls: &[(Vec<u8>, Ty)],
    text: &[u8],
) -> Result<(Vec<InputPlace>, usize), InputError>
    ensures read { IfOk result (EntriesRead dialect text.now (declared decls.now)) }
    ensures placed { IfOk result (AreEntriesPlaced dialect text.now (declared decls.now)) }
    ensures stops { IfErr result (IsStopOf dialect (declared decls.now) text.now) }
{
    let mut all = Vec::new(alloc);
    if decls.is_empty() {
        return Ok((all, 0));
    }
    let (input, mut at) = read_entry(dialect, alloc, text, 0, &decls[0])?;
    all.push(input)?;
    for declaration in &decls[1..] {
        let start = expect_sign(dialect, text, at, b';')?;
        let (input, end) = read_entry(dialect, alloc, text, start, declaration)?;
        all.push(input)?;
        at = end;
    }
    match after_sign(text, at, b';') {
        Some(end) => Ok((all, end)),
        None => Ok((all, at)),
    }
}

// The name and the place of the declared input that comes next, and the offset after it.
fn read_entry(
    dialect: Dialect,
    alloc: Global,
    text: &[u8],
    at: usize,
    declaration: &(Vec<u8>, Ty),
) -> Result<(InputPlace, usize), InputError>
    requires { at ≤ length text.now }
    ensures read { IfOk result (EntryRead dialect text.now at (declaration_of declaration.now)) }
    ensures placed { IfOk result (IsEntryPlaced dialect text.now (declaration_of declaration.now)) }
    ensures stops { IfErr result
        (IsEntryStop dialect (declaration_of declaration.now) text.now at) }
{
    let after_name = expect_word(dialect, text, at, &declaration.0)?;
    let start = expect_sign(dialect, text, after_name, b'=')?;
    let end = check_value(dialect, text, start, &declaration.1)?;
    let name = Vec::from_slice(alloc, &declaration.0)?;
    Ok((InputPlace { name, place: start }, end))
}
