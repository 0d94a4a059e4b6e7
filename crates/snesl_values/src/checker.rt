// Values in an input text, checked by their types, and none of them kept.
//
// An error `Bad` has the offset of the first token that may not stand there, or the text's length.

ghost use Rattle.std.specs.Prelude.{◌≡◌, ◌≤◌, ◌∷◌, [], ◌⊎◌, length, IsTrue, IfOk, IfErr};
ghost use Rattle.snesl_values.specs.InputTokens.{word, sign, is_sign, IsNextToken};
ghost use Rattle.snesl_data.specs.Types.{ty_of, bool};
ghost use Rattle.snesl_values.specs.Wants.{one, items, pair_of, IsStop, IsValueStop, SomeValueRead, SomeItemsRead};

use crate::inputs::InputError;
use crate::scan::{after_sign, after_word, integer_at, skip_blanks};
use snesl_data::{Dialect, Ty};

// The offset after the sign of this byte, which has to come next.
#[inline(always)]
pub fn expect_sign(dialect: Dialect, text: &[u8], at: usize, byte: u8) -> Result<usize, InputError>
    requires within { at ≤ length text.now }
    requires lawful { IsTrue (is_sign byte) }
    ensures taken { IfOk result (IsNextToken text.now at (sign byte)) }
    ensures stops { IfErr result (IsStop dialect (one (sign byte) ∷ []) text.now at) }
{
    match after_sign(text, at, byte) {
        Some(end) => Ok(end),
        None => Err(InputError::Bad(skip_blanks(text, at))),
    }
}

// The offset after this word, which has to come next.
pub fn expect_word(
    dialect: Dialect,
    text: &[u8],
    at: usize,
    expected: &[u8],
) -> Result<usize, InputError>
    requires { at ≤ length text.now }
    ensures taken { IfOk result (IsNextToken text.now at (word expected.now)) }
    ensures stops { IfErr result (IsStop dialect (one (word expected.now) ∷ []) text.now at) }
{
    match after_word(text, at, expected) {
        Some(end) => Ok(end),
        None => Err(InputError::Bad(skip_blanks(text, at))),
    }
}

// The offset after the value of this type that comes next.
#[cycle(values)]
pub fn check_value(dialect: Dialect, text: &[u8], at: usize, ty: &Ty) -> Result<usize, InputError>
    requires { at ≤ length text.now }
    ensures read { IfOk result (SomeValueRead dialect text.now at (ty_of ty.now)) }
    ensures stops { IfErr result (IsValueStop dialect (ty_of ty.now) text.now at) }
{
    match ty {
        Ty::Int => {
            match integer_at(dialect, text, at) {
                Some((_, end)) => Ok(end),
                None => Err(InputError::Bad(skip_blanks(text, at))),
            }
        }
        Ty::Bool => check_truth(dialect, text, at),
        Ty::Pair(first, second) => check_pair(dialect, text, at, first, second),
        Ty::Vec(item) => {
            let start = expect_sign(dialect, text, at, b'[')?;
            let items = check_items(dialect, text, start, item, b']')?;
            Ok(items)
        }
        Ty::Seq(item) => {
            let start = expect_sign(dialect, text, at, b'{')?;
            let items = check_items(dialect, text, start, item, b'}')?;
            Ok(items)
        }
    }
}

// The offset after the truth value that comes next.
fn check_truth(dialect: Dialect, text: &[u8], at: usize) -> Result<usize, InputError>
    requires { at ≤ length text.now }
    ensures read { IfOk result (SomeValueRead dialect text.now at bool) }
    ensures stops { IfErr result (IsValueStop dialect bool text.now at) }
{
    if let Some(end) = after_word(text, at, b"true") {
        return Ok(end);
    }
    match after_word(text, at, b"false") {
        Some(end) => Ok(end),
        None => Err(InputError::Bad(skip_blanks(text, at))),
    }
}

// The offset after the pair of these types that comes next.
#[cycle(values)]
fn check_pair(
    dialect: Dialect,
    text: &[u8],
    at: usize,
    first: &Ty,
    second: &Ty,
) -> Result<usize, InputError>
    requires { at ≤ length text.now }
    ensures read { IfOk result (SomeValueRead dialect text.now at (pair_of first.now second.now)) }
    ensures stops { IfErr result (IsValueStop dialect (pair_of first.now second.now) text.now at) }
{
    let at_first = expect_sign(dialect, text, at, b'(')?;
    let after_first = check_value(dialect, text, at_first, first)?;
    let at_second = expect_sign(dialect, text, after_first, b',')?;
    let after_second = check_value(dialect, text, at_second, second)?;
    let end = expect_sign(dialect, text, after_second, b')')?;
    Ok(end)
}

// The offset after the closing sign of the items of this type that come next, with commas between
// them.
#[cycle(values)]
fn check_items(
    dialect: Dialect,
    text: &[u8],
    at: usize,
    item: &Ty,
    close: u8,
) -> Result<usize, InputError>
    requires within { at ≤ length text.now }
    requires closes { (close ≡ 93) ⊎ (close ≡ 125) }
    ensures read { IfOk result (SomeItemsRead dialect text.now at (ty_of item.now) close) }
    ensures stops { IfErr result (IsStop dialect (items (ty_of item.now) close ∷ []) text.now at) }
{
    if let Some(end) = after_sign(text, at, close) {
        return Ok(end);
    }
    let mut from = at;
    'each: loop {
        let behind = check_value(dialect, text, from, item)?;
        if let Some(end) = after_sign(text, behind, close) {
            return Ok(end);
        }
        from = expect_sign(dialect, text, behind, b',')?;
    }
}
