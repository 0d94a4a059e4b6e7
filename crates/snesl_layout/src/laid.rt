// The layout of a program.

ghost use Rattle.std.specs.Prelude.{◌≡◌, ◌<◌, IfErr, IfOk, IsTrue, OnOk, length};
ghost use Rattle.snesl_layout.specs.Laid.{IsLaidOut, IsOfLayout, IsParsed, IsUnlaid, IsWordAt, KeepsWords, words};
ghost use Rattle.snesl_layout.specs.Same.{AreOneProgram};

use crate::layout::layout;
use crate::spacing::token_bytes;
use snesl_data::Refusal;
use snesl_grammar::lexer::{Token, tokens_of};
use snesl_syntax::{one_answer, parse};
use std::alloc::{AllocError, Global};

// The most bytes that a program may have.
const LONGEST: usize = 65_536;

/// Why a text has no layout.
#[derive(Clone, Copy, Debug, PartialEq, Eq)]
pub enum LayoutError {
    /// The text is refused, as `parse` refuses it.
    Refused(Refusal),
    /// The layout has more than 65,536 bytes, so that it is no program.
    TooLong,
    /// The layout has not been found to be the same program. No text is known for which that is so.
    Differs,
}

impl From<AllocError> for LayoutError {
    ghost use Rattle.snesl_data.specs.declared.refusal.Refusal.TheVariants.{NoMemory};
    ghost use Rattle.snesl_layout.specs.declared.laid.LayoutError.TheVariants.{Refused};

    ghost from_gives = { λ _ error. error ≡ Refused NoMemory };

    fn from(_: AllocError) -> Self {
        LayoutError::Refused(Refusal::NoMemory)
    }
}

// The word of one of some tokens.
fn word_at<'a>(text: &'a [u8], tokens: &[Token], i: usize) -> &'a [u8]
    requires { i < length tokens.now }
    ensures { IsWordAt text.now tokens.now i result.now }
{
    token_bytes(text, tokens[i], &tokens[i + 1..])
}

fn is_same_word(word: &[u8], its_word: &[u8]) -> bool
    ensures { IsTrue result → word.now ≡ its_word.now }
{
    word == its_word
}

// Whether the tokens of two texts are the same words in the same order.
fn has_same_words(one: &[u8], tokens: &[Token], other: &[u8], others: &[Token]) -> bool
    ensures { IsTrue result → words one.now tokens.now ≡ words other.now others.now }
{
    if tokens.len() != others.len() {
        return false;
    }
    for i in 0..tokens.len() {
        if !is_same_word(word_at(one, tokens, i), word_at(other, others, i)) {
            return false;
        }
    }
    true
}

// Whether a text has the words of another, and is laid out as it stands. Where its tokens are not found memory was refused, since
// it is a program.
fn is_kept(alloc: Global, text: &[u8], tokens: &[Token], out: &[u8]) -> Result<bool, LayoutError>
    ensures kept { IfOk result (λ kept. IsTrue kept → KeepsWords text.now tokens.now out.now) }
    ensures refused { IfErr result (IsOfLayout out.now) }
{
    let Ok(others) = tokens_of(alloc, out) else {
        return Err(LayoutError::Refused(Refusal::NoMemory));
    };
    let again = layout(alloc, out, &others)?;
    Ok(has_same_words(text, tokens, out, &others) && again.as_slice() == out)
}

// Whether a layout is a program.
fn is_program(alloc: Global, out: &[u8]) -> Result<(), LayoutError>
    ensures parsed { OnOk result (IsParsed out.now) }
    ensures refused { IfErr result (IsOfLayout out.now) }
{
    if out.len() > LONGEST {
        return Err(LayoutError::TooLong);
    }
    match parse(alloc, out) {
        Ok(_) => Ok(()),
        Err(Refusal::NoMemory) => Err(LayoutError::Refused(Refusal::NoMemory)),
        Err(_) => Err(LayoutError::Differs),
    }
}

/// A program as it is laid out: its words in their order, with blanks and line feeds between them as `specs/Lines.antt` says. What is
/// given is the same program but for offsets, and is laid out as it stands.
///
/// # Errors
///
/// - `Refused`: the text is refused, as `parse` refuses it.
/// - `TooLong`: the layout has more than 65,536 bytes.
/// - `Differs`: the layout has not been found to be the same program. No text is known for which that is so.
pub fn laid_out(alloc: Global, text: &[u8]) -> Result<Vec<u8>, LayoutError>
    ensures laid { IfOk result (λ out. IsLaidOut text.now out.items) }
    ensures parsed { IfOk result (λ out. IsParsed out.items) }
    ensures same { IfOk result (λ out. AreOneProgram text.now out.items) }
    ensures refused { IfErr result (IsUnlaid text.now) }
{
    one_answer();
    if let Err(refusal) = parse(alloc, text) {
        return Err(LayoutError::Refused(refusal));
    }
    let Ok(tokens) = tokens_of(alloc, text) else {
        return Err(LayoutError::Refused(Refusal::NoMemory));
    };
    let out = layout(alloc, text, &tokens)?;
    is_program(alloc, &out)?;
    if is_kept(alloc, text, &tokens, &out)? {
        Ok(out)
    } else {
        Err(LayoutError::Differs)
    }
}
