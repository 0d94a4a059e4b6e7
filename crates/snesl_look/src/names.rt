// Names that are near to one that is not bound.

ghost use Rattle.std.specs.Prelude.{◌≡◌, ◌<◌, ◌≤◌, IfOk, IsTrue, length, ◌↔◌};
ghost use Rattle.snesl_data.specs.Characters.{is_word};
ghost use Rattle.snesl_look.specs.Names.{DistanceIsByCases, DistanceIsLeast, IsKeyword, begins_name, built_ins, most_edits, name_at, searched};
ghost use Rattle.snesl_look.specs.Views.{CountsEdits, FindsMeant, FindsNearest};

use crate::functions::front_word;
use std::alloc::{AllocError, Global};
use strsim::generic_levenshtein;

// Names up to this length are compared with others, so that the tables of edits have at most so many cells for each byte of a
// program in all.
pub(crate) const MOST_COMPARED: usize = 64;

/// The reserved words, but for the built-in functions.
const KEYWORDS: &[u8] =
    b"input function let in if then else true false not and or int bool dialect";

/// The built-in functions. A blank parts them from a program before them.
const BUILT_INS: &[u8] =
    b" iota scan_add reduce_add reduce_max reduce_and reduce_or length concat part the tab seq fst snd";

/// The name that may be meant by a name of a program that is not bound: the first of the nearest among the other names of the
/// program and the built-in functions, if one is near. `None` where the name has more than 64 bytes, where no other is near,
/// and where it stands elsewhere in the program too. The error is that memory was refused.
pub fn near_name(alloc: Global, program: &[u8], at: usize) -> Result<Option<Vec<u8>>, AllocError>
    ensures { IfOk result (FindsMeant program.now at) }
{
    let word = name_at(program, at);
    if word.len() > MOST_COMPARED {
        return Ok(None);
    }
    let text = searched(alloc, program)?;
    let Some(place) = nearest(alloc, &text, at, word)? else {
        return Ok(None);
    };
    let name = name_at(&text, place);
    if name == word {
        return Ok(None);
    }
    let mut meant = Vec::new(alloc);
    meant.extend_from_slice(name)?;
    Ok(Some(meant))
}

// The program, and after it the built-in functions.
fn searched(alloc: Global, program: &[u8]) -> Result<Vec<u8>, AllocError>
    ensures { IfOk result (λ text. text.items ≡ searched program.now) }
{
    let mut text = Vec::new(alloc);
    text.extend_from_slice(program)?;
    text.extend_from_slice(BUILT_INS)?;
    Ok(text)
}

// Where the first of the nearest names begins.
fn nearest(alloc: Global, text: &[u8], at: usize, word: &[u8]) -> Result<Option<usize>, AllocError>
    ensures { IfOk result (FindsNearest text.now at word.now) }
{
    let limit = most_edits(word) + 1;
    let mut found = 0;
    let mut least = limit;
    for place in 0..text.len() {
        if let Some(edits) = edits_at(alloc, text, at, word, place)? {
            if edits < least {
                found = place;
                least = edits;
            }
        }
    }
    Ok(if least < limit { Some(found) } else { None })
}

// How far the name at a place is from the word, if another name begins there.
fn edits_at(
    alloc: Global,
    text: &[u8],
    at: usize,
    word: &[u8],
    place: usize,
) -> Result<Option<usize>, AllocError>
    requires { place < length text.now }
    ensures { IfOk result (CountsEdits text.now at word.now place) }
{
    if place == at || !begins_name(text, place) {
        return Ok(None);
    }
    let name = name_at(text, place);
    if is_keyword(name) {
        return Ok(None);
    }
    let edits = generic_levenshtein(alloc, name, word)?;
    Ok(Some(edits))
}

/// A law and no code to run: the distance of two names is the least number of bytes that are put in, taken out or replaced to
/// make one of the other. It follows from the distances of shorter names.
pub fn distance_is_least()
    ensures least { DistanceIsLeast }
    ensures cases { DistanceIsByCases }
{}

// Up to which distance names are near.
pub(crate) fn most_edits(word: &[u8]) -> usize
    ensures edits { result ≡ most_edits word.now }
    ensures few { result ≤ 2 }
{
    (word.len() / 3).min(2).max(1)
}

// Whether a word is reserved, and no built-in function.
fn is_keyword(word: &[u8]) -> bool
    ensures { IsTrue result ↔ IsKeyword word.now }
{
    for place in 0..KEYWORDS.len() {
        if begins_name(KEYWORDS, place) && name_at(KEYWORDS, place) == word {
            return true;
        }
    }
    false
}

// Whether a name begins at a place.
fn begins_name(text: &[u8], place: usize) -> bool
    requires { place < length text.now }
    ensures { result ≡ begins_name text.now place }
{
    text[place].is_ascii_alphabetic() && (place == 0 || !is_word(text[place - 1]))
}

// The word that begins at a place, if a letter does.
fn name_at(text: &[u8], place: usize) -> &[u8]
    ensures { result.now ≡ name_at text.now place }
{
    front_word(&text[place.min(text.len())..])
}

// Whether the byte may stand in a word after the first letter.
fn is_word(byte: u8) -> bool
    ensures { result ≡ is_word byte }
{
    byte.is_ascii_alphanumeric() || byte == b'_'
}
