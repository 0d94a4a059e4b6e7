// Which of some names is nearest to one.

ghost use Rattle.std.specs.Prelude.{IfOk};
ghost use Rattle.snesl_look.specs.Views.{FindsNearestOf};

use crate::names::{MOST_COMPARED, most_edits};
use std::alloc::{AllocError, Global};
use strsim::generic_levenshtein;

/// The number of the first of some names that are nearest to a word, if they are near. `None` where the word has more than 64
/// bytes, and where none is near. The error is that memory was refused.
pub fn nearest_of(
    alloc: Global,
    names: &[Vec<u8>],
    word: &[u8],
) -> Result<Option<usize>, AllocError>
    ensures { IfOk result (FindsNearestOf names.now word.now) }
{
    if word.len() > MOST_COMPARED {
        return Ok(None);
    }
    let limit = most_edits(word) + 1;
    let mut found = 0;
    let mut least = limit;
    for place in 0..names.len() {
        let edits = generic_levenshtein(alloc, &names[place], word)?;
        if edits < least {
            found = place;
            least = edits;
        }
    }
    Ok(if least < limit { Some(found) } else { None })
}
