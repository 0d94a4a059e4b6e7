// Brackets that are open.

ghost use Rattle.std.specs.Prelude.{◌≡◌, ◌≤◌, IfOk, length};
ghost use Rattle.snesl_advice.specs.Brackets.{innermost, open_before};

use std::alloc::{AllocError, Global};

/// The offset of the innermost bracket that is open before an offset of a program, if one is. A bracket that closes closes the
/// innermost, of whatever kind. The error is that memory was refused.
pub fn open_bracket(alloc: Global, program: &[u8], at: usize) -> Result<Option<usize>, AllocError>
    requires { at ≤ length program.now }
    ensures { IfOk result (λ found. found ≡ innermost (open_before program.now at)) }
{
    let mut places: Vec<usize> = Vec::new(alloc);
    for place in 0..at {
        match program[place] {
            b'(' | b'[' | b'{' => places.push(place)?,
            b')' | b']' | b'}' => {
                let _ = places.pop();
            }
            _ => {}
        }
    }
    Ok(places.last().copied())
}
