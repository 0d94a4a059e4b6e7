// Strings of DOT.

ghost use Rattle.std.specs.Prelude.{◌≡◌, ◌++◌, IfOk, OnOk};
ghost use Rattle.snesl_draw.specs.Quoting.{EndsWithText, quoted, quoted_byte};

use std::alloc::{AllocError, Global};

/// A text as it stands between the quotes of a string of DOT: a quote and a backslash after a backslash, a line feed as
/// `\n`, a blank for another control character, and `?` for what is no character of ASCII. So no text ends the string that
/// it stands in. The error is that memory was refused.
pub fn quoted(alloc: Global, text: &[u8]) -> Result<Vec<u8>, AllocError>
    ensures bytes { IfOk result (λ made. made.items ≡ quoted text.now) }
    ensures whole { IfOk result (λ made. EndsWithText made.items) }
{
    let mut made = Vec::with_capacity(alloc, text.len())?;
    for byte in text {
        append_byte(&mut made, *byte)?;
    }
    Ok(made)
}

// One byte.
fn append_byte(made: &mut Vec<u8>, byte: u8) -> Result<(), AllocError>
    ensures { OnOk result (made.new.items ≡ made.old.items ++ quoted_byte byte) }
{
    match byte {
        b'"' | b'\\' => made.extend_from_slice(&[b'\\', byte])?,
        b'\n' => made.extend_from_slice(b"\\n")?,
        0..=31 => made.push(b' ')?,
        32..=126 => made.push(byte)?,
        _ => made.push(b'?')?,
    }
    Ok(())
}
