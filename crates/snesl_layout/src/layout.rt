// The layout of tokens.

ghost use Rattle.std.specs.Prelude.{◌≡◌, ◌++◌, IfOk, OnOk};
ghost use Rattle.snesl_layout.specs.Layout.{gap_bytes, indent, layout};

use crate::lines::{Gap, gap_before, start, state_after};
use crate::spacing::token_bytes;
use snesl_grammar::lexer::Token;
use std::alloc::{AllocError, Global};

// Appends the blanks before a line.
fn append_indent(out: &mut Vec<u8>, levels: u8) -> Result<(), AllocError>
    ensures { OnOk result (out.new.items ≡ out.old.items ++ indent levels) }
{
    for _ in 0..levels {
        out.extend_from_slice(b"    ")?;
    }
    Ok(())
}

// Appends what stands before a token.
fn append_gap(out: &mut Vec<u8>, gap: Gap) -> Result<(), AllocError>
    ensures { OnOk result (out.new.items ≡ out.old.items ++ gap_bytes gap) }
{
    match gap {
        Gap::Nothing => Ok(()),
        Gap::Blank => out.extend_from_slice(b" "),
        Gap::Line(levels) => {
            out.extend_from_slice(b"\n")?;
            append_indent(out, levels)
        }
        Gap::EmptyLine => out.extend_from_slice(b"\n\n"),
    }
}

/// The tokens of a text, laid out, with a line feed at the end. The error is that memory was refused.
pub fn layout(alloc: Global, text: &[u8], tokens: &[Token]) -> Result<Vec<u8>, AllocError>
    ensures { IfOk result (λ out. out.items ≡ layout text.now tokens.now) }
{
    let mut out = Vec::new(alloc);
    let mut state = start();
    for i in 0..tokens.len() {
        let token = tokens[i];
        let after = &tokens[i + 1..];
        append_gap(&mut out, gap_before(text, state, token, after))?;
        out.extend_from_slice(token_bytes(text, token, after))?;
        state = state_after(text, state, token, after);
    }
    out.extend_from_slice(b"\n")?;
    Ok(out)
}
