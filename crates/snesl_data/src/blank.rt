// Blanks, which part the tokens of programs and of input texts.

ghost use Rattle.std.specs.Prelude.{◌≡◌};
ghost use Rattle.snesl_data.specs.Blanks.{is_blank};

/// Whether a byte is a space, a tab, a line feed or a carriage return.
pub fn is_blank(byte: u8) -> bool
    ensures { result ≡ is_blank byte }
{
    matches!(byte, b' ' | b'\t' | b'\n' | b'\r')
}
