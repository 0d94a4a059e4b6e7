// Places in a text.

ghost use Rattle.std.specs.Prelude.{◌≡◌};
ghost use Rattle.snesl_grammar.specs.tree.Spelling.{spelling};

/// Where a name stands in a text: its first byte, counted from 0, and its length in bytes.
#[derive(Clone, Copy, Debug, PartialEq, Eq)]
pub struct Span {
    pub at: usize,
    pub len: usize,
}

impl Span {
    /// The bytes that the text has there; none beyond its end.
    pub fn spelled(self, text: &[u8]) -> &[u8]
        ensures { result.now ≡ spelling text.now self }
    {
        let from = self.at.min(text.len());
        let rest = &text[from..];
        &rest[..self.len.min(rest.len())]
    }
}
