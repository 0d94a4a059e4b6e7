// Programs.

ghost use Rattle.std.specs.Prelude.{◌≡◌};
ghost use Rattle.snesl_grammar.specs.Spelled.{IsSpelled, program_with};

use crate::tree::{Declaration, Expr};
use snesl_data::Dialect;

/// A program: its text, in which its names have their places, the dialect of its integers, its
/// declarations in order, and its expression. It keeps that the text spells it within the limits,
/// so that no other can be made.
#[derive(Debug, Drop)]
pub struct Program {
    pub text: Vec<u8>,
    pub dialect: Dialect,
    pub declarations: Vec<Declaration>,
    pub expr: Expr,
    pub ghost spelled: { ∥ IsSpelled text.items (program_with dialect declarations.items expr) ∥₁ },
}

impl Program {
    /// The dialect of its integers: the second where its text begins with `dialect 2;`, and else
    /// the first.
    pub fn dialect(&self) -> Dialect
        ensures { result ≡ self.now.dialect }
    {
        self.dialect
    }
}
