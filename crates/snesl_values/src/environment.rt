// The values of declared inputs, kept as the text that spells them.

ghost use Rattle.std.specs.Arc.{arc_value};
ghost use Rattle.snesl_values.specs.Declarations.{declared, FitDeclarations};
ghost use Rattle.snesl_values.specs.Entries.{environment_at, AreSpelledAt};

use crate::builder::datum_at;
use crate::places::InputPlace;
use snesl_data::{Datum, Dialect, Ty};
use std::alloc::{AllocError, Global};
use std::sync::Arc;

/// The values of a program's declared inputs, in the order of declaration, with the dialect and the
/// declarations for which they were read. They are kept as the text that spells them, which others
/// may share, and the place of each value in it. The names are the declared ones, and each value
/// has its declared type.
#[derive(Drop)]
pub struct Inputs {
    pub(crate) dialect: Dialect,
    pub(crate) decls: Vec<(Vec<u8>, Ty)>,
    pub(crate) text: Arc<Vec<u8>>,
    pub(crate) all: Vec<InputPlace>,
    pub(crate) ghost placed: { ∥ AreSpelledAt dialect (arc_value text).items
        (declared decls.items) all.items ∥₁ },
    pub(crate) ghost fit: { ∥ FitDeclarations dialect (declared decls.items)
        (environment_at (arc_value text).items all.items) ∥₁ },
}

impl Inputs {
    ghost use Rattle.std.specs.Prelude.{◌≡◌, ◌<◌, ◌↔◌, [], length, IsTrue, IfOk, option_map};
    ghost use Rattle.std.specs.List.{slice_get};
    ghost use Rattle.snesl_values.specs.Inputs.{dialect_of, declarations_of, environment_of, text_in, placed_in, entry_name_at, IsEntryValue};

    /// The dialect in which the inputs were read.
    #[tactic(auto, unfolding(crate::specs::Inputs::dialect_of))]
    pub fn dialect(&self) -> Dialect
        ensures { result ≡ dialect_of self.now }
    {
        self.dialect
    }

    /// The declarations for which the inputs were read, each a name and its type, in order.
    #[tactic(auto, unfolding(crate::specs::Inputs::declarations_of))]
    pub fn decls(&self) -> &[(Vec<u8>, Ty)]
        ensures { declared result.now ≡ declarations_of self.now }
    {
        &self.decls
    }

    /// How many inputs there are.
    #[tactic(auto, unfolding(crate::specs::Inputs::environment_of))]
    pub fn len(&self) -> usize
        ensures { result ≡ length (environment_of self.now) }
    {
        self.all.len()
    }

    /// Whether there is no input.
    #[tactic(auto, unfolding(crate::specs::Inputs::environment_of))]
    pub fn is_empty(&self) -> bool
        ensures { IsTrue result ↔ (environment_of self.now ≡ []) }
    {
        self.all.is_empty()
    }

    /// The name of the input of this number, counted from 0 in the order of declaration, if there
    /// are so many.
    #[tactic(auto, unfolding(crate::specs::Inputs::environment_of))]
    pub fn name(&self, number: usize) -> Option<&[u8]>
        ensures { option_map (λ name. name.now) result ≡
            entry_name_at (environment_of self.now) number }
    {
        let input = self.all.get(number)?;
        Some(&input.name)
    }

    /// The value of the input of this number, counted from 0 in the order of declaration, as a tree
    /// in memory of its own. The number must be below `len()`.
    ///
    /// # Errors
    ///
    /// `AllocError` where memory is refused.
    #[tactic(auto, unfolding(crate::specs::Inputs::environment_of))]
    pub fn datum(&self, alloc: Global, number: usize) -> Result<Datum, AllocError>
        requires { number < length (environment_of self.now) }
        ensures { IfOk result (IsEntryValue (environment_of self.now) number) }
    {
        datum_at(alloc, &self.text, self.all[number].place)
    }

    /// The text that spells the inputs, which others may share.
    #[tactic(auto, unfolding(crate::specs::Inputs::text_in))]
    pub fn text(&self) -> &Arc<Vec<u8>>
        ensures { (arc_value result.now).items ≡ text_in self.now }
    {
        &self.text
    }

    /// The place from which the value of the input of this number is read, counted from 0 in the
    /// order of declaration, if there are so many. It is an offset in bytes from the start of the
    /// text, and blanks may stand between it and the value.
    #[tactic(auto, unfolding(crate::specs::Inputs::placed_in))]
    pub fn place(&self, number: usize) -> Option<usize>
        ensures { result ≡
            option_map (λ placed. placed.place) (slice_get (placed_in self.now) number) }
    {
        let input = self.all.get(number)?;
        Some(input.place)
    }
}
