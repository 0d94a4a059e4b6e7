// Which names a part of a program takes from outside.

ghost use Rattle.std.specs.Prelude.{◌≡◌};
ghost use Rattle.snesl_translation.specs.FreeNames.{free_of_condition, is_among};
ghost use Rattle.snesl_translator.specs.scopes.Scopes.{condition_in, names_in};

use crate::scopes::free_names::{binds, is_free};
use snesl_grammar::tree::{Binder, Expr};

/// A part of a program that runs more often or less often than what is around it: a comprehension's condition and body,
/// within its binders, or the item of a filter.
#[derive(Clone, Copy)]
pub struct Part<'a> {
    pub text: &'a [u8],
    pub binders: &'a [Binder],
    pub condition: Option<&'a Expr>,
    pub body: &'a Expr,
}

// Whether the part takes the name from outside.
pub fn names(part: &Part<'_>, name: &[u8]) -> bool
    ensures { result ≡ is_among name.now (names_in part.now) }
{
    let hidden = binds(part.text, name, part.binders);
    let of_condition = condition_names(part.text, name, part.condition);
    let of_body = is_free(part.text, name, part.body);
    !hidden && (of_condition || of_body)
}

fn condition_names(text: &[u8], name: &[u8], condition: Option<&Expr>) -> bool
    ensures { result ≡ is_among name.now (free_of_condition text.now
        (condition_in condition.entry)) }
{
    match condition {
        Some(condition) => is_free(text, name, condition),
        None => false,
    }
}
