// Declared functions.

ghost use Rattle.std.specs.Prelude.{◌≤◌, IfSome, IfNone};
ghost use Rattle.snesl_evaluation.specs.Scopes.{IsUnknown, weight, IsFoundBy, weight_with};

use snesl_grammar::tree::{Declaration, Function};

/// The last function of a name, and the declarations before it. The declarations stand in order.
pub fn find_function<'a>(
    name: &[u8],
    text: &[u8],
    declarations: &'a [Declaration],
) -> Option<(&'a Function, &'a [Declaration])>
    ensures found { IfSome result (IsFoundBy text.now declarations.now name.now) }
    ensures unknown { IfNone result (IsUnknown text.now declarations.now name.now) }
    ensures weighed { IfSome result (λ found. weight_with found ≤ weight declarations.now) }
{
    let (last, earlier) = declarations.split_last()?;
    match last {
        Declaration::Input(_) => find_function(name, text, earlier),
        Declaration::Function(function) => {
            if name == function.name.spelled(text) {
                Some((function, earlier))
            } else {
                find_function(name, text, earlier)
            }
        }
    }
}
