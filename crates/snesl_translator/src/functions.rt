// Declared functions.

ghost use Rattle.std.specs.Prelude.{IfNone, IfSome};
ghost use Rattle.snesl_translator.specs.Called.{IsLast, IsNoHeavier, IsUnknown};

use snesl_grammar::tree::{Declaration, Function};

// The last function of a name, and the declarations before it.
pub(crate) fn find_function<'a>(
    name: &[u8],
    text: &[u8],
    declarations: &'a [Declaration],
) -> Option<(&'a Function, &'a [Declaration])>
    ensures found { IfSome result (IsLast text.now declarations.now name.now) }
    ensures unknown { IfNone result (IsUnknown text.now declarations.now name.now) }
    ensures weighed { IfSome result (IsNoHeavier declarations.now) }
{
    let (last, earlier) = declarations.split_last()?;
    match last {
        Declaration::Input(_) => find_function(name, text, earlier),
        Declaration::Function(function) => {
            if name == function.name.spelled(text) {
                Some((function, earlier))
            } else {
                find_function(name, text, earlier)
            }
        }
    }
}
