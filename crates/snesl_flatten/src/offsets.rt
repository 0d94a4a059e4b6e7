// Where expressions begin.

ghost use Rattle.std.specs.Prelude.{◌≡◌};
ghost use Rattle.snesl_grammar.specs.tree.View.{tree_of};
ghost use Rattle.snesl_translation.specs.Programs.{first_offset};

use snesl_grammar::tree::Expr;

// The offset of the first token of an expression.
pub(crate) fn first_offset(expr: &Expr) -> usize
    ensures { result ≡ first_offset (tree_of expr.now) }
{
    match expr {
        Expr::Binary { left, .. } => first_offset(left),
        _ => expr.at(),
    }
}
