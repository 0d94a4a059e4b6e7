// Where forms begin.

ghost use Rattle.std.specs.Prelude.{◌≡◌};
ghost use Rattle.snesl_grammar.specs.tree.View.{tree_of};
ghost use Rattle.snesl_advice.specs.culprits.Offsets.{first_offset};

use snesl_grammar::tree::Expr;

/// Where the first token of an expression stands. An operator between two operands keeps its own offset, so it is that of the
/// left one.
pub fn first_offset(expr: &Expr) -> usize
    ensures { result ≡ first_offset (tree_of expr.now) }
{
    match expr {
        Expr::Binary { left, .. } => first_offset(left),
        _ => expr.at(),
    }
}
