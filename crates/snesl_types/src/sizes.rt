// Sizes of expressions with their calls written out.

ghost use Rattle.std.specs.Prelude.{◌≡◌, ◌+◌};
ghost use Rattle.snesl_grammar.specs.tree.Spelling.{spelling};
ghost use Rattle.snesl_grammar.specs.tree.View.{tree_of, trees_of, binders_of};
ghost use Rattle.snesl_types.specs.Sizes.{body_size as size_named};
ghost use Rattle.snesl_types.specs.Names.{condition_in, sizes_in, size_in, all_sizes_in, binders_size_in, condition_size_in};
ghost use Rattle.snesl_types.specs.Verdicts.{capped};

use crate::names::Function;
use snesl_grammar::tree::{Binder, Expr, Span};

/// One more than the greatest size of the final expression; it stands for all greater sizes too.
const OVER: usize = 65_537;

// The size of an expression with its calls written out, or 65,537 where it is greater.
#[cycle(sizes)]
pub(crate) fn size_of(text: &[u8], functions: &[Function], expr: &Expr) -> usize
    ensures { result ≡ size_in text.now functions.now (tree_of expr.now) }
{
    match expr {
        Expr::Integer { .. } | Expr::Truth { .. } | Expr::Name(_) => 1,
        Expr::Prefix { operand: part, .. } | Expr::Group { inner: part, .. } => {
            sum(1, size_of(text, functions, part))
        }
        Expr::Binary { left, right, .. } => {
            let first = size_of(text, functions, left);
            sum(1, sum(first, size_of(text, functions, right)))
        }
        Expr::Pair { first, second, .. } => {
            let first = size_of(text, functions, first);
            sum(1, sum(first, size_of(text, functions, second)))
        }
        Expr::Let { value, body, .. } => {
            let first = size_of(text, functions, value);
            sum(1, sum(first, size_of(text, functions, body)))
        }
        Expr::Filter {
            item,
            condition,
            ..
        } => {
            let first = size_of(text, functions, item);
            sum(1, sum(first, size_of(text, functions, condition)))
        }
        Expr::Call { arguments, .. } => sum(1, size_of_all(text, functions, arguments)),
        Expr::Literal { items, .. } => sum(1, size_of_all(text, functions, items)),
        Expr::Apply {
            function,
            arguments,
        } => {
            let all = size_of_all(text, functions, arguments);
            sum(1, sum(all, body_size(text, *function, functions)))
        }
        Expr::If {
            condition,
            positive,
            negative,
            ..
        } => {
            let condition = size_of(text, functions, condition);
            let positive = size_of(text, functions, positive);
            let negative = size_of(text, functions, negative);
            sum(1, sum(condition, sum(positive, negative)))
        }
        Expr::Each {
            body,
            binders,
            condition,
            ..
        } => {
            let binders = size_of_binders(text, functions, binders);
            let condition = size_of_condition(text, functions, condition);
            let body = size_of(text, functions, body);
            sum(1, sum(binders, sum(condition, body)))
        }
    }
}

// The sizes of arguments or items together.
#[cycle(sizes)]
fn size_of_all(text: &[u8], functions: &[Function], all: &[Expr]) -> usize
    ensures { result ≡ all_sizes_in text.now functions.now (trees_of all.now) }
{
    let mut total = 0;
    for expr in all {
        let one = size_of(text, functions, expr);
        total = sum(total, one);
    }
    total
}

// The sizes of the sequences of binders together.
#[cycle(sizes)]
fn size_of_binders(text: &[u8], functions: &[Function], binders: &[Binder]) -> usize
    ensures { result ≡ binders_size_in text.now functions.now (binders_of binders.now) }
{
    let mut total = 0;
    for binder in binders {
        let one = size_of(text, functions, &binder.source);
        total = sum(total, one);
    }
    total
}

// The size of a condition, 0 where there is none.
#[cycle(sizes)]
fn size_of_condition(text: &[u8], functions: &[Function], condition: &Option<Box<Expr>>) -> usize
    ensures { result ≡ condition_size_in text.now functions.now (condition_in condition.now) }
{
    match condition {
        Some(condition) => size_of(text, functions, condition),
        None => 0,
    }
}

// The size of the body of the function of this name.
fn body_size(text: &[u8], name: Span, functions: &[Function]) -> usize
    ensures { result ≡ size_named (spelling text.now name) (sizes_in text.now functions.now) }
{
    for function in functions {
        if name.spelled(text) == function.name.spelled(text) {
            return function.size;
        }
    }
    0
}

fn sum(a: usize, b: usize) -> usize
    ensures { result ≡ capped (a + b) }
{
    a.saturating_add(b).min(OVER)
}
