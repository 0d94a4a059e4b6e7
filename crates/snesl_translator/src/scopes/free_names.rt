// Free names of expressions.

ghost use Rattle.std.specs.Prelude.{◌≡◌, ◌++◌};
ghost use Rattle.std.specs.Str.{bytes_eq};
ghost use Rattle.snesl_grammar.specs.tree.Spelling.{spelling};
ghost use Rattle.snesl_grammar.specs.tree.View.{tree_of, trees_of, binders_of};
ghost use Rattle.snesl_types.specs.Names.{condition_in};
ghost use Rattle.snesl_translation.specs.FreeNames.{free, free_of_all, free_of_condition, free_of_sources, is_among};
ghost use Rattle.snesl_translator.specs.scopes.Scopes.{binds};

use snesl_grammar::tree::{Binder, Expr, Span};

// Whether the expression takes the name from outside.
#[cycle(free_names)]
pub fn is_free(text: &[u8], name: &[u8], expr: &Expr) -> bool
    ensures { result ≡ is_among name.now (free text.now (tree_of expr.now)) }
{
    match expr {
        Expr::Integer { .. } | Expr::Truth { .. } => false,
        Expr::Name(place) => is_spelled(text, name, *place),
        Expr::Prefix { operand: part, .. } | Expr::Group { inner: part, .. } => {
            is_free(text, name, part)
        }
        Expr::Binary { left, right, .. } => {
            is_free(text, name, left) || is_free(text, name, right)
        }
        Expr::Pair { first, second, .. } => {
            is_free(text, name, first) || is_free(text, name, second)
        }
        Expr::Let {
            name: place,
            value,
            body,
            ..
        } => {
            let of_value = is_free(text, name, value);
            let of_body = is_free(text, name, body);
            let hidden = is_spelled(text, name, *place);
            of_value || !hidden && of_body
        }
        Expr::If {
            condition,
            positive,
            negative,
            ..
        } => {
            let of_condition = is_free(text, name, condition);
            let of_positive = is_free(text, name, positive);
            let of_negative = is_free(text, name, negative);
            of_condition || of_positive || of_negative
        }
        Expr::Filter {
            item,
            condition,
            ..
        } => is_free(text, name, condition) || is_free(text, name, item),
        Expr::Call { arguments, .. } => is_free_in_any(text, name, arguments),
        Expr::Apply { arguments, .. } => is_free_in_any(text, name, arguments),
        Expr::Literal { items, .. } => is_free_in_any(text, name, items),
        Expr::Each {
            body,
            binders,
            condition,
            ..
        } => {
            let of_sources = is_free_in_sources(text, name, binders);
            let of_condition = is_free_in_condition(text, name, condition);
            let of_body = is_free(text, name, body);
            let hidden = binds(text, name, binders);
            of_sources || !hidden && (of_condition || of_body)
        }
    }
}

// The same of one of several expressions.
#[cycle(free_names)]
fn is_free_in_any(text: &[u8], name: &[u8], all: &[Expr]) -> bool
    ensures { result ≡ is_among name.now (free_of_all text.now (trees_of all.now)) }
{
    for expr in all {
        if is_free(text, name, expr) {
            return true;
        }
    }
    false
}

// The same of one of the sources of binders.
#[cycle(free_names)]
fn is_free_in_sources(text: &[u8], name: &[u8], binders: &[Binder]) -> bool
    ensures { result ≡ is_among name.now (free_of_sources text.now (binders_of binders.now)) }
{
    for binder in binders {
        if is_free(text, name, &binder.source) {
            return true;
        }
    }
    false
}

// The same of a condition, where there is one.
#[cycle(free_names)]
fn is_free_in_condition(text: &[u8], name: &[u8], condition: &Option<Box<Expr>>) -> bool
    ensures { result ≡ is_among name.now (free_of_condition text.now (condition_in condition.now)) }
{
    match condition {
        Some(condition) => is_free(text, name, condition),
        None => false,
    }
}

// Whether one of the binders has the name.
pub fn binds(text: &[u8], name: &[u8], binders: &[Binder]) -> bool
    ensures { result ≡ binds text.now name.now (binders_of binders.now) }
{
    for binder in binders {
        if is_spelled(text, name, binder.name) {
            return true;
        }
    }
    false
}

fn is_spelled(text: &[u8], name: &[u8], place: Span) -> bool
    ensures { result ≡ bytes_eq name.now (spelling text.now place) }
{
    name == place.spelled(text)
}
