// Where the first and the last word of a form stand.

ghost use Rattle.std.specs.Prelude.{◌≡◌, map};
ghost use Rattle.snesl_grammar.specs.tree.Tree.{offset};
ghost use Rattle.snesl_grammar.specs.tree.View.{binders_of, declaration_of, tree_of, trees_of};
ghost use Rattle.snesl_types.specs.Names.{condition_in};
ghost use Rattle.snesl_draw.specs.Forms.{extent_among, extent_at, extent_in, extent_in_condition, extent_in_declaration, extent_in_declarations, extent_in_sources, extent_inside, extent_of, last_among, last_bound, last_offset, last_tested, own_extent};

use snesl_advice::culprits::first_offset;
use snesl_grammar::Program;
use snesl_grammar::tree::{Binder, Declaration, Expr};

// Where the first and the last word of a form stand.
#[derive(Clone, Copy)]
pub(crate) struct Extent {
    pub first: usize,
    pub last: usize,
}

// The extent of the form of a program that keeps the offset, and else that of the word there.
pub(crate) fn extent_at(program: &Program, at: usize) -> Extent
    ensures { result ≡ extent_at program.now at }
{
    match extent_in(&program.expr, at).or(extent_in_declarations(&program.declarations, at)) {
        Some(extent) => extent,
        None => Extent {
            first: at,
            last: at,
        },
    }
}

// That of the first in the bodies of functions.
fn extent_in_declarations(declarations: &[Declaration], at: usize) -> Option<Extent>
    ensures { result ≡ extent_in_declarations at (map declaration_of declarations.now) }
{
    for declaration in declarations {
        let seen = extent_in_declaration(declaration, at);
        if seen.is_some() {
            return seen;
        }
    }
    None
}

fn extent_in_declaration(declaration: &Declaration, at: usize) -> Option<Extent>
    ensures { result ≡ extent_in_declaration at (declaration_of declaration.now) }
{
    match declaration {
        Declaration::Input(_) => None,
        Declaration::Function(function) => extent_in(&function.body, at),
    }
}

// That of a form that keeps the offset.
fn own_extent(expr: &Expr, at: usize) -> Option<Extent>
    ensures { result ≡ own_extent at (tree_of expr.now) }
{
    if expr.at() == at {
        return Some(extent_of(expr));
    }
    None
}

fn extent_of(expr: &Expr) -> Extent
    ensures { result ≡ extent_of (tree_of expr.now) }
{
    Extent {
        first: first_offset(expr),
        last: last_offset(expr),
    }
}

// That of an expression, or of the first form within it.
#[cycle(walking)]
fn extent_in(expr: &Expr, at: usize) -> Option<Extent>
    ensures { result ≡ extent_in at (tree_of expr.now) }
{
    own_extent(expr, at).or(extent_inside(expr, at))
}

// That of the first form within an expression.
#[cycle(walking)]
fn extent_inside(expr: &Expr, at: usize) -> Option<Extent>
    ensures { result ≡ extent_inside at (tree_of expr.now) }
{
    match expr {
        Expr::Integer { .. } | Expr::Truth { .. } | Expr::Name(_) => None,
        Expr::Prefix { operand, .. } => extent_in(operand, at),
        Expr::Group { inner, .. } => extent_in(inner, at),
        Expr::Binary { left, right, .. } => extent_in(left, at).or(extent_in(right, at)),
        Expr::Pair { first, second, .. } => extent_in(first, at).or(extent_in(second, at)),
        Expr::Let { value, body, .. } => extent_in(value, at).or(extent_in(body, at)),
        Expr::Filter {
            item,
            condition,
            ..
        } => extent_in(item, at).or(extent_in(condition, at)),
        Expr::If {
            condition,
            positive,
            negative,
            ..
        } => extent_in(condition, at).or(extent_in(positive, at).or(extent_in(negative, at))),
        Expr::Call { arguments, .. } => extent_among(arguments, at),
        Expr::Apply { arguments, .. } => extent_among(arguments, at),
        Expr::Literal { items, .. } => extent_among(items, at),
        Expr::Each {
            body,
            binders,
            condition,
            ..
        } => extent_in(body, at).or(extent_in_sources(binders, at).or(extent_in_condition(
            condition, at,
        ))),
    }
}

// That of the first among these.
#[cycle(walking)]
fn extent_among(all: &[Expr], at: usize) -> Option<Extent>
    ensures { result ≡ extent_among at (trees_of all.now) }
{
    for one in all {
        let seen = extent_in(one, at);
        if seen.is_some() {
            return seen;
        }
    }
    None
}

// That of the first in what binders go over.
#[cycle(walking)]
fn extent_in_sources(binders: &[Binder], at: usize) -> Option<Extent>
    ensures { result ≡ extent_in_sources at (binders_of binders.now) }
{
    for binder in binders {
        let seen = extent_in(&binder.source, at);
        if seen.is_some() {
            return seen;
        }
    }
    None
}

// That of the first in a condition, where there is one.
#[cycle(walking)]
fn extent_in_condition(condition: &Option<Box<Expr>>, at: usize) -> Option<Extent>
    ensures { result ≡ extent_in_condition at (condition_in condition.now) }
{
    match condition {
        Some(condition) => extent_in(condition, at),
        None => None,
    }
}

// Where the last word of a form stands.
#[cycle(ending)]
fn last_offset(expr: &Expr) -> usize
    ensures { result ≡ last_offset (tree_of expr.now) }
{
    match expr {
        Expr::Integer { at, .. } | Expr::Truth { at, .. } => *at,
        Expr::Name(name) => name.at,
        Expr::Binary { right, .. } => last_offset(right),
        Expr::Prefix { operand, .. } => last_offset(operand),
        Expr::Group { inner, .. } => last_offset(inner),
        Expr::Pair { second, .. } => last_offset(second),
        Expr::Let { body, .. } => last_offset(body),
        Expr::If { negative, .. } => last_offset(negative),
        Expr::Filter { condition, .. } => last_offset(condition),
        Expr::Call { at, arguments, .. } => last_among(*at, arguments),
        Expr::Apply {
            function,
            arguments,
        } => last_among(function.at, arguments),
        Expr::Literal { at, items } => last_among(*at, items),
        Expr::Each {
            at,
            binders,
            condition,
            ..
        } => last_tested(last_bound(*at, binders), condition),
    }
}

// Where the last word of these stands, or else one before them.
#[cycle(ending)]
fn last_among(before: usize, all: &[Expr]) -> usize
    ensures { result ≡ last_among before (trees_of all.now) }
{
    let mut last = before;
    for one in all {
        last = last_offset(one);
    }
    last
}

#[cycle(ending)]
fn last_bound(before: usize, binders: &[Binder]) -> usize
    ensures { result ≡ last_bound before (binders_of binders.now) }
{
    let mut last = before;
    for binder in binders {
        last = last_offset(&binder.source);
    }
    last
}

#[cycle(ending)]
fn last_tested(before: usize, condition: &Option<Box<Expr>>) -> usize
    ensures { result ≡ last_tested before (condition_in condition.now) }
{
    match condition {
        Some(condition) => last_offset(condition),
        None => before,
    }
}
