// Which piece of a program a form is.

ghost use Rattle.std.specs.Prelude.{◌≡◌, ◌<◌, IfOk, OnOk, drop};
ghost use Rattle.snesl_grammar.specs.tree.View.{tree_of};
ghost use Rattle.snesl_draw.specs.Forms.{closed_len, closes, depth_after, drawn_form, forms_of, has_form, is_closed, is_outermost, one_more_form, opens, piece_of, word_end};

use crate::drawing::{DrawnForm, DrawnNode};
use crate::extent::{Extent, extent_at};
use snesl_advice::culprits::first_offset;
use snesl_data::word_len;
use snesl_grammar::Program;
use snesl_grammar::tree::{Expr, Span};
use std::alloc::{AllocError, Global};

// The forms that nodes come from, each once, but for the outermost one.
pub(crate) fn forms_of(
    alloc: Global,
    program: &Program,
    nodes: &[DrawnNode],
) -> Result<Vec<DrawnForm>, AllocError>
    ensures { IfOk result (λ forms. forms.items ≡ forms_of program.now nodes.now) }
{
    let mut forms = Vec::new(alloc);
    for node in nodes {
        add_form(&mut forms, program, *node)?;
    }
    Ok(forms)
}

// That of one node.
fn add_form(
    forms: &mut Vec<DrawnForm>,
    program: &Program,
    node: DrawnNode,
) -> Result<(), AllocError>
    ensures { OnOk result (forms.new.items ≡ one_more_form program.now forms.old.items node) }
{
    if is_outermost(&program.expr, node.at) || has_form(forms, node.at) {
        return Ok(());
    }
    forms.push(drawn_form(program, node))?;
    Ok(())
}

// Whether the outermost form keeps the offset, or begins there.
fn is_outermost(expr: &Expr, at: usize) -> bool
    ensures { result ≡ is_outermost (tree_of expr.now) at }
{
    expr.at() == at || first_offset(expr) == at
}

// Whether one of the forms keeps the offset.
pub(crate) fn has_form(forms: &[DrawnForm], at: usize) -> bool
    ensures { result ≡ has_form forms.now at }
{
    forms.iter().any(|form| form.at == at)
}

/// The form of a program that a node comes from, as the first of its nodes. The form's piece goes from its first word to its last,
/// and on until no bracket of it is open. Where no form keeps the node's offset, it is that of the word there.
pub fn drawn_form(program: &Program, node: DrawnNode) -> DrawnForm
    ensures { result ≡ drawn_form program.now node }
{
    DrawnForm {
        at: node.at,
        first: node.number,
        piece: piece_of(&program.text, extent_at(program, node.at)),
    }
}

// From the first word to the end of the last, and on until no bracket of it is open.
fn piece_of(text: &[u8], extent: Extent) -> Span
    ensures { result ≡ piece_of text.now extent }
{
    let least = word_end(text, extent.last).saturating_sub(extent.first);
    Span {
        at: extent.first,
        len: closed_len(from(text, extent.first), least),
    }
}

// Where the word at an offset ends.
fn word_end(text: &[u8], at: usize) -> usize
    ensures { result ≡ word_end text.now at }
{
    at + word_len(from(text, at))
}

// What stands from an offset on.
fn from(text: &[u8], at: usize) -> &[u8]
    ensures { result.now ≡ drop at text.now }
{
    &text[at.min(text.len())..]
}

// The length of the shortest beginning of a text that has so many bytes and leaves no bracket open.
fn closed_len(text: &[u8], least: usize) -> usize
    ensures { result ≡ closed_len 0 least text.now }
{
    let mut depth = 0;
    let mut left = least;
    let mut len = 0;
    for byte in text {
        if is_closed(depth, left) {
            return len;
        }
        depth = depth_after(depth, *byte);
        left = left.saturating_sub(1);
        len += 1;
    }
    len
}

// Whether no bracket is open, and no byte is left.
fn is_closed(depth: usize, left: usize) -> bool
    ensures { result ≡ is_closed depth left }
{
    depth == 0 && left == 0
}

// How many brackets are open after a byte, where so many were before it.
fn depth_after(depth: usize, byte: u8) -> usize
    requires { depth < usize.MAX }
    ensures { result ≡ depth_after depth byte }
{
    match byte {
        b'(' | b'[' | b'{' => depth + 1,
        b')' | b']' | b'}' => depth.saturating_sub(1),
        _ => depth,
    }
}
