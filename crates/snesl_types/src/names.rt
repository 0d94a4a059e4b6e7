// The names that an expression sees.

ghost use Rattle.std.specs.Prelude.{◌≡◌, Some, option_map};
ghost use Rattle.snesl_data.specs.Types.{ty_of};
ghost use Rattle.snesl_values.specs.Inputs.{declared};
ghost use Rattle.snesl_types.specs.Contexts.{open_to, type_in as type_among};
ghost use Rattle.snesl_types.specs.Names.{found_binding, binding_named, seen, found_signature, signature_named};

use snesl_data::{Dialect, Ty};
use snesl_grammar::tree::Span;

// What a call sees of a declared function: its name, its parameters with their types, and the type of its result.
#[derive(Debug, Drop)]
pub(crate) struct Function {
    pub(crate) name: Span,
    pub(crate) parameters: Vec<(Vec<u8>, Ty)>,
    pub(crate) result: Ty,
    // The size of the body with the calls in it written out, or what stands for one that is too great.
    pub(crate) size: usize,
}

// The variables that an expression sees, the innermost first.
#[derive(Clone, Copy)]
pub(crate) enum Names<'a> {
    // Inputs or parameters.
    Declared(&'a [(Vec<u8>, Ty)]),
    // One more variable, spelled as the text has it at `name`.
    Bound {
        name: Span,
        ty: &'a Ty,
        outer: &'a Names<'a>,
    },
    // The binders of a comprehension, and the variables outside it as its body sees them.
    Inside {
        binders: &'a [(Vec<u8>, Ty)],
        outer: &'a Names<'a>,
    },
}

// What a name stands for where it is used.
#[derive(Clone, Copy)]
pub(crate) enum Meaning<'a> {
    Unbound,
    // Of a streamed type, and bound outside the comprehension in which it is used.
    Shut,
    Open(&'a Ty),
}

// What an expression sees: the dialect of its integers, the text that spells its names, the functions that it can call,
// and its variables.
#[derive(Clone, Copy)]
pub(crate) struct Scope<'a> {
    pub(crate) dialect: Dialect,
    pub(crate) text: &'a [u8],
    pub(crate) functions: &'a [Function],
    pub(crate) names: &'a Names<'a>,
}

impl<'a> Scope<'a> {
    // With these variables in place of its own.
    pub(crate) fn with_names<'b>(&'b self, names: &'b Names<'b>) -> Scope<'b>
        ensures dialect { result.dialect ≡ self.now.dialect }
        ensures text { result.text.now ≡ self.now.text.now }
        ensures functions { result.functions.now ≡ self.now.functions.now }
        ensures names { result.names.now ≡ names.now }
    {
        Scope {
            dialect: self.dialect,
            text: self.text,
            functions: self.functions,
            names,
        }
    }
}

// What a name stands for, where `crossed` tells that the edge of a comprehension lies between it and these names.
pub(crate) fn look_up<'a>(
    text: &[u8],
    name: Span,
    names: &'a Names<'a>,
    crossed: bool,
) -> Meaning<'a>
    ensures { found_binding result ≡ seen crossed (binding_named text.now name names.now) }
{
    match names {
        Names::Declared(all) => match type_in(name.spelled(text), all) {
            Some(ty) => meaning_across(ty, crossed),
            None => Meaning::Unbound,
        },
        Names::Bound {
            name: bound,
            ty,
            outer,
        } => {
            if name.spelled(text) == bound.spelled(text) {
                meaning_across(ty, crossed)
            } else {
                look_up(text, name, outer, crossed)
            }
        }
        Names::Inside { binders, outer } => match type_in(name.spelled(text), binders) {
            Some(ty) => meaning_across(ty, crossed),
            None => look_up(text, name, outer, true),
        },
    }
}

// A streamed type is shut once the edge of a comprehension is crossed.
fn meaning_across(ty: &Ty, crossed: bool) -> Meaning<'_>
    ensures { found_binding result ≡ seen crossed (Some (open_to (ty_of ty.now))) }
{
    if crossed && !ty.concrete() {
        Meaning::Shut
    } else {
        Meaning::Open(ty)
    }
}

// The type of the first of these that has the name.
pub(crate) fn type_in<'a>(name: &[u8], names: &'a [(Vec<u8>, Ty)]) -> Option<&'a Ty>
    ensures { option_map (λ ty. ty_of ty.now) result ≡ type_among name.now (declared names.now) }
{
    for (bytes, ty) in names {
        if bytes.as_slice() == name {
            return Some(ty);
        }
    }
    None
}

// The first function that has the name.
pub(crate) fn function_named<'a>(
    text: &[u8],
    name: Span,
    functions: &'a [Function],
) -> Option<&'a Function>
    ensures { found_signature text.now result ≡ signature_named text.now name functions.now }
{
    for function in functions {
        if function.name.spelled(text) == name.spelled(text) {
            return Some(function);
        }
    }
    None
}
