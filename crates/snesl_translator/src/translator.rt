// Translation.

ghost use Rattle.snesl_grammar.specs.tree.View.{tree_of};
ghost use Rattle.snesl_translator.specs.Forms.{Applies, CallsNamed, Chooses, Combines, Enters, Extends, Filters, FiltersNot, Invokes, Lets, PairsUp, Repeats, RepeatsOver, RepeatsWhere, Sifts, SiftsOver, SiftsRows, Singles, Translates, TranslatesAll, TranslatesIn, TranslatesLiteral, TranslatesRows, TranslatesSources, Uses};

use crate::forms::{always_true, flat, named, one_of, paired, sequence};
use crate::frames::{bind_parameters, one_bound};
use crate::functions::find_function;
use crate::rows::{Rows, open_each, open_where, part_of, part_where};
use crate::scopes::Scope;
use crate::steps::{
    Binding, Steps, Wires, append, apply_built_in, apply_operator, apply_prefix, constant,
};
use snesl_data::operators::Scalar;
use snesl_data::{Refusal, Ty};
use snesl_grammar::tree::{Binder, Builtin, Declaration, Expr, Function, Operator, Prefix, Span};

/// What stays the same in one body: the text, in which names are spelled, and the declarations whose functions may be
/// called.
#[derive(Clone, Copy)]
pub struct ProgramContext<'a> {
    pub text: &'a [u8],
    pub functions: &'a [Declaration],
}

/// Adds the steps of an expression under a control stream, which has one Unit for each instance of it, and returns the
/// streams of its values. `scope` tells the streams of names.
///
/// The translation is the flattening of nested data-parallelism (Blelloch and Sabot, 1990), onto streams (Madsen and
/// Filinski, 2013).
///
/// # Errors
///
/// `TooBig` where there would be more steps than a graph has nodes, and else `NoMemory`.
#[cycle(translate)]
#[inline(never)]
pub fn translate(
    steps: &mut Steps,
    context: &ProgramContext<'_>,
    expr: &Expr,
    scope: &Scope<'_>,
    control: usize,
) -> Result<Wires, Refusal>
    ensures { Translates steps.old steps.new context.now scope.now (tree_of expr.now) control result }
{
    // It only hands each form on to a function of its own, and none is inlined into another: its frame, and theirs, are
    // what translation takes of the stack.
    match expr {
        Expr::Integer { at, value } => constant(steps, *at, Scalar::Int(*value), &Ty::Int, control),
        Expr::Truth { at, value } => constant(steps, *at, Scalar::Bool(*value), &Ty::Bool, control),
        Expr::Name(name) => named(steps, context.text, *name, scope),
        Expr::Binary {
            at,
            operator,
            left,
            right,
        } => binary_form(steps, context, *at, *operator, left, right, scope, control),
        Expr::Prefix {
            at,
            operator,
            operand,
        } => prefix_form(steps, context, *at, *operator, operand, scope, control),
        Expr::Call {
            at,
            function,
            arguments,
        } => built_in(steps, context, *at, *function, arguments, scope, control),
        Expr::Apply {
            function,
            arguments,
        } => call_form(steps, context, *function, arguments, scope, control),
        Expr::Group { inner, .. } => translate(steps, context, inner, scope, control),
        Expr::Pair { at, first, second } => pair_form(
            steps, context, *at, first, second, scope, control,
        ),
        Expr::Let {
            at,
            name,
            value,
            body,
        } => let_form(steps, context, *at, *name, value, body, scope, control),
        Expr::If {
            at,
            condition,
            positive,
            negative,
        } => if_form(
            steps, context, *at, condition, positive, negative, scope, control,
        ),
        Expr::Literal { at, items } => literal_form(steps, context, *at, items, scope, control),
        Expr::Filter {
            at,
            item,
            condition,
        } => filter_form(steps, context, *at, item, condition, scope, control),
        Expr::Each {
            at,
            body,
            binders,
            condition,
        } => match condition {
            None => each_form(steps, context, *at, body, binders, scope, control),
            Some(condition) => each_where(
                steps, context, *at, body, binders, condition, scope, control,
            ),
        },
    }
}

// An operator between two operands.
#[cycle(translate)]
#[inline(never)]
fn binary_form(
    steps: &mut Steps,
    context: &ProgramContext<'_>,
    at: usize,
    operator: Operator,
    left: &Expr,
    right: &Expr,
    scope: &Scope<'_>,
    control: usize,
) -> Result<Wires, Refusal>
    ensures { Combines steps.old steps.new context.now scope.now at operator left.now right.now
        control result }
{
    let u = translate(steps, context, left, scope, control)?;
    let v = translate(steps, context, right, scope, control)?;
    apply_operator(steps, at, operator, &u, &v)
}

// An operator before its operand.
#[cycle(translate)]
#[inline(never)]
fn prefix_form(
    steps: &mut Steps,
    context: &ProgramContext<'_>,
    at: usize,
    operator: Prefix,
    operand: &Expr,
    scope: &Scope<'_>,
    control: usize,
) -> Result<Wires, Refusal>
    ensures { Applies steps.old steps.new context.now scope.now at operator operand.now control result }
{
    let u = translate(steps, context, operand, scope, control)?;
    apply_prefix(steps, at, operator, &u)
}

#[cycle(translate)]
#[inline(never)]
fn pair_form(
    steps: &mut Steps,
    context: &ProgramContext<'_>,
    at: usize,
    first: &Expr,
    second: &Expr,
    scope: &Scope<'_>,
    control: usize,
) -> Result<Wires, Refusal>
    ensures { PairsUp steps.old steps.new context.now scope.now at first.now second.now control result }
{
    let u = translate(steps, context, first, scope, control)?;
    let v = translate(steps, context, second, scope, control)?;
    paired(steps, u, v)
}

// A body where a name stands for the streams of another expression.
#[cycle(translate)]
#[inline(never)]
fn let_form(
    steps: &mut Steps,
    context: &ProgramContext<'_>,
    at: usize,
    name: Span,
    value: &Expr,
    body: &Expr,
    scope: &Scope<'_>,
    control: usize,
) -> Result<Wires, Refusal>
    ensures { Lets steps.old steps.new context.now scope.now at name value.now body.now control result }
{
    let u = translate(steps, context, value, scope, control)?;
    let frame = one_bound(steps.alloc(), name.spelled(context.text), u)?;
    in_frame(steps, context, body, &frame, &*scope, control)
}

// A body that sees these names before those of a scope.
#[cycle(translate)]
#[inline(never)]
fn in_frame<'a>(
    steps: &mut Steps,
    context: &ProgramContext<'_>,
    body: &Expr,
    frame: &'a [Binding<'a>],
    scope: &'a Scope<'a>,
    control: usize,
) -> Result<Wires, Refusal>
    ensures { TranslatesIn steps.old steps.new context.now frame.now scope.now body.now control result }
{
    let inner = Scope::Frame(frame, scope);
    let w = translate(steps, context, body, &inner, control)?;
    Ok(w)
}

// The one of two expressions that a condition says: both are there, and only one of them runs.
#[cycle(translate)]
#[inline(never)]
fn if_form(
    steps: &mut Steps,
    context: &ProgramContext<'_>,
    at: usize,
    condition: &Expr,
    positive: &Expr,
    negative: &Expr,
    scope: &Scope<'_>,
    control: usize,
) -> Result<Wires, Refusal>
    ensures { Chooses steps.old steps.new context.now scope.now at condition.now positive.now
        negative.now control result }
{
    let d = translate(steps, context, condition, scope, control)?;
    let u = filtered(steps, context, at, positive, scope, d.stream())?;
    let v = otherwise(steps, context, at, negative, scope, &d)?;
    one_of(steps, at, &u, &v)
}

// An item where truth values are false.
#[cycle(translate)]
#[inline(never)]
fn otherwise(
    steps: &mut Steps,
    context: &ProgramContext<'_>,
    at: usize,
    item: &Expr,
    scope: &Scope<'_>,
    condition: &Wires,
) -> Result<Wires, Refusal>
    ensures { FiltersNot steps.old steps.new context.now scope.now at item.now condition.now result }
{
    let e = apply_prefix(steps, at, Prefix::Not, condition)?;
    filtered(steps, context, at, item, scope, e.stream())
}

// A built-in function at arguments.
#[cycle(translate)]
#[inline(never)]
fn built_in(
    steps: &mut Steps,
    context: &ProgramContext<'_>,
    at: usize,
    function: Builtin,
    arguments: &[Expr],
    scope: &Scope<'_>,
    control: usize,
) -> Result<Wires, Refusal>
    ensures { Uses steps.old steps.new context.now scope.now at function arguments.now control result }
{
    let us = all_translated(steps, context, arguments, scope, control)?;
    apply_built_in(steps, at, function, &us)
}

// A declared function at arguments.
#[cycle(translate)]
#[inline(never)]
fn call_form(
    steps: &mut Steps,
    context: &ProgramContext<'_>,
    function: Span,
    arguments: &[Expr],
    scope: &Scope<'_>,
    control: usize,
) -> Result<Wires, Refusal>
    ensures { Invokes steps.old steps.new context.now scope.now function arguments.now control result }
{
    let us = all_translated(steps, context, arguments, scope, control)?;
    called(steps, context, function, &us, control)
}

// A declared function at the streams of its arguments.
#[cycle(translate)]
#[inline(never)]
fn called(
    steps: &mut Steps,
    context: &ProgramContext<'_>,
    name: Span,
    arguments: &[Wires],
    control: usize,
) -> Result<Wires, Refusal>
    ensures { CallsNamed steps.old steps.new context.now name arguments.now control result }
{
    let bytes = name.spelled(context.text);
    match find_function(bytes, context.text, context.functions) {
        Some((function, earlier)) => enter(steps, context, function, earlier, arguments, control),
        None => Ok(Wires::Wire(Ty::Int, 0)),
    }
}

// The body of a function, which sees its parameters and the functions before it.
#[cycle(translate)]
#[inline(never)]
fn enter(
    steps: &mut Steps,
    context: &ProgramContext<'_>,
    function: &Function,
    earlier: &[Declaration],
    wires: &[Wires],
    control: usize,
) -> Result<Wires, Refusal>
    ensures { Enters steps.old steps.new context.now function.now earlier.now wires.now control result }
{
    let inner = ProgramContext {
        text: &*context.text,
        functions: &*earlier,
    };
    let frame = bind_parameters(steps.alloc(), context.text, &function.parameters, wires)?;
    let nothing = Scope::Nothing;
    let w = in_frame(steps, &inner, &function.body, &frame, &nothing, control)?;
    Ok(w)
}

// A literal: its first item, and the others after it.
#[cycle(translate)]
#[inline(never)]
fn literal_form(
    steps: &mut Steps,
    context: &ProgramContext<'_>,
    at: usize,
    items: &[Expr],
    scope: &Scope<'_>,
    control: usize,
) -> Result<Wires, Refusal>
    ensures { TranslatesLiteral steps.old steps.new context.now scope.now at items.now control result }
{
    match items.split_first() {
        Some((first, others)) => {
            let sequence = single(steps, context, at, first, scope, control)?;
            further(steps, context, at, sequence, others, scope, control)
        }
        None => Ok(Wires::Wire(Ty::Int, 0)),
    }
}

// A sequence with items after it: each is appended to all that stand before it.
#[cycle(translate)]
#[inline(never)]
fn further(
    steps: &mut Steps,
    context: &ProgramContext<'_>,
    at: usize,
    sequence: Wires,
    items: &[Expr],
    scope: &Scope<'_>,
    control: usize,
) -> Result<Wires, Refusal>
    ensures { Extends steps.old steps.new context.now scope.now at sequence items.now control result }
{
    let mut all = sequence;
    for item in items {
        let last = single(steps, context, at, item, scope, control)?;
        all = append(steps, at, &all, &last)?;
    }
    Ok(all)
}

// The item where the condition is true, and else nothing.
#[cycle(translate)]
#[inline(never)]
fn filter_form(
    steps: &mut Steps,
    context: &ProgramContext<'_>,
    at: usize,
    item: &Expr,
    condition: &Expr,
    scope: &Scope<'_>,
    control: usize,
) -> Result<Wires, Refusal>
    ensures { Sifts steps.old steps.new context.now scope.now at item.now condition.now control result }
{
    let d = translate(steps, context, condition, scope, control)?;
    filtered(steps, context, at, item, scope, d.stream())
}

// A comprehension with no condition.
#[cycle(translate)]
#[inline(never)]
fn each_form(
    steps: &mut Steps,
    context: &ProgramContext<'_>,
    at: usize,
    body: &Expr,
    binders: &[Binder],
    scope: &Scope<'_>,
    control: usize,
) -> Result<Wires, Refusal>
    ensures { Repeats steps.old steps.new context.now scope.now at body.now binders.now control result }
{
    let sources = all_sources(steps, context, binders, scope, control)?;
    each_over(steps, context, at, body, binders, &sources, scope)
}

// A comprehension after its sources, in a frame of its own: sources nest, and need nothing of what comes after them.
#[cycle(translate)]
#[inline(never)]
fn each_over(
    steps: &mut Steps,
    context: &ProgramContext<'_>,
    at: usize,
    body: &Expr,
    binders: &[Binder],
    sources: &[Binding<'_>],
    scope: &Scope<'_>,
) -> Result<Wires, Refusal>
    ensures { RepeatsOver steps.old steps.new context.now scope.now at sources.now body.now
        binders.now result }
{
    let part = part_of(&*context.text, &*binders, &*body);
    let rows = open_each(steps, at, &part, &*sources, &*scope)?;
    in_rows(steps, context, body, &rows)
}

// A comprehension with a condition.
#[cycle(translate)]
#[inline(never)]
fn each_where(
    steps: &mut Steps,
    context: &ProgramContext<'_>,
    at: usize,
    body: &Expr,
    binders: &[Binder],
    condition: &Expr,
    scope: &Scope<'_>,
    control: usize,
) -> Result<Wires, Refusal>
    ensures { RepeatsWhere steps.old steps.new context.now scope.now at body.now binders.now
        condition.now control result }
{
    let sources = all_sources(steps, context, binders, scope, control)?;
    where_over(
        steps, context, at, body, binders, condition, &sources, scope,
    )
}

// The same after its sources.
#[cycle(translate)]
#[inline(never)]
fn where_over(
    steps: &mut Steps,
    context: &ProgramContext<'_>,
    at: usize,
    body: &Expr,
    binders: &[Binder],
    condition: &Expr,
    sources: &[Binding<'_>],
    scope: &Scope<'_>,
) -> Result<Wires, Refusal>
    ensures { SiftsOver steps.old steps.new context.now scope.now at sources.now body.now
        binders.now condition.now result }
{
    let part = part_where(&*context.text, &*binders, &*condition, &*body);
    let rows = open_each(steps, at, &part, &*sources, &*scope)?;
    where_true(steps, context, at, body, condition, &rows)
}

// The streams of arguments, from left to right.
#[cycle(translate)]
#[inline(never)]
fn all_translated(
    steps: &mut Steps,
    context: &ProgramContext<'_>,
    exprs: &[Expr],
    scope: &Scope<'_>,
    control: usize,
) -> Result<Vec<Wires>, Refusal>
    ensures { TranslatesAll steps.old steps.new context.now scope.now exprs.now control result }
{
    let mut us = Vec::new(steps.alloc());
    for expr in exprs {
        let u = translate(steps, context, expr, scope, control)?;
        us.push(u)?;
    }
    Ok(us)
}

// The names of a comprehension and the streams of their sequences.
#[cycle(translate)]
#[inline(never)]
fn all_sources<'a>(
    steps: &mut Steps,
    context: &ProgramContext<'a>,
    binders: &[Binder],
    scope: &Scope<'_>,
    control: usize,
) -> Result<Vec<Binding<'a>>, Refusal>
    ensures { TranslatesSources steps.old steps.new context.now scope.now binders.now control result }
{
    let mut sources = Vec::new(steps.alloc());
    for binder in binders {
        let wires = translate(steps, context, &binder.source, scope, control)?;
        let name = binder.name.spelled(context.text);
        sources.push(Binding { name, wires })?;
    }
    Ok(sources)
}

// An item where true stands.
#[cycle(translate)]
#[inline(never)]
fn single(
    steps: &mut Steps,
    context: &ProgramContext<'_>,
    at: usize,
    item: &Expr,
    scope: &Scope<'_>,
    control: usize,
) -> Result<Wires, Refusal>
    ensures { Singles steps.old steps.new context.now scope.now at item.now control result }
{
    let truths = always_true(steps, at, control)?;
    filtered(steps, context, at, item, scope, truths)
}

// An item where these truth values are true, and else nothing.
#[cycle(translate)]
#[inline(never)]
fn filtered(
    steps: &mut Steps,
    context: &ProgramContext<'_>,
    at: usize,
    item: &Expr,
    scope: &Scope<'_>,
    truths: usize,
) -> Result<Wires, Refusal>
    ensures { Filters steps.old steps.new context.now scope.now at item.now truths result }
{
    let part = part_of(&*context.text, &[], &*item);
    let rows = open_where(steps, at, &part, truths, &*scope)?;
    in_rows(steps, context, item, &rows)
}

// The sequence of a body's values, which sees this.
#[cycle(translate)]
#[inline(never)]
fn in_rows(
    steps: &mut Steps,
    context: &ProgramContext<'_>,
    body: &Expr,
    rows: &Rows<'_>,
) -> Result<Wires, Refusal>
    ensures { TranslatesRows steps.old steps.new context.now rows.now body.now result }
{
    let nothing = Scope::Nothing;
    let outside = Scope::Frame(&rows.outside, &nothing);
    let scope = Scope::Frame(&rows.items, &outside);
    let w = translate(steps, context, body, &scope, rows.control)?;
    let all = sequence(steps, rows.flags, w)?;
    Ok(all)
}

// The sequence of its values where a condition is true.
#[cycle(translate)]
#[inline(never)]
fn where_true(
    steps: &mut Steps,
    context: &ProgramContext<'_>,
    at: usize,
    body: &Expr,
    condition: &Expr,
    rows: &Rows<'_>,
) -> Result<Wires, Refusal>
    ensures { SiftsRows steps.old steps.new context.now rows.now at body.now condition.now result }
{
    let nothing = Scope::Nothing;
    let outside = Scope::Frame(&rows.outside, &nothing);
    let scope = Scope::Frame(&rows.items, &outside);
    let d = translate(steps, context, condition, &scope, rows.control)?;
    let w = filtered(steps, context, at, body, &scope, d.stream())?;
    let all = flat(steps, at, rows.flags, w)?;
    Ok(all)
}
