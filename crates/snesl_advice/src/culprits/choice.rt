// Which part of a form is at fault.

ghost use Rattle.std.specs.Prelude.{◌≡◌, [], ◌∷◌};
ghost use Rattle.snesl_data.specs.Types.{ty_of};
ghost use Rattle.snesl_grammar.specs.tree.View.{tree_of, trees_of};
ghost use Rattle.snesl_types.specs.Clashes.{clash_of};
ghost use Rattle.snesl_types.specs.Names.{condition_in};
ghost use Rattle.snesl_advice.specs.culprits.Offsets.{offset_of};
ghost use Rattle.snesl_advice.specs.culprits.Views.{argument_of, branch_of, item_of, operand_of, other_of};
ghost use Rattle.snesl_advice.specs.culprits.Faults.{at_fault, begins_with_sequence, condition_at_fault, item_at_fault, parameter_at_fault, takes_left};

use crate::culprits::offsets::first_offset;
use snesl_data::Ty;
use snesl_grammar::tree::{Builtin, Expr, Operator};
use snesl_types::Clash;

// Where the part of the form begins that is at fault, if one is.
pub(crate) fn fault_offset(expr: &Expr, clash: &Clash) -> Option<usize>
    ensures { result ≡ offset_of (at_fault (clash_of clash.now) (tree_of expr.now)) }
{
    match expr {
        Expr::Prefix { operand, .. } => Some(first_offset(operand)),
        Expr::Binary {
            operator,
            left,
            right,
            ..
        } => operand_offset(clash, *operator, left, right),
        Expr::Call {
            function,
            arguments,
            ..
        } => argument_offset(clash, *function, arguments),
        Expr::Apply { arguments, .. } => parameter_offset(clash, arguments),
        Expr::If {
            condition,
            negative,
            ..
        } => branch_offset(clash, condition, negative),
        Expr::Literal { items, .. } => item_offset(clash, items),
        Expr::Filter { condition, .. } => Some(first_offset(condition)),
        Expr::Each { condition, .. } => condition_offset(condition),
        Expr::Integer { .. }
        | Expr::Truth { .. }
        | Expr::Name(_)
        | Expr::Group { .. }
        | Expr::Pair { .. }
        | Expr::Let { .. } => None,
    }
}

// Of an operator's operands.
fn operand_offset(clash: &Clash, operator: Operator, left: &Expr, right: &Expr) -> Option<usize>
    ensures { result ≡ offset_of (operand_of clash.now operator left.now right.now) }
{
    match clash {
        Clash::Operands(ty, _) if takes_left(operator, ty) => Some(first_offset(right)),
        Clash::Operands(_, _) => Some(first_offset(left)),
        _ => None,
    }
}

// Whether the operator takes a left operand of this type.
fn takes_left(operator: Operator, ty: &Ty) -> bool
    ensures { result ≡ takes_left operator (ty_of ty.now) }
{
    match operator {
        Operator::Or | Operator::And => matches!(ty, Ty::Bool),
        Operator::Equal => matches!(ty, Ty::Int | Ty::Bool),
        Operator::Append => matches!(ty, Ty::Seq(_)),
        Operator::Index => matches!(ty, Ty::Vec(_)),
        _ => matches!(ty, Ty::Int),
    }
}

// Of a built-in function's arguments.
fn argument_offset(clash: &Clash, function: Builtin, arguments: &[Expr]) -> Option<usize>
    ensures { result ≡ offset_of (argument_of clash.now function arguments.now) }
{
    match arguments {
        [only] => Some(first_offset(only)),
        [first, second] => part_offset(clash, function, first, second),
        _ => None,
    }
}

// Of two arguments, which `part` alone takes.
fn part_offset(clash: &Clash, function: Builtin, first: &Expr, second: &Expr) -> Option<usize>
    ensures { result ≡ offset_of (argument_of clash.now function (first.now ∷ second.now ∷ [])) }
{
    match function {
        Builtin::Part if begins_with_sequence(clash) => Some(first_offset(second)),
        Builtin::Part => Some(first_offset(first)),
        _ => None,
    }
}

// Whether the first argument is a sequence.
fn begins_with_sequence(clash: &Clash) -> bool
    ensures { result ≡ begins_with_sequence (clash_of clash.now) }
{
    match clash {
        Clash::Arguments(types) => matches!(types.as_slice(), [Ty::Seq(_), ..]),
        _ => false,
    }
}

// Of a declared function's arguments.
fn parameter_offset(clash: &Clash, arguments: &[Expr]) -> Option<usize>
    ensures { result ≡ offset_of (parameter_at_fault (clash_of clash.now) (trees_of arguments.now)) }
{
    match clash {
        Clash::Parameters { found, wanted } if found.len() == wanted.len() => {
            other_offset(wanted, found, arguments)
        }
        _ => None,
    }
}

// Of an `if`.
fn branch_offset(clash: &Clash, condition: &Expr, negative: &Expr) -> Option<usize>
    ensures { result ≡ offset_of (branch_of clash.now condition.now negative.now) }
{
    match clash {
        Clash::Branches { condition: ty, .. } if ty.is(&Ty::Bool) => Some(first_offset(negative)),
        Clash::Branches { .. } => Some(first_offset(condition)),
        _ => None,
    }
}

// Of a literal's items.
fn item_offset(clash: &Clash, items: &[Expr]) -> Option<usize>
    ensures { result ≡ offset_of (item_at_fault (clash_of clash.now) (trees_of items.now)) }
{
    match clash {
        Clash::Items(types) => changed_offset(types, items),
        _ => None,
    }
}

// Of items of these types the first that is of another one than the item before it.
fn changed_offset(types: &[Ty], items: &[Expr]) -> Option<usize>
    ensures { result ≡ offset_of (item_of types.now items.now) }
{
    match (types, items) {
        ([_, later @ ..], [_, others @ ..]) => other_offset(types, later, others),
        _ => None,
    }
}

// Of a comprehension, where it has a condition.
fn condition_offset(condition: &Option<Box<Expr>>) -> Option<usize>
    ensures { result ≡ offset_of (condition_at_fault (condition_in condition.now)) }
{
    match condition {
        Some(condition) => Some(first_offset(condition)),
        None => None,
    }
}

// Of parts of these types the first whose type is not the one that is wanted in its place.
fn other_offset(wanted: &[Ty], found: &[Ty], parts: &[Expr]) -> Option<usize>
    ensures { result ≡ offset_of (other_of wanted.now found.now parts.now) }
{
    let count = wanted.len().min(found.len()).min(parts.len());
    for place in 0..count {
        if !found[place].is(&wanted[place]) {
            return Some(first_offset(&parts[place]));
        }
    }
    None
}
