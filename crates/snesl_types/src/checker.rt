// Checking: the type of a program, or the first rule that it violates.

ghost use Rattle.std.specs.Prelude.{◌≡◌, IfOk, IfErr};
ghost use Rattle.snesl_types.specs.Programs.{HaveOneTyping, HaveSomeTyping};
ghost use Rattle.snesl_types.specs.Typed.{program_of, HasTypingIn, IsFirstViolationIn, IsMemoryIfTypedIn};
ghost use Rattle.snesl_types.specs.Views.{IsTyping, IsFinalType};
ghost use Rattle.snesl_grammar.specs.tree.View.{tree_of};

use crate::declarations::{Declarations, declarations_of, few};
use crate::expressions::type_of;
use crate::names::{Names, Scope};
use crate::sizes::size_of;
use crate::typed::TypedProgram;
use snesl_data::{Dialect, Refusal, Ty};
use snesl_grammar::Program;
use snesl_grammar::tree::Expr;
use std::alloc::Global;

/// The greatest size of the final expression with its calls written out.
const GREATEST_SIZE: usize = 65_536;

/// The program with its inputs and its type, or the first rule that it violates, as `Name`,
/// `Mismatch` or `Streamed` with its offset, or `TooBig`: going through the text from left to
/// right, parts before the form over them, but through the binders and the condition of a
/// comprehension before its body. More than 64 functions or 64 inputs are `TooBig` before all else,
/// and a final expression that has with its calls written out a size over 65,536 is so after all
/// else. `NoMemory` where memory ran out.
pub fn check(alloc: Global, program: &Program) -> Result<TypedProgram<'_>, Refusal>
    ensures program { IfOk result (λ typed. program_of typed ≡ program.now) }
    ensures typed { IfOk result (HasTypingIn program.now) }
    ensures refused { IfErr result (IsFirstViolationIn program.now) }

    // A program that has a type is refused for want of memory only.
    ensures accepts { IfErr result (IsMemoryIfTypedIn program.now) }
{
    let (declarations, ty) = typing_of(alloc, program)?;
    Ok(TypedProgram {
        program,
        inputs: declarations.inputs,
        ty,
    })
}

// What a program declares, and its type.
fn typing_of(alloc: Global, program: &Program) -> Result<(Declarations, Ty), Refusal>
    ensures { IsTyping program.now result }
{
    if !few(&program.declarations) {
        return Err(Refusal::TooBig);
    }
    let declarations = declarations_of(
        program.dialect,
        alloc,
        &program.text,
        &program.declarations,
    )?;
    let ty = final_type(
        program.dialect,
        alloc,
        &program.text,
        &declarations,
        &program.expr,
    )?;
    Ok((declarations, ty))
}

// The type of the final expression, which sees the inputs.
fn final_type(
    dialect: Dialect,
    alloc: Global,
    text: &[u8],
    declarations: &Declarations,
    expr: &Expr,
) -> Result<Ty, Refusal>
    ensures { IsFinalType dialect text.now declarations.now (tree_of expr.now) result }
{
    let names = Names::Declared(&declarations.inputs);
    let scope = Scope {
        dialect,
        text,
        functions: &declarations.functions,
        names: &names,
    };
    let ty = type_of(alloc, &scope, expr)?;
    if size_of(text, &declarations.functions, expr) > GREATEST_SIZE {
        return Err(Refusal::TooBig);
    }
    Ok(ty)
}

/// A program declares one thing and has one type, or has one first violation, and not both; one
/// whose integers lie in the range of its dialect has the one or the other.
pub fn one_typing()
    ensures one { HaveOneTyping }
    ensures some { HaveSomeTyping }
{}
