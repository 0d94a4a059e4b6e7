// Programs that have a type.

ghost use Rattle.std.specs.Prelude.{◌≡◌, ◌↔◌, IsTrue};
ghost use Rattle.snesl_data.specs.Types.{ty_of};
ghost use Rattle.snesl_values.specs.Inputs.{declared};
ghost use Rattle.snesl_grammar.specs.View.{program_of as tree_of_program};
ghost use Rattle.snesl_types.specs.Programs.{HasTyping};

use crate::fits::same_decls;
use snesl_data::{Dialect, Ty};
use snesl_grammar::Program;
use snesl_values::Inputs;

/// A program with its inputs and its type. It keeps that the program has this type.
#[derive(Debug, Drop)]
pub struct TypedProgram<'a> {
    pub(crate) program: &'a Program,
    pub(crate) inputs: Vec<(Vec<u8>, Ty)>,
    pub(crate) ty: Ty,
    pub(crate) ghost typed: { ∥ HasTyping program.now.text.items (tree_of_program program.now)
        (declared inputs.items) (ty_of ty) ∥₁ },
}

impl<'a> TypedProgram<'a> {
    ghost use Rattle.snesl_types.specs.Typed.{program_of, typed_dialect, typed_inputs, typed_ty, AreReadFor};

    /// The program.
    pub fn program(&self) -> &'a Program
        ensures { result.now ≡ program_of self.now }
    {
        self.program
    }

    /// The dialect of the program.
    pub fn dialect(&self) -> Dialect
        ensures { result ≡ typed_dialect self.now }
    {
        self.program.dialect
    }

    /// The declared inputs in order, each a name and its type, as `read_inputs` takes them.
    pub fn decls(&self) -> &[(Vec<u8>, Ty)]
        ensures { declared result.now ≡ typed_inputs self.now }
    {
        &self.inputs
    }

    /// Whether the inputs were read for the program: in its dialect, and for the names and types of the
    /// declared inputs, in this order.
    pub fn fits(&self, inputs: &Inputs) -> bool
        ensures { IsTrue result ↔ AreReadFor self.now inputs.now }
    {
        inputs.dialect() == self.program.dialect && same_decls(inputs.decls(), &self.inputs)
    }

    /// The program's type.
    pub fn ty(&self) -> &Ty
        ensures { ty_of result.now ≡ typed_ty self.now }
    {
        &self.ty
    }
}
