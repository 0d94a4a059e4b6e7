// What a program keeps.

ghost use Rattle.snesl_grammar.specs.Spelled.{IsSpelled};
ghost use Rattle.snesl_grammar.specs.View.{program_of};

use crate::program::Program;

/// The law that a program is spelled by its text: the text has at most 65,536 bytes, its tokens are
/// the program, and this is at most 64 deep.
pub fn program_is_spelled(program: &Program)
    ensures { ∥ IsSpelled program.now.text.items (program_of program.now) ∥₁ }
{}
