// Meanings.

ghost use Rattle.snesl_meaning.specs.Meaning.{HaveOneMeaning, HaveSomeMeaning, IsNeverOfMemory};
ghost use Rattle.snesl_meaning.specs.Value.{GiveOneAnswer, MeaningsAreGiven};

use snesl_syntax::one_answer;
use snesl_values::one_input_meaning;

/// A law: a program and an input text have a meaning, and no two; none is that memory ran out. What they mean by
/// evaluation they give, and they give no two answers.
pub fn one_meaning()
    ensures one { HaveOneMeaning }
    ensures some { HaveSomeMeaning }
    ensures memory { IsNeverOfMemory }
    ensures given { MeaningsAreGiven }
    ensures answer { GiveOneAnswer }
{
    one_answer();
    one_input_meaning();
}
