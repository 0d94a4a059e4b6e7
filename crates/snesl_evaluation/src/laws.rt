// Laws of evaluation.

ghost use Rattle.snesl_evaluation.specs.Derived.{ChoiceMeaning, ConditionMeaning, LiteralMeaning, OneItemMeaning};

/// Laws and no code to run: `if`, a comprehension with a condition, and a literal have the answers
/// of the forms that they stand for.
pub fn derived_forms()
    ensures choice { ChoiceMeaning }
    ensures condition { ConditionMeaning }
    ensures one_item { OneItemMeaning }
    ensures literal { LiteralMeaning }
{}
