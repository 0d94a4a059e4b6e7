// What the translation means.

ghost use Rattle.snesl_translation.specs.Theorems.{TypedExpressionsMean, TypedFunctionsMean};
ghost use Rattle.snesl_translation.specs.Literals.{LiteralSteps, OneItemSteps};
ghost use Rattle.snesl_translation.specs.Programs.{PlansMean};

/// The law that a typed expression means its value: for any list of environments at once, each an
/// instance of the expression, the steps of its translation run exactly where evaluation gives a
/// value at each, and the streams that they give carry just these values; and so does each typed
/// function, at rows of arguments.
///
/// The translation is the flattening of nested data-parallelism (Blelloch and Sabot, 1990), onto
/// streams (Madsen and Filinski, 2013).
pub fn expressions_are_translated()
    ensures expressions { TypedExpressionsMean }
    ensures functions { TypedFunctionsMean }
{}

/// The law that the plan of a typed program runs exactly where the program has a value for inputs
/// that fit it, and that the streams which go to its Print then carry that one value.
pub fn programs_are_planned()
    ensures { PlansMean }
{}

/// The law that a literal has the steps of its written-out form: its items group to the left, so the
/// literal of more items has those of the first ones, with the last appended. What goes over the
/// edges, and where a network stalls, is then the same for both.
pub fn literals_are_written_out()
    ensures one_item { OneItemSteps }
    ensures literal { LiteralSteps }
{}
