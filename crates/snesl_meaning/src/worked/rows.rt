// The worked rows as laws.

ghost use Rattle.snesl_meaning.specs.worked.Rows.{Hold};
ghost use Rattle.snesl_meaning.specs.worked.Worked.{faults, in_second, refusals, values, with_inputs};

/// A law: each worked row has the meaning that stands in it, by the definitions by which `run` promises its answers.
pub fn worked_rows()
    ensures values { Hold values }
    ensures faults { Hold faults }
    ensures refusals { Hold refusals }
    ensures in_second { Hold in_second }
    ensures with_inputs { Hold with_inputs }
{}
