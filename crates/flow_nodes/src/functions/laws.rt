// What holds of the rows of all transducers.

ghost use Rattle.flow_nodes.specs.functions.RowsAreFunctions.{RowsAreFunctions};

/// The law that each row is a partial function: it holds of what comes in and what goes out exactly where
/// the function of that transducer (specs/Made.antt) gives what goes out.
pub fn rows_are_functions()
    ensures { RowsAreFunctions }
{}
