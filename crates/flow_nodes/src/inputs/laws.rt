// What sources over texts write, by the values that the texts spell.

ghost use Rattle.flow_nodes.specs.inputs.Laws.{TextHoldsEdges, KindsOfEdges, TextTellsValues};

/// A law and no code to run. Where a text spells a value of a type, a source at one of the type's
/// edges writes that edge's part of what the value puts on all of them, and its items are of the
/// edge's kind. The value that is read there is the one that is spelled.
pub fn text_holds_edges()
    ensures items { TextHoldsEdges }
    ensures kinds { KindsOfEdges }
    ensures values { TextTellsValues }
{}
