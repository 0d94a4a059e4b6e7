// What follows for both ends of an edge. The functions do nothing: their contracts are the theorems.
ghost use Rattle.std.specs.Prelude.{◌≡◌, true};
ghost use Rattle.std.specs.List.{All};
ghost use Rattle.flow_messages.specs.Signals.{signals, orderly};
ghost use Rattle.flow_words.specs.declared.ring.WordWriter.{WordWriter as Writer};
ghost use Rattle.flow_words.specs.declared.ring.WordReader.{WordReader as Reader};
ghost use Rattle.flow_words.specs.Edge.{received, edge_capacity, kind_of, reader_kind, FitsReader, IsEdge, SameBoth, SameWriter};

/// The ends of an edge stay its ends, whatever either was called for since, in whichever thread, and
/// are of one kind.
pub fn same_ends_are_an_edge()
    ensures edge { (w w' : Writer) (r r' : Reader) → IsEdge w r → SameBoth w r w' r' → IsEdge w' r' }
    ensures capacity { (w w' : Writer) → SameWriter w w' → edge_capacity w' ≡ edge_capacity w }
    ensures kind { (w w' : Writer) → SameWriter w w' → kind_of w' ≡ kind_of w }
    ensures kinds { (w : Writer) (r : Reader) → IsEdge w r → reader_kind r ≡ kind_of w }
{}

/// What was taken is of the edge's kind, and nothing in it follows an `End`.
pub fn what_came_is_in_turn()
    ensures fits { (r : Reader) → All (FitsReader r) (received r) }
    ensures last { (r : Reader) → orderly (signals (received r)) ≡ true }
{}
