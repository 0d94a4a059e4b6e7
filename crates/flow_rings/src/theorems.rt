// What follows for both ends of an edge. The functions do nothing: their contracts are the theorems.
ghost use Rattle.std.specs.Prelude.{◌≡◌};
ghost use Rattle.flow_rings.specs.declared.ring.EdgeWriter.{EdgeWriter as Writer};
ghost use Rattle.flow_rings.specs.declared.ring.EdgeReader.{EdgeReader as Reader};
ghost use Rattle.flow_rings.specs.declared.ring.FinishedMark.{FinishedMark as Mark};
ghost use Rattle.flow_rings.specs.Edge.{sent, edge_capacity, kind_of, reader_kind, IsEdge, SameBoth, SameWriter, all_sent, Finishes, HasAll, IsMarkOf, TookAll, AtEnd};

/// The ends of an edge stay its ends, whatever either was called for since, in whichever thread, and
/// are of one kind. A mark that the writer has left is then one of the reader's edge.
pub fn same_ends_are_an_edge()
    ensures edge { (w w' : Writer) (r r' : Reader) → IsEdge w r → SameBoth w r w' r' → IsEdge w' r' }
    ensures capacity { (w w' : Writer) → SameWriter w w' → edge_capacity w' ≡ edge_capacity w }
    ensures kind { (w w' : Writer) → SameWriter w w' → kind_of w' ≡ kind_of w }
    ensures kinds { (w : Writer) (r : Reader) → IsEdge w r → reader_kind r ≡ kind_of w }
    ensures mark { (w : Writer) (r : Reader) (f : Mark) → IsEdge w r → Finishes w f →
        IsMarkOf f r }
{}

/// Where `End` was taken, all was taken that was put, and nothing is left: where both ends have met, and
/// where the writer has left its mark.
pub fn all_was_received()
    ensures writer { (w : Writer) (r : Reader) → HasAll r (sent w) → AtEnd r → TookAll r (sent w) }
    ensures mark { (f : Mark) (r : Reader) → HasAll r (all_sent f) → AtEnd r →
        TookAll r (all_sent f) }
{}
