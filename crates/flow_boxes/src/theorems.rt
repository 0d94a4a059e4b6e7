// What follows for the two boxes of an edge. The functions do nothing: their contracts are the theorems.
ghost use Rattle.std.specs.Prelude.{ℕ};
ghost use Rattle.flow_boxes.specs.Contents.{Contents};
ghost use Rattle.flow_boxes.specs.Rounds.{IsLinked, KeepsRound, FreshOutbox, FreshInbox, OpensWriter, OpensReader};
ghost use Rattle.flow_boxes.specs.Staying.{FreshBoxes, StaysThrough, StaysElsewhere};

/// Fresh boxes that were opened for one edge, with the same capacity, are the two of that edge.
pub fn fresh_boxes_are_linked()
    ensures { (w r : Contents) (e : ℕ) → FreshBoxes w r e → IsLinked w r e }
{}

/// The boxes of an edge stay its boxes, whatever either was called for within a round, and whatever
/// was carried or opened at another edge.
pub fn links_stay()
    ensures writer { (w w' r : Contents) (e : ℕ) → IsLinked w r e → KeepsRound w w' →
        IsLinked w' r e }
    ensures reader { (w r r' : Contents) (e : ℕ) → IsLinked w r e → KeepsRound r r' →
        IsLinked w r' e }
    ensures writer_elsewhere { (r : Contents) → StaysElsewhere (λ k w. IsLinked w r k) }
    ensures reader_elsewhere { (w : Contents) → StaysElsewhere (λ k r. IsLinked w r k) }
{}

/// A fresh box stays fresh while boxes of the other kind are opened beside it, at any edge, and while
/// anything is opened or carried at another edge.
pub fn fresh_boxes_stay_fresh()
    ensures outbox { StaysThrough FreshOutbox OpensReader }
    ensures inbox { StaysThrough FreshInbox OpensWriter }
    ensures outbox_elsewhere { StaysElsewhere FreshOutbox }
    ensures inbox_elsewhere { StaysElsewhere FreshInbox }
{}
