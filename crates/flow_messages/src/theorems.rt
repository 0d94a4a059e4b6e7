// What follows where both ends of each edge are seen. The functions do nothing: their contracts are the theorems.
ghost use Rattle.std.specs.Prelude.{◌≡◌, ◌<◌, ◌↔◌, true, List, [], ◌∷◌, ◌++◌, drop};
ghost use mathlib.Core.List.{IsPrefix};
ghost use Rattle.flow_messages.specs.Signals.{Signal, stop, orderly};
ghost use Rattle.flow_messages.specs.Ends.{held};
ghost use Rattle.flow_messages.specs.Whole.{waiting, unreceived_count, EachPut, EachTake, EachWholeTake, EachWhole, EachWritten};

/// A put makes one message more wait, after all others, and there was room for it.
pub fn put_adds_one()
    ensures waits { EachPut (λ a e m b. waiting b e ≡ waiting a e ++ m ∷ []) }
    ensures room { EachPut (λ a e m b. a.writes e ≡ true → 0 < a.room e) }
{}

/// A take gives the oldest message that waits, and the others stay.
pub fn take_gives_oldest()
    ensures waits { EachWholeTake (λ a e m b. waiting a e ≡ m ∷ waiting b e) }
    ensures begins { EachWholeTake (λ a e m b.
        (a.received e ++ m ∷ []) ++ waiting b e ≡ a.sent e) }
{}

/// Where a message was certain, a take gives the first that was, also where only the reader's end is
/// seen. The others that were certain still are.
pub fn take_gives_what_was_certain()
    ensures first { EachTake (λ a e m b. 0 < held a e → IsPrefix (m ∷ []) (a.coming e)) }
    ensures others { EachTake (λ a e m b. IsPrefix (drop 1 (a.coming e)) (b.coming e)) }
{}

/// Messages are held exactly where more were sent than received, and there is room exactly where
/// fewer than the capacity are held. Where none is held, what was received is what was sent.
pub fn counts_are_exact()
    ensures held { EachWhole (λ capacity v e. held v e ≡ unreceived_count v e) }
    ensures room { EachWritten (λ capacity v e.
        (0 < v.room e) ↔ (unreceived_count v e < capacity)) }
    ensures none { EachWhole (λ capacity v e. held v e ≡ 0 → v.received e ≡ v.sent e) }
{}

/// In an orderly list nothing stands after a stop.
pub fn nothing_after_stop()
    ensures { (before after : List Signal) → orderly (before ++ stop ∷ after) ≡ true → after ≡ [] }
{}
