// What is asked before a thread is started.
ghost use Rattle.std.specs.Prelude.{◌≡◌, []};

use flow_messages::history::History;

/// What is asked before each start of a thread. Where it says no, that counts as a start that was refused.
pub trait Start {
    ghost use Rattle.std.specs.Prelude.{◌≡◌, ◌∷◌, ◌++◌, ℕ, List, [], true, false};

    /// It has said no.
    ghost refused: { Self → Type 0 };

    /// The threads that it was asked for, by their numbers, the first question first.
    ghost asked: { Self → List ℕ };

    /// Whether the thread with this number, counted from 0 in the order of the shares, may be started.
    fn may_start(&mut self, thread: usize) -> bool
        ensures asked { asked self.new ≡ asked self.old ++ thread ∷ [] }
        ensures no { result ≡ false → refused self.new }
        ensures kept { result ≡ true → refused self.new → refused self.old };
}

/// Says yes to each start.
#[derive(Drop)]
pub struct AlwaysStart {
    // What it was asked, which only proofs keep.
    asked: History<usize>,
}

impl AlwaysStart {
    /// It was not asked yet.
    pub fn new() -> AlwaysStart
        ensures { result.asked.items ≡ [] }
    {
        AlwaysStart {
            asked: History::new(),
        }
    }
}

impl Start for AlwaysStart {
    ghost refused = { λ _. ⊥ };

    ghost asked = { λ start. start.asked.items };

    fn may_start(&mut self, thread: usize) -> bool {
        self.asked = self.asked.with(&thread);
        true
    }
}
