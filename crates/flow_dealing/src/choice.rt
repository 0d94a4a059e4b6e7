// How many threads a graph is worth.
ghost use Rattle.std.specs.Prelude.{◌≡◌, ◌<◌, ◌≤◌, ◌⊎◌, IfOk, length};
ghost use Rattle.flow_dealing.specs.cut.Loads.{AreBetween};
ghost use Rattle.flow_dealing.specs.Choices.{DealsTried, IsChosen, is_sooner, pays, threads_for};

use crate::cut::{by_turns, deal_by_cut, greatest_load};
use crate::tried::{Tried, sum};
use std::alloc::{AllocError, Global};

/// How long a run has to take in one thread so that threads are chosen: ten milliseconds, in picoseconds.
pub const LONG: u64 = 10_000_000_000;

/// How many threads run the nodes of a graph, and why. Times are foretold, in picoseconds.
#[derive(Debug, Drop)]
pub struct Choice {
    /// One thread without rings; or two, or four, over rings.
    pub threads: usize,
    /// The share of each node.
    pub share: Vec<u8>,
    /// What one thread takes without rings.
    pub alone: u64,
    /// What two threads take over rings.
    pub two: u64,
    /// What four threads take over rings.
    pub four: u64,
}

/// Chooses two or four threads where they take under eight tenths of the time of one, which is over ten milliseconds: those of which
/// less is foretold, and no more than the most. Else it chooses one thread. The nodes are dealt by a cut.
///
/// Its only error is that memory was refused.
pub fn choose_threads(alloc: Global, tried: &Tried, most: usize) -> Result<Choice, AllocError>
    requires { AreBetween (length tried.now.rings.items) tried.now.links.items }
    ensures dealing { IfOk result (DealsTried tried.now) }
    ensures few { IfOk result (λ choice. (choice.threads ≡ 1) ⊎ (choice.threads ≤ most)) }
    ensures chosen { IfOk result (IsChosen most tried.now) }
{
    let alone = sum(&tried.alone);
    let share_of_two = deal_by_cut(alloc, &tried.rings, &tried.links, 2)?;
    let share_of_four = deal_by_cut(alloc, &tried.rings, &tried.links, 4)?;
    let two = greatest_load(&tried.rings, &tried.links, &share_of_two, 2);
    let four = greatest_load(&tried.rings, &tried.links, &share_of_four, 4);
    let threads = threads_for(most, alone, two, four);
    let share = if threads == 4 {
        share_of_four
    } else if threads == 2 {
        share_of_two
    } else {
        by_turns(alloc, tried.rings.len(), threads)?
    };
    Ok(Choice {
        threads,
        share,
        alone,
        two,
        four,
    })
}

// How many threads are chosen, of at most so many, by what one, two and four are foretold to take.
fn threads_for(most: usize, alone: u64, two: u64, four: u64) -> usize
    ensures chosen { result ≡ threads_for most alone two four }
    ensures few { (result ≡ 1) ⊎ (result ≤ most) }
    ensures some { 0 < result }
    ensures limit { result ≤ 4 }
{
    if most >= 4 && pays(alone, four) && four < two {
        4
    } else if most >= 2 && pays(alone, two) {
        2
    } else {
        1
    }
}

// Whether threads that are foretold to take so long pay.
fn pays(alone: u64, beside: u64) -> bool
    ensures { result ≡ pays alone beside }
{
    is_sooner(alone, beside) && alone > LONG
}

/// Whether so long is under eight tenths of the time of one thread.
pub fn is_sooner(alone: u64, beside: u64) -> bool
    ensures { result ≡ is_sooner alone beside }
{
    (beside as u128) * 10 < (alone as u128) * 8
}
