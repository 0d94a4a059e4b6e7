// Integers, side by side.
ghost use Rattle.std.specs.Prelude.{◌≡◌, ◌+◌, ◌<◌, ◌≤◌, [], ◌∷◌, ◌++◌, length, drop, IfOk, IfSome, IfNone};
ghost use Rattle.std.specs.VecDeque.{deque_len, deque_capacity};
ghost use mathlib.Core.List.{IsPrefix};

use crate::run::Run;
use std::alloc::{AllocError, Global};
use std::collections::VecDeque;

/// Integers, the oldest first, and room for as many as `most`. Those of 64 bits lie side by side. Where one is wider, it and all
/// that come after it wait behind them.
#[derive(Drop)]
pub struct IntRun {
    narrow: Run<i64>,
    wide: VecDeque<i128>,
    pub most: usize,
    ghost narrow_room: { narrow.most ≡ most },
    ghost wide_room: { most ≤ deque_capacity wide },
}

impl IntRun {
    ghost use Rattle.flow_messages.specs.IntRuns.{integers_in, IntRunBecomes};

    /// An empty run, with its room reserved. Its only error is that memory was refused.
    pub fn new(alloc: Global, most: usize) -> Result<IntRun, AllocError>
        ensures empty { IfOk result (λ r. (integers_in r ≡ []) × (r.most ≡ most)) }
    {
        let narrow = Run::new(alloc, most)?;
        let wide = VecDeque::with_capacity(alloc, most)?;
        Ok(IntRun { narrow, wide, most })
    }

    /// How many integers it holds.
    #[inline(always)]
    pub fn len(&self) -> usize
        ensures { result ≡ length (integers_in self.now) }
    {
        self.narrow.len() + self.wide.len()
    }

    /// The integers that come first, where they are of 64 bits.
    #[inline(always)]
    pub fn held(&self) -> &[i64]
        ensures { IsPrefix result.now (integers_in self.now) }
    {
        self.narrow.held()
    }

    /// Puts an integer after all others.
    #[inline(always)]
    pub fn put(&mut self, number: i128)
        requires room { length (integers_in self.old) < self.old.most }
        ensures { IntRunBecomes (integers_in self.old ++ number ∷ []) self.old self.new }
    {
        if self.wide.is_empty() {
            if let Ok(narrow) = i64::try_from(number) {
                self.narrow.put(narrow);
                return;
            }
        }
        self.wide.push_back_reserved(number);
    }

    /// Puts these integers after all others, in order.
    #[inline(always)]
    pub fn put_all(&mut self, numbers: &[i64])
        requires room { length (integers_in self.old) + length numbers.now ≤ self.old.most }
        ensures { IntRunBecomes (integers_in self.old ++ numbers.now) self.old self.new }
    {
        if !self.wide.is_empty() {
            queue_all(&mut self.wide, numbers);
            return;
        }
        self.narrow.put_all(numbers);
    }

    /// Takes the oldest.
    #[inline(always)]
    pub fn take(&mut self) -> Option<i128>
        ensures some { IfSome result (λ x. integers_in self.old ≡ x ∷ integers_in self.new) }
        ensures none { IfNone result ((integers_in self.old ≡ []) × (integers_in self.new ≡ [])) }
        ensures most { self.new.most ≡ self.old.most }
    {
        if let Some(number) = self.narrow.take() {
            return Some(number as i128);
        }
        self.wide.pop_front()
    }

    /// Takes this many of the oldest.
    #[inline(always)]
    pub fn skip(&mut self, count: usize)
        requires there { count ≤ length (integers_in self.old) }
        ensures { IntRunBecomes (drop count (integers_in self.old)) self.old self.new }
    {
        let narrow = self.narrow.len();
        if count <= narrow {
            self.narrow.skip(count);
            return;
        }
        self.narrow.skip(narrow);
        drop_front(&mut self.wide, count - narrow);
    }

    /// Moves all integers of another run after its own, in order.
    pub fn append(&mut self, other: &mut IntRun)
        requires room { length (integers_in self.old) + length (integers_in other.old) ≤
            self.old.most }
        ensures moved { IntRunBecomes (integers_in self.old ++ integers_in other.old)
            self.old self.new }
        ensures emptied { IntRunBecomes [] other.old other.new }
    {
        self.put_all(other.narrow.held());
        let narrow = other.narrow.len();
        other.narrow.skip(narrow);
        while let Some(number) = other.wide.pop_front() {
            self.put(number);
        }
    }
}

/// Takes this many of the oldest from a queue.
pub(crate) fn drop_front<T: Drop>(queue: &mut VecDeque<T>, count: usize)
    requires there { count ≤ deque_len queue.old }
    ensures items { queue.new.items ≡ drop count queue.old.items }
    ensures capacity { deque_capacity queue.new ≡ deque_capacity queue.old }
{
    for _ in 0..count {
        let _oldest = queue.pop_front();
    }
}

// Puts these integers after those of a queue.
fn queue_all(queue: &mut VecDeque<i128>, numbers: &[i64])
    requires room { deque_len queue.old + length numbers.now ≤ deque_capacity queue.old }
    ensures items { queue.new.items ≡ queue.old.items ++ numbers.now }
    ensures capacity { deque_capacity queue.new ≡ deque_capacity queue.old }
{
    for number in numbers {
        queue.push_back_reserved(*number as i128);
    }
}
