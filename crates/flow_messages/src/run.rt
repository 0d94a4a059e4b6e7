// Items of one kind, side by side.
ghost use Rattle.std.specs.Prelude.{◌≡◌, ◌+◌, ◌<◌, ◌≤◌, ◌==◌, [], ◌∷◌, ◌++◌, length, drop, IfOk, IfSome, IfNone};
ghost use Rattle.std.specs.Vec.{vec_len, vec_capacity};

use std::alloc::{AllocError, Global};

// So many items and fewer are put one by one: to copy them as a block costs more.
const FEW: usize = 8;

/// Items side by side, the oldest first, and room for as many as `most`. Those that were taken lie before the others until no
/// other is left, or the others move to the front.
#[derive(Drop)]
pub struct Run<T> {
    items: Vec<T>,
    taken: usize,
    pub most: usize,
    ghost taken_within: { taken ≤ length items.items },
    ghost bound: { length items.items ≤ taken + most },
    ghost reserved: { most + most ≤ vec_capacity items },
}

impl<T: Copy + Drop> Run<T> {
    ghost use Rattle.flow_messages.specs.Runs.{run_items, RunBecomes};

    /// An empty run, with its room reserved. It is refused where there is no memory for twice as many items.
    pub fn new(alloc: Global, most: usize) -> Result<Run<T>, AllocError>
        ensures empty { IfOk result (λ r. (run_items r ≡ []) × (r.most ≡ most)) }
    {
        let places = most.checked_mul(2).ok_or(AllocError)?;
        let items = Vec::with_capacity(alloc, places)?;
        Ok(Run {
            items,
            taken: 0,
            most,
        })
    }

    /// What it holds, the oldest first.
    #[inline(always)]
    pub fn held(&self) -> &[T]
        ensures { result.now ≡ run_items self.now }
    {
        &self.items[self.taken..]
    }

    /// How many items it holds.
    #[inline(always)]
    pub fn len(&self) -> usize
        ensures { result ≡ length (run_items self.now) }
    {
        self.items.len() - self.taken
    }

    /// Whether it holds no item.
    #[inline(always)]
    pub fn is_empty(&self) -> bool
        ensures { result ≡ (length (run_items self.now) == 0) }
    {
        self.items.len() == self.taken
    }

    /// Puts an item after all others.
    #[inline(always)]
    pub fn put(&mut self, item: T)
        requires room { length (run_items self.old) < self.old.most }
        ensures { RunBecomes (run_items self.old ++ item ∷ []) self.old self.new }
    {
        if self.items.len() >= self.most + self.most {
            self.move_down();
        }
        self.items.push_reserved(item);
    }

    /// Puts these items after all others, in order.
    #[inline(always)]
    pub fn put_all(&mut self, items: &[T])
        requires room { length (run_items self.old) + length items.now ≤ self.old.most }
        ensures { RunBecomes (run_items self.old ++ items.now) self.old self.new }
    {
        if self.items.len() + items.len() > self.most + self.most {
            self.move_down();
        }
        if items.len() <= FEW {
            push_each(&mut self.items, items);
            return;
        }
        let _fits = self.items.extend_from_slice(items);
    }

    /// Takes this many of the oldest.
    #[inline(always)]
    pub fn skip(&mut self, count: usize)
        requires there { count ≤ length (run_items self.old) }
        ensures { RunBecomes (drop count (run_items self.old)) self.old self.new }
    {
        if count == self.len() {
            self.items.clear();
            self.taken = 0;
        } else {
            self.taken += count;
        }
    }

    /// Takes the oldest.
    #[inline(always)]
    pub fn take(&mut self) -> Option<T>
        ensures some { IfSome result (λ x. run_items self.old ≡ x ∷ run_items self.new) }
        ensures none { IfNone result ((run_items self.old ≡ []) × (run_items self.new ≡ [])) }
        ensures most { self.new.most ≡ self.old.most }
    {
        if self.is_empty() {
            return None;
        }
        let item = self.items[self.taken];
        self.skip(1);
        Some(item)
    }

    /// Moves what it holds to the front, so that there is room after it.
    #[inline(never)]
    fn move_down(&mut self)
        ensures items { run_items self.new ≡ run_items self.old }
        ensures taken { self.new.taken ≡ 0 }
        ensures most { self.new.most ≡ self.old.most }
    {
        let left = self.len();
        self.items.copy_within(self.taken.., 0);
        self.items.truncate(left);
        self.taken = 0;
    }
}

// Puts these items after those of a vector, one by one, where their room is reserved.
#[inline(always)]
fn push_each<T: Copy + Drop>(items: &mut Vec<T>, more: &[T])
    requires room { vec_len items.old + length more.now ≤ vec_capacity items.old }
    ensures items { items.new.items ≡ items.old.items ++ more.now }
    ensures capacity { vec_capacity items.new ≡ vec_capacity items.old }
{
    for at in 0..more.len() {
        items.push_reserved(more[at]);
    }
}
