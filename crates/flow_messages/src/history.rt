//! A list that only proofs read. It takes no memory, and its functions do nothing at run time.
//!
//! Whoever passes messages on keeps no list of what went by. A contract still speaks of it: the list
//! stands in a [`History`], which has no bytes, beside the data that the code keeps.

ghost use Rattle.std.specs.Prelude.{◌≡◌, List, [], ◌∷◌, ◌++◌};
ghost use Rattle.std.specs.Borrow.{ftrue};
ghost use Rattle.std.specs.Coded.{coded_list};

use std::marker::{Model, PhantomData};

/// What happened so far, the oldest first. A clause reads it as `items`.
#[derive(Drop)]
pub struct History<T> {
    of: PhantomData<T>,
    pub ghost items: { List T } by { coded_list T.code },
}

impl<T> Model for History<T> {
    ghost also_owns = { λ _. ftrue };
}

// It owns nothing.
unsafe impl<T: Send> Send for History<T> {}

impl<T> History<T> {
    /// Nothing has happened.
    #[inline(always)]
    pub fn new() -> History<T>
        ensures { result.items ≡ [] }
    {
        History { of: PhantomData }
    }

    /// The history with one item more, the newest.
    #[inline(always)]
    pub fn with(&self, item: &T) -> History<T>
        ensures { result.items ≡ self.now.items ++ item.now ∷ [] }
    {
        let _ = item;
        History { of: PhantomData }
    }

    /// The history with another after it.
    #[inline(always)]
    pub fn followed_by(&self, later: &History<T>) -> History<T>
        ensures { result.items ≡ self.now.items ++ later.now.items }
    {
        let _ = later;
        History { of: PhantomData }
    }
}
