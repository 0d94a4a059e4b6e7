// Scalars that were put on a lane and do not lie on its edge yet.
ghost use Rattle.std.specs.Prelude.{◌≤◌, length};
ghost use Rattle.flow_edges.specs.lanes.Many.{many_messages, places_for};

// Scalars of one kind, side by side, the oldest first. Of units it is said only how many they are.
#[derive(Drop)]
pub(crate) enum Many {
    Units(usize),
    Flags(Vec<bool>),
    Ints(Vec<i64>),
}

// The scalars that are gathered, with places for `most` of them.
#[derive(Drop)]
pub(crate) struct Gathered {
    pub(crate) items: Many,
    pub(crate) most: usize,
    ghost few: { length (many_messages items) ≤ most },
    ghost reserved: { most ≤ places_for most items },
}
