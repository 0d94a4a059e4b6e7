// Both ends of every edge, in one thread.
ghost use Rattle.std.specs.Prelude.{◌≡◌};
ghost use Rattle.std.specs.List.{All};

use crate::line::Line;

/// The largest capacity that a table takes.
pub const MAX_CAPACITY: usize = 65_536;

/// Both ends of every edge. No edge holds more messages than the capacity.
#[derive(Drop)]
pub struct Table {
    pub(crate) lines: Vec<Line>,
    pub(crate) capacity: usize,
    ghost even: { All (λ l. l.store.capacity ≡ capacity) lines.items },
}
