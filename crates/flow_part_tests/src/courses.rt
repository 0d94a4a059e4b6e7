// Courses over edges: what is done at their ends, step by step, and what is to come of it. Each is a row, of boxes or of rings.
ghost use Rattle.std.specs.Prelude.{◌≡◌, ◌<◌, ◌≤◌, ℕ, true, IsTrue, length, slice_index_or};
ghost use Rattle.flow_messages.specs.declared.message.Kind.TheVariants.{Int as IntKind};
ghost use Rattle.std.specs.List.{All};
ghost use Rattle.flow_messages.specs.Kinds.{fits, FitsEdge, TakesKind, TakesItems};
ghost use Rattle.flow_messages.specs.Limits.{greatest_capacity};
ghost use Rattle.flow_messages.specs.Signals.{signal_of};
ghost use Rattle.flow_samples.specs.Joined.{AreJoined};

use crate::messages::{is_message, is_refused, message};
use flow_boxes::Boxes;
use flow_edges::lanes::Rings;
use flow_messages::{Block as Scalars, CountedEnds, Items, Kind, Msg, Why};
use flow_samples::{alike, block as block_of, own_owner, owners};
use flow_shares::meetings::{EdgeOwners, Meeting, Opening, meet_all, open_all};
use std::alloc::{AllocError, Global};
use std::process::Abort;
use std::test::Fail;

/// What is done at the ends of an edge, and what is to come of it. A message is a number, or `End` where there is none.
#[derive(Clone, Copy)]
pub enum Act {
    Puts(Option<i128>),
    /// It is refused for this cause, and comes back.
    IsRefused(Option<i128>, Why),
    Takes(Option<i128>),
    TakesNothing,
    HasRoom(bool),
    IsReady(bool),
    /// Whether the writer's end is there, and the reader's.
    HasEnds(bool, bool),
    /// How many messages were sent and received, where both ends are there.
    Counts(u64, u64),
    Blocks(Block),
}

/// What is done with many items of one kind at once, and what is to be seen of them.
#[derive(Clone, Copy)]
pub enum Block {
    Puts(Items<'static>),
    Shows(Items<'static>),
    SkipsOne,
    /// Whether there is room for so many.
    HasRoomFor(usize, bool),
    /// These numbers are put, and `End` after them where it closes; or they are refused, and nothing is.
    PutsScalars(&'static [i128], bool, bool),
    /// At most so many messages are taken, and these come, with `End` after them where it closes.
    TakesScalars(usize, &'static [i128], bool),
}

/// An integer of more than 64 bits.
pub const WIDE: i128 = 18_446_744_073_709_551_616;

// A step of a course.
#[derive(Clone, Copy)]
enum CourseStep {
    // In a share, at an edge.
    At(usize, usize, Act),
    // The ends of every edge meet.
    Meet,
}

// A course over new ends of shares.
#[derive(Clone, Copy)]
struct Course {
    name: &'static str,
    shares: Shares,
    // The kind of the items on each edge.
    kind: Kind,
    // How many messages each edge holds: 1 to 100.
    capacity: usize,
    steps: &'static [CourseStep],
}

// The shares of a course, and their edges.
#[derive(Clone, Copy)]
enum Shares {
    // Edge 0 goes from the first share to the second, and edge 1 back.
    Two,
    // Edge 0 goes from the share to itself.
    One,
}

// A message goes over each of two edges between two shares, there and back.
const EACH_WAY: Course = Course {
    name: "each way",
    shares: Shares::Two,
    kind: Kind::Int,
    capacity: 1,
    steps: &[
        CourseStep::At(0, 0, Act::Puts(Some(1))),
        CourseStep::At(1, 1, Act::Puts(None)),
        CourseStep::Meet,
        CourseStep::At(1, 0, Act::Takes(Some(1))),
        CourseStep::At(0, 1, Act::Takes(None)),
    ],
};

// Where the ends of a ring meet, its reader takes over all that was put.
const INTS_OVER_RINGS: Course = Course {
    name: "integers over rings",
    shares: Shares::One,
    kind: Kind::Int,
    capacity: 2,
    steps: &[
        CourseStep::At(0, 0, Act::Blocks(Block::Puts(Items::Ints(&[5, 6])))),
        CourseStep::Meet,
        CourseStep::At(0, 0, Act::Blocks(Block::Shows(Items::Ints(&[5, 6])))),
        CourseStep::At(0, 0, Act::Blocks(Block::SkipsOne)),
        CourseStep::At(0, 0, Act::Blocks(Block::Shows(Items::Ints(&[6])))),
        CourseStep::At(0, 0, Act::Takes(Some(6))),
        CourseStep::At(0, 0, Act::Counts(2, 2)),
    ],
};

// More messages than a block holds: the reader takes all of them over in one look.
const MANY_INTS_OVER_RINGS: Course = Course {
    name: "many integers over rings",
    shares: Shares::One,
    kind: Kind::Int,
    capacity: 100,
    steps: &[
        CourseStep::At(0, 0, Act::Blocks(Block::Puts(Items::Ints(&[7; 70])))),
        CourseStep::Meet,
        CourseStep::At(0, 0, Act::Blocks(Block::SkipsOne)),
        CourseStep::At(0, 0, Act::Blocks(Block::Shows(Items::Ints(&[7; 69])))),
        CourseStep::At(0, 0, Act::Counts(70, 1)),
    ],
};

const MANY_UNITS_OVER_RINGS: Course = Course {
    name: "many units over rings",
    shares: Shares::One,
    kind: Kind::Unit,
    capacity: 100,
    steps: &[
        CourseStep::At(0, 0, Act::Blocks(Block::Puts(Items::Units(70)))),
        CourseStep::Meet,
        CourseStep::At(0, 0, Act::Blocks(Block::SkipsOne)),
        CourseStep::At(0, 0, Act::Blocks(Block::Shows(Items::Units(69)))),
        CourseStep::At(0, 0, Act::Counts(70, 1)),
    ],
};

const MANY_FLAGS_OVER_RINGS: Course = Course {
    name: "many truth values over rings",
    shares: Shares::One,
    kind: Kind::Bool,
    capacity: 100,
    steps: &[
        CourseStep::At(0, 0, Act::Blocks(Block::Puts(Items::Flags(&[true; 70])))),
        CourseStep::Meet,
        CourseStep::At(0, 0, Act::Blocks(Block::SkipsOne)),
        CourseStep::At(0, 0, Act::Blocks(Block::Shows(Items::Flags(&[true; 69])))),
        CourseStep::At(0, 0, Act::Counts(70, 1)),
    ],
};

const FLAGS_OVER_RINGS: Course = Course {
    name: "truth values over rings",
    shares: Shares::One,
    kind: Kind::Bool,
    capacity: 2,
    steps: &[
        CourseStep::At(0, 0, Act::Blocks(Block::Puts(Items::Flags(&[true])))),
        CourseStep::Meet,
        CourseStep::At(0, 0, Act::Blocks(Block::Shows(Items::Flags(&[true])))),
        CourseStep::At(0, 0, Act::Blocks(Block::SkipsOne)),
        CourseStep::At(0, 0, Act::Counts(1, 1)),
    ],
};

const UNITS_OVER_RINGS: Course = Course {
    name: "units over rings",
    shares: Shares::One,
    kind: Kind::Unit,
    capacity: 2,
    steps: &[
        CourseStep::At(0, 0, Act::Blocks(Block::Puts(Items::Units(2)))),
        CourseStep::Meet,
        CourseStep::At(0, 0, Act::Blocks(Block::Shows(Items::Units(2)))),
        CourseStep::At(0, 0, Act::Blocks(Block::SkipsOne)),
        CourseStep::At(0, 0, Act::Blocks(Block::SkipsOne)),
        CourseStep::At(0, 0, Act::Counts(2, 2)),
    ],
};

// A box shows as slices what has come to it, also where some was left before.
const INTS_OVER_BOXES: Course = Course {
    name: "integers over boxes",
    shares: Shares::One,
    kind: Kind::Int,
    capacity: 2,
    steps: &[
        CourseStep::At(0, 0, Act::Blocks(Block::Puts(Items::Ints(&[5, 6])))),
        CourseStep::Meet,
        CourseStep::At(0, 0, Act::Blocks(Block::Shows(Items::Ints(&[5, 6])))),
        CourseStep::At(0, 0, Act::Blocks(Block::SkipsOne)),
        CourseStep::Meet,
        CourseStep::At(0, 0, Act::Blocks(Block::Puts(Items::Ints(&[7])))),
        CourseStep::At(0, 0, Act::Blocks(Block::Shows(Items::Ints(&[6])))),
        CourseStep::Meet,
        CourseStep::At(0, 0, Act::Blocks(Block::Shows(Items::Ints(&[6, 7])))),
        CourseStep::At(0, 0, Act::Blocks(Block::SkipsOne)),
        CourseStep::At(0, 0, Act::Takes(Some(7))),
        CourseStep::Meet,
        CourseStep::At(0, 0, Act::Puts(None)),
        CourseStep::At(0, 0, Act::Blocks(Block::Puts(Items::Ints(&[8])))),
        CourseStep::At(0, 0, Act::Counts(4, 3)),
    ],
};

// Integers of more than 64 bits stand among others in the order of their puts, also where what comes is put behind what was left.
const WIDE_INTS: Course = Course {
    name: "integers of more than 64 bits",
    shares: Shares::One,
    kind: Kind::Int,
    capacity: 6,
    steps: &[
        CourseStep::At(0, 0, Act::Puts(Some(1))),
        CourseStep::At(0, 0, Act::Puts(Some(2))),
        CourseStep::At(0, 0, Act::Puts(Some(WIDE))),
        CourseStep::Meet,
        CourseStep::At(0, 0, Act::Takes(Some(1))),
        CourseStep::At(0, 0, Act::Takes(Some(2))),
        CourseStep::At(0, 0, Act::Blocks(Block::Puts(Items::Ints(&[3, 4])))),
        CourseStep::At(0, 0, Act::Puts(Some(-WIDE))),
        CourseStep::Meet,
        CourseStep::At(0, 0, Act::Takes(Some(WIDE))),
        CourseStep::At(0, 0, Act::Takes(Some(3))),
        CourseStep::Meet,
        CourseStep::At(0, 0, Act::Blocks(Block::PutsScalars(&[5, 6], true, true))),
        CourseStep::Meet,
        CourseStep::At(0, 0, Act::Takes(Some(4))),
        CourseStep::At(
            0,
            0,
            Act::Blocks(Block::TakesScalars(64, &[-WIDE, 5, 6], true)),
        ),
        CourseStep::At(0, 0, Act::Counts(9, 9)),
    ],
};

// What is put behind others that lie side by side lies beside them.
const WIDE_OVER_BOXES: Course = Course {
    name: "integers of more than 64 bits over boxes",
    shares: Shares::One,
    kind: Kind::Int,
    capacity: 6,
    steps: &[
        CourseStep::At(0, 0, Act::Blocks(Block::Puts(Items::Ints(&[1, 2])))),
        CourseStep::Meet,
        CourseStep::At(0, 0, Act::Takes(Some(1))),
        CourseStep::At(0, 0, Act::Blocks(Block::Puts(Items::Ints(&[3])))),
        CourseStep::At(0, 0, Act::Puts(Some(WIDE))),
        CourseStep::At(0, 0, Act::Puts(Some(4))),
        CourseStep::Meet,
        CourseStep::At(0, 0, Act::Blocks(Block::Shows(Items::Ints(&[2, 3])))),
        CourseStep::At(0, 0, Act::Blocks(Block::SkipsOne)),
        CourseStep::At(0, 0, Act::Blocks(Block::SkipsOne)),
        CourseStep::At(0, 0, Act::Blocks(Block::Shows(Items::Nothing))),
        CourseStep::At(0, 0, Act::Blocks(Block::SkipsOne)),
        CourseStep::At(0, 0, Act::Takes(Some(4))),
        CourseStep::At(0, 0, Act::Blocks(Block::Puts(Items::Ints(&[5])))),
        CourseStep::Meet,
        CourseStep::At(0, 0, Act::Blocks(Block::Shows(Items::Ints(&[5])))),
        CourseStep::At(0, 0, Act::Counts(6, 5)),
    ],
};

const FLAGS_OVER_BOXES: Course = Course {
    name: "truth values over boxes",
    shares: Shares::One,
    kind: Kind::Bool,
    capacity: 2,
    steps: &[
        CourseStep::At(0, 0, Act::Blocks(Block::Puts(Items::Flags(&[true])))),
        CourseStep::Meet,
        CourseStep::At(0, 0, Act::Blocks(Block::Shows(Items::Flags(&[true])))),
        CourseStep::At(0, 0, Act::Blocks(Block::SkipsOne)),
        CourseStep::At(0, 0, Act::Counts(1, 1)),
    ],
};

const UNITS_OVER_BOXES: Course = Course {
    name: "units over boxes",
    shares: Shares::One,
    kind: Kind::Unit,
    capacity: 2,
    steps: &[
        CourseStep::At(0, 0, Act::Blocks(Block::Puts(Items::Units(2)))),
        CourseStep::Meet,
        CourseStep::At(0, 0, Act::Blocks(Block::Shows(Items::Units(2)))),
        CourseStep::At(0, 0, Act::Counts(2, 0)),
        CourseStep::At(0, 0, Act::Blocks(Block::SkipsOne)),
        CourseStep::At(0, 0, Act::Blocks(Block::SkipsOne)),
        CourseStep::At(0, 0, Act::Counts(2, 2)),
    ],
};

// Blocks of scalars go whole or not at all, and come in order.
const SCALARS: Course = Course {
    name: "blocks of scalars",
    shares: Shares::One,
    kind: Kind::Int,
    capacity: 3,
    steps: &[
        CourseStep::At(0, 0, Act::Blocks(Block::HasRoomFor(3, true))),
        CourseStep::At(0, 0, Act::Blocks(Block::HasRoomFor(4, false))),
        CourseStep::At(0, 0, Act::Blocks(Block::PutsScalars(&[1, 2], false, true))),
        CourseStep::At(0, 0, Act::Blocks(Block::PutsScalars(&[3], true, false))),
        CourseStep::At(0, 0, Act::Blocks(Block::PutsScalars(&[3], false, true))),
        CourseStep::At(0, 0, Act::Blocks(Block::PutsScalars(&[], true, false))),
        CourseStep::Meet,
        CourseStep::At(0, 0, Act::Blocks(Block::TakesScalars(0, &[], false))),
        CourseStep::At(0, 0, Act::Blocks(Block::TakesScalars(2, &[1, 2], false))),
        CourseStep::At(0, 0, Act::Blocks(Block::TakesScalars(64, &[3], false))),
        CourseStep::At(0, 0, Act::Blocks(Block::TakesScalars(64, &[], false))),
        CourseStep::Meet,
        CourseStep::At(0, 0, Act::Blocks(Block::PutsScalars(&[4], true, true))),
        CourseStep::At(0, 0, Act::Blocks(Block::PutsScalars(&[5], false, false))),
        CourseStep::Meet,
        CourseStep::At(0, 0, Act::Blocks(Block::TakesScalars(64, &[4], true))),
        CourseStep::At(0, 0, Act::Counts(5, 5)),
    ],
};

const OVER_BOXES: [Course; 9] = [
    EACH_WAY,
    SCALARS,
    WIDE_INTS,
    WIDE_OVER_BOXES,
    INTS_OVER_BOXES,
    FLAGS_OVER_BOXES,
    UNITS_OVER_BOXES,
    Course {
        name: "messages pass between rounds only",
        shares: Shares::Two,
        kind: Kind::Int,
        capacity: 2,
        steps: &[
            CourseStep::At(0, 0, Act::HasEnds(true, false)),
            CourseStep::At(1, 0, Act::HasEnds(false, true)),
            CourseStep::At(0, 0, Act::Puts(Some(1))),
            CourseStep::At(0, 0, Act::Puts(Some(2))),
            CourseStep::At(0, 0, Act::IsRefused(Some(3), Why::Full)),
            CourseStep::At(1, 0, Act::TakesNothing),
            CourseStep::Meet,
            CourseStep::At(0, 0, Act::HasRoom(false)),
            CourseStep::At(1, 0, Act::Takes(Some(1))),
            CourseStep::At(1, 0, Act::Takes(Some(2))),
            CourseStep::At(0, 0, Act::IsRefused(None, Why::Full)),
            CourseStep::Meet,
            CourseStep::At(0, 0, Act::HasRoom(true)),
            CourseStep::At(0, 0, Act::Puts(None)),
            CourseStep::At(0, 0, Act::IsRefused(Some(4), Why::Closed)),
            CourseStep::Meet,
            CourseStep::At(1, 0, Act::Takes(None)),
        ],
    },
    Course {
        name: "both boxes in one share",
        shares: Shares::One,
        kind: Kind::Int,
        capacity: 1,
        steps: &[
            CourseStep::At(0, 0, Act::Puts(Some(1))),
            CourseStep::At(0, 0, Act::IsReady(false)),
            CourseStep::Meet,
            CourseStep::At(0, 0, Act::IsReady(true)),
            CourseStep::At(0, 0, Act::Counts(1, 0)),
            CourseStep::At(0, 0, Act::Takes(Some(1))),
            CourseStep::At(0, 0, Act::Counts(1, 1)),
            CourseStep::Meet,
            CourseStep::At(0, 0, Act::Puts(None)),
            CourseStep::Meet,
            CourseStep::At(0, 0, Act::Takes(None)),
        ],
    },
];

const OVER_RINGS: [Course; 11] = [
    EACH_WAY,
    SCALARS,
    WIDE_INTS,
    INTS_OVER_RINGS,
    FLAGS_OVER_RINGS,
    UNITS_OVER_RINGS,
    MANY_INTS_OVER_RINGS,
    MANY_FLAGS_OVER_RINGS,
    MANY_UNITS_OVER_RINGS,
    Course {
        name: "messages cross in order",
        shares: Shares::Two,
        kind: Kind::Int,
        capacity: 2,
        steps: &[
            CourseStep::At(0, 0, Act::HasEnds(true, false)),
            CourseStep::At(0, 1, Act::HasEnds(false, true)),
            CourseStep::At(0, 2, Act::HasEnds(false, false)),
            CourseStep::At(0, 0, Act::Puts(Some(7))),
            CourseStep::Meet,
            CourseStep::At(0, 0, Act::Puts(None)),
            CourseStep::Meet,
            CourseStep::At(1, 0, Act::IsReady(true)),
            CourseStep::At(1, 0, Act::Takes(Some(7))),
            CourseStep::At(1, 0, Act::Takes(None)),
            CourseStep::At(1, 0, Act::TakesNothing),
            CourseStep::At(1, 1, Act::Puts(None)),
            CourseStep::Meet,
            CourseStep::At(0, 1, Act::Takes(None)),
            CourseStep::At(1, 1, Act::IsRefused(None, Why::Closed)),
        ],
    },
    Course {
        name: "both ends in one share",
        shares: Shares::One,
        kind: Kind::Int,
        capacity: 1,
        steps: &[
            CourseStep::At(0, 0, Act::HasRoom(true)),
            CourseStep::At(0, 0, Act::Puts(None)),
            CourseStep::Meet,
            CourseStep::At(0, 0, Act::HasRoom(false)),
            CourseStep::At(0, 0, Act::Takes(None)),
            CourseStep::Meet,
            CourseStep::At(0, 0, Act::Counts(1, 1)),
        ],
    },
];

/// Does this at the ends of an edge. Whether what is to come of it comes: nothing is put that the edge does not take.
pub fn acts<E: CountedEnds>(ends: &mut E, edge: usize, act: Act) -> bool
    ensures { E.same ends.old ends.new }
{
    let (writes, reads) = (ends.has_writer(edge), ends.has_reader(edge));
    match act {
        Act::Puts(of) => puts(ends, edge, of, None),
        Act::IsRefused(of, cause) => puts(ends, edge, of, Some(cause)),
        Act::Takes(of) => reads && is_message(ends.take(edge), of),
        Act::TakesNothing => reads && ends.take(edge).is_none(),
        Act::HasRoom(room) => writes && ends.room(edge) == room,
        Act::IsReady(ready) => reads && ends.ready(edge) == ready,
        Act::HasEnds(writer, reader) => writes == writer && reads == reader,
        Act::Counts(sent, received) => {
            writes
                && reads
                && ends.sent_count(edge) == sent
                && ends.received_count(edge) == received
        }
        Act::Blocks(block) => goes_in_blocks(ends, edge, block),
    }
}

// Puts a number, where the edge takes integers, or `End`. Whether it is put, or is refused for this cause.
fn puts<E: CountedEnds>(ends: &mut E, edge: usize, of: Option<i128>, refused: Option<Why>) -> bool
    ensures { E.same ends.old ends.new }
{
    let put = message(of);
    if !ends.has_writer(edge) || !takes_message(ends, edge, &put) {
        return false;
    }
    let answer = ends.put(edge, put);
    match refused {
        Some(cause) => is_refused(answer, of, cause),
        None => answer.is_ok(),
    }
}

// Whether the edge takes this message, which carries an integer or is `End`.
fn takes_message<E: CountedEnds>(ends: &E, edge: usize, message: &Msg) -> bool
    requires writes { (E.view ends.now).writes edge ≡ true }
    requires int { fits IntKind (signal_of message.now) ≡ true }
    ensures { IsTrue result → FitsEdge ((E.view ends.now).kind edge) (signal_of message.now) }
{
    message.is_end() || ends.takes(edge, Kind::Int)
}

// Does this with a block of an edge. Whether what is to come of it comes.
fn goes_in_blocks<E: CountedEnds>(ends: &mut E, edge: usize, block: Block) -> bool
    ensures { E.same ends.old ends.new }
{
    let (writes, reads) = (ends.has_writer(edge), ends.has_reader(edge));
    match block {
        Block::Puts(items)
            if writes && takes_items(ends, edge, items) && ends.space(edge) >= items.len() => {
            ends.put_all(edge, items);
        }
        Block::SkipsOne if reads && ends.ready(edge) => ends.skip(edge, 1),
        Block::HasRoomFor(count, room) => return writes && ends.room_for(edge, count) == room,
        Block::PutsScalars(numbers, closes, put) if writes && ends.takes(edge, Kind::Int) => {
            return puts_scalars(ends, edge, numbers, closes) == put;
        }
        Block::TakesScalars(most, numbers, closes) if reads => {
            let mut taken = Scalars::new();
            let count = ends.take_block(edge, &mut taken, most);
            return count == taken.len()
                && taken.as_slice() == block_of(Kind::Int, numbers, closes).as_slice();
        }
        Block::Shows(items) => return reads && are_same(ends.shown(edge), items),
        _ => return false,
    }
    true
}

// Whether the edge takes these items.
fn takes_items<E: CountedEnds>(ends: &E, edge: usize, items: Items<'_>) -> bool
    requires { (E.view ends.now).writes edge ≡ true }
    ensures { IsTrue result → TakesItems ((E.view ends.now).kind edge) items.entry }
{
    match items {
        Items::Nothing => true,
        Items::Units(_) => ends.takes(edge, Kind::Unit),
        Items::Flags(_) => ends.takes(edge, Kind::Bool),
        Items::Ints(_) => ends.takes(edge, Kind::Int),
    }
}

// Whether these are the same.
fn are_same(one: Items<'_>, other: Items<'_>) -> bool {
    one.units() == other.units() && one.flags() == other.flags() && one.ints() == other.ints()
}

// Puts these numbers as a block, and `End` after them where it closes. Whether they are put; if not, the block is as it was.
fn puts_scalars<E: CountedEnds>(ends: &mut E, edge: usize, numbers: &[i128], closes: bool) -> bool
    requires writes { (E.view ends.old).writes edge ≡ true }
    requires takes { TakesKind ((E.view ends.old).kind edge) IntKind }
    ensures { E.same ends.old ends.new }
{
    let mut put = block_of(Kind::Int, numbers, closes);
    if ends.put_block(edge, &mut put) {
        return put.is_empty();
    }
    put.as_slice() != block_of(Kind::Int, numbers, closes).as_slice()
}

// Does this in the share of this number.
fn act_in<E: CountedEnds>(ends: &mut [E], share: usize, edge: usize, act: Act) -> bool
    requires there { share < length ends.old }
    ensures same { (s : ℕ) (d : _) → s < length ends.old →
        E.same (slice_index_or ends.old s d) (slice_index_or ends.new s d) }
{
    acts(&mut ends[share], edge, act)
}

// Makes a step over the ends of shares. Whether what is to come of it comes.
fn goes<E: Meeting + CountedEnds>(ends: &mut [E], owners: &[EdgeOwners], step: CourseStep) -> bool
    requires { AreJoined E.joins owners.now ends.old }
    ensures { AreJoined E.joins owners.now ends.new }
{
    match step {
        CourseStep::Meet => {
            meet_all(ends, owners);
            true
        }
        CourseStep::At(share, edge, act) => share < ends.len() && act_in(ends, share, edge, act),
    }
}

// The number of the first step that does not go, if there is one.
fn first_wrong<E: Meeting + CountedEnds>(
    ends: &mut [E],
    owners: &[EdgeOwners],
    steps: &[CourseStep],
) -> Option<usize>
    requires { AreJoined E.joins owners.now ends.old }
{
    for (number, &step) in steps.iter().enumerate() {
        if !goes(ends, owners, step) {
            return Some(number);
        }
    }
    None
}

// The number of the first step that does not go, if there is one, over new ends of so many shares.
fn first_over<E: Opening + CountedEnds + Drop>(
    alloc: Global,
    shares: usize,
    owners: &[EdgeOwners],
    kind: Kind,
    capacity: usize,
    steps: &[CourseStep],
) -> Result<Option<usize>, AllocError>
    requires some { 0 < capacity }
    requires limit { capacity ≤ greatest_capacity }
    requires writers { All (λ owner. owner.writer < shares) owners.now }
    requires readers { All (λ owner. owner.reader < shares) owners.now }
{
    let kinds = alike(alloc, owners.len(), kind)?;
    let mut ends: Vec<E> = open_all(alloc, shares, owners, &kinds, capacity)?;
    Ok(first_wrong(&mut ends, owners, steps))
}

// The number of the first step of a course that does not go, if there is one.
fn first_of<E: Opening + CountedEnds + Drop>(
    alloc: Global,
    course: &Course,
) -> Result<Option<usize>, AllocError> {
    let (kind, capacity) = (course.kind, course.capacity.clamp(1, 100));
    match course.shares {
        Shares::Two => first_over::<E>(alloc, 2, &owners(), kind, capacity, course.steps),
        Shares::One => first_over::<E>(alloc, 1, &own_owner(), kind, capacity, course.steps),
    }
}

// Asserts that each step of these courses goes.
fn assert_go<E: Opening + CountedEnds + Drop>(
    rt: &impl Abort,
    alloc: Global,
    courses: &[Course],
) -> Result<(), AllocError> {
    for course in courses {
        assert_eq!(rt; first_of::<E>(alloc, course)?, None, "{}", course.name);
    }
    Ok(())
}

#[test]
fn boxes_and_rings(rt: HostRuntime) -> Result<(), Fail> {
    assert_go::<Boxes>(&rt, rt.alloc(), &OVER_BOXES)?;
    Ok(assert_go::<Rings>(&rt, rt.alloc(), &OVER_RINGS)?)
}
