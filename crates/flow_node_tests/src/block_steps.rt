// Blocks of scalars that nodes move, over tables, boxes and rings: courses over the edges of small graphs.
ghost use Rattle.std.specs.Prelude.{◌≡◌, ◌<◌, ℕ, [], ◌∷◌, length, slice_index_or};
ghost use Rattle.flow_samples.specs.Joined.{AreJoined};

use flow_base::Transducer;
use flow_boxes::Boxes;
use flow_edges::lanes::Rings;
use flow_messages::{Block, Ends, Kind, Table};
use flow_networks::{Graph, step_block};
use flow_nodes::StreamNode;
use flow_samples::{block, graph_of, kinds_taken, lone};
use flow_shares::meetings::{EdgeOwners, Meeting, Opening, meet_all, open_all};
use std::alloc::{AllocError, Global};
use std::process::Abort;
use std::test::Fail;

// What is done over the edges of a graph, and what is to come of it. A block has items of its kind that stand for these numbers,
// and `End` after them where it closes.
#[derive(Clone, Copy)]
enum Act {
    // A block is put on an edge.
    Puts(usize, Kind, &'static [i128], bool),
    // What an edge has to give is this block.
    Takes(usize, Kind, &'static [i128], bool),
    // A node, told to make at most so many steps, makes just so many, or it may not step over these ends.
    Moves(usize, usize, Option<usize>),
    // The ends of every edge meet.
    Meet,
}

// A course over the edges of a new graph, of which there are at most three.
#[derive(Clone, Copy)]
struct Course {
    graph: &'static str,
    kinds: [Kind; 3],
    // How many messages each edge holds: 1 to 100.
    capacity: usize,
    acts: &'static [Act],
}

const CONST: &str = r"
node 0 source units 1
node 0 const 5
node 0 sink int
edge 0.0 1.0
edge 1.0 2.0
";

const SINK: &str = r"
node 0 source ints 1
node 0 sink int
edge 0.0 1.0
";

const UNITS_OF: &str = r"
node 0 source bools F
node 0 units_of
node 0 sink unit
edge 0.0 1.0
edge 1.0 2.0
";

const FORK: &str = r"
node 0 source ints 1
node 0 fork int 2
node 0 sink int
node 0 sink int
edge 0.0 1.0
edge 1.0 2.0
edge 1.1 3.0
";

const NEGATE: &str = r"
node 0 source ints 1
node 0 unary one negate
node 0 sink int
edge 0.0 1.0
edge 1.0 2.0
";

const IOTA: &str = r"
node 0 source ints 1
node 0 iota
node 0 sink bool
node 0 sink int
edge 0.0 1.0
edge 1.0 2.0
edge 1.1 3.0
";

const UNITS: &str = r"
node 0 source units 3
node 0 sink unit
edge 0.0 1.0
";

const INTS: [Kind; 3] = [Kind::Int; 3];

// Each message is read, and each of those that follow from it is written, to every output.
const WHOLE: [Course; 4] = [
    Course {
        graph: CONST,
        kinds: [Kind::Unit, Kind::Int, Kind::Int],
        capacity: 8,
        acts: &[
            Act::Puts(0, Kind::Unit, &[0, 0, 0], false),
            Act::Meet,
            Act::Moves(1, 1_000, Some(6)),
            Act::Meet,
            Act::Takes(1, Kind::Int, &[5, 5, 5], false),
            Act::Takes(0, Kind::Unit, &[], false),
        ],
    },
    Course {
        graph: SINK,
        kinds: INTS,
        capacity: 8,
        acts: &[
            Act::Puts(0, Kind::Int, &[1, 2, 3], false),
            Act::Meet,
            Act::Moves(1, 1_000, Some(3)),
            Act::Takes(0, Kind::Int, &[], false),
        ],
    },
    Course {
        graph: UNITS_OF,
        kinds: [Kind::Bool, Kind::Unit, Kind::Unit],
        capacity: 8,
        acts: &[
            Act::Puts(0, Kind::Bool, &[0, 0, 1, 0], false),
            Act::Meet,
            Act::Moves(1, 1_000, Some(7)),
            Act::Meet,
            Act::Takes(1, Kind::Unit, &[0, 0, 0], false),
        ],
    },
    Course {
        graph: FORK,
        kinds: INTS,
        capacity: 8,
        acts: &[
            Act::Puts(0, Kind::Int, &[3, 4], false),
            Act::Meet,
            Act::Moves(1, 1_000, Some(6)),
            Act::Meet,
            Act::Takes(1, Kind::Int, &[3, 4], false),
            Act::Takes(2, Kind::Int, &[3, 4], false),
        ],
    },
];

// The items come before the end, which is moved by itself. Then the node has ended.
const ENDS: [Course; 3] = [
    Course {
        graph: CONST,
        kinds: [Kind::Unit, Kind::Int, Kind::Int],
        capacity: 8,
        acts: &[
            Act::Puts(0, Kind::Unit, &[0, 0], true),
            Act::Meet,
            Act::Moves(1, 1_000, Some(4)),
            Act::Moves(1, 1_000, Some(2)),
            Act::Moves(1, 1_000, Some(0)),
            Act::Meet,
            Act::Takes(1, Kind::Int, &[5, 5], true),
        ],
    },
    Course {
        graph: SINK,
        kinds: INTS,
        capacity: 8,
        acts: &[
            Act::Puts(0, Kind::Int, &[1], true),
            Act::Meet,
            Act::Moves(1, 1_000, Some(1)),
            Act::Moves(1, 1_000, Some(1)),
            Act::Moves(1, 1_000, Some(0)),
            Act::Takes(0, Kind::Int, &[], false),
        ],
    },
    Course {
        graph: FORK,
        kinds: INTS,
        capacity: 8,
        acts: &[
            Act::Puts(0, Kind::Int, &[], true),
            Act::Meet,
            Act::Moves(1, 1_000, Some(3)),
            Act::Moves(1, 1_000, Some(0)),
            Act::Meet,
            Act::Takes(1, Kind::Int, &[], true),
            Act::Takes(2, Kind::Int, &[], true),
        ],
    },
];

// Only so much is read as each output has room for, and as the steps suffice for.
const FEWER: [Course; 3] = [
    Course {
        graph: FORK,
        kinds: INTS,
        capacity: 3,
        acts: &[
            Act::Puts(2, Kind::Int, &[1, 2], false),
            Act::Puts(0, Kind::Int, &[3, 4, 5], false),
            Act::Meet,
            Act::Moves(1, 1_000, Some(3)),
            Act::Meet,
            Act::Takes(0, Kind::Int, &[4, 5], false),
            Act::Takes(1, Kind::Int, &[3], false),
            Act::Takes(2, Kind::Int, &[1, 2, 3], false),
        ],
    },
    Course {
        graph: FORK,
        kinds: INTS,
        capacity: 8,
        acts: &[
            Act::Puts(0, Kind::Int, &[3, 4, 5], false),
            Act::Meet,
            Act::Moves(1, 8, Some(6)),
            Act::Moves(1, 2, Some(0)),
            Act::Moves(1, 3, Some(3)),
            Act::Meet,
            Act::Takes(0, Kind::Int, &[], false),
            Act::Takes(1, Kind::Int, &[3, 4, 5], false),
            Act::Takes(2, Kind::Int, &[3, 4, 5], false),
        ],
    },
    // A block has at most 64 messages.
    Course {
        graph: FORK,
        kinds: INTS,
        capacity: 100,
        acts: &[
            Act::Puts(0, Kind::Int, &[7; 64], false),
            Act::Puts(0, Kind::Int, &[8; 6], false),
            Act::Meet,
            Act::Moves(1, 1_000, Some(192)),
            Act::Moves(1, 1_000, Some(18)),
            Act::Meet,
            Act::Takes(0, Kind::Int, &[], false),
            Act::Takes(1, Kind::Int, &[7; 64], false),
            Act::Takes(1, Kind::Int, &[8; 6], false),
            Act::Takes(2, Kind::Int, &[7; 64], false),
            Act::Takes(2, Kind::Int, &[8; 6], false),
        ],
    },
];

// No message is there, no step may be made, or an output is full.
const NOTHING: [Course; 2] = [
    Course {
        graph: CONST,
        kinds: [Kind::Unit, Kind::Int, Kind::Int],
        capacity: 8,
        acts: &[
            Act::Moves(1, 1_000, Some(0)),
            Act::Puts(0, Kind::Unit, &[0], false),
            Act::Meet,
            Act::Moves(1, 0, Some(0)),
            Act::Moves(1, 1_000, Some(2)),
            Act::Meet,
            Act::Takes(1, Kind::Int, &[5], false),
        ],
    },
    Course {
        graph: FORK,
        kinds: INTS,
        capacity: 2,
        acts: &[
            Act::Puts(2, Kind::Int, &[1, 2], false),
            Act::Puts(0, Kind::Int, &[3, 4], false),
            Act::Meet,
            Act::Moves(1, 1_000, Some(0)),
            Act::Takes(2, Kind::Int, &[1, 2], false),
            Act::Meet,
            Act::Moves(1, 1_000, Some(6)),
            Act::Meet,
            Act::Takes(1, Kind::Int, &[3, 4], false),
            Act::Takes(2, Kind::Int, &[3, 4], false),
        ],
    },
];

// What is not passed on stays on its edge.
const NOT_PASSED: [Course; 2] = [
    Course {
        graph: NEGATE,
        kinds: INTS,
        capacity: 8,
        acts: &[
            Act::Puts(0, Kind::Int, &[3, 4], false),
            Act::Meet,
            Act::Moves(1, 1_000, Some(0)),
            Act::Meet,
            Act::Takes(0, Kind::Int, &[3, 4], false),
            Act::Takes(1, Kind::Int, &[], false),
        ],
    },
    Course {
        graph: IOTA,
        kinds: [Kind::Int, Kind::Bool, Kind::Int],
        capacity: 8,
        acts: &[
            Act::Puts(0, Kind::Int, &[2], true),
            Act::Meet,
            Act::Moves(1, 1_000, Some(0)),
            Act::Meet,
            Act::Takes(0, Kind::Int, &[2], true),
            Act::Takes(1, Kind::Bool, &[], false),
            Act::Takes(2, Kind::Int, &[], false),
        ],
    },
];

// Three units and the end are drawn, as many at once as there are steps and room for.
const DRAWN: [Course; 3] = [
    Course {
        graph: UNITS,
        kinds: [Kind::Unit; 3],
        capacity: 8,
        acts: &[
            Act::Moves(0, 1_000, Some(4)),
            Act::Moves(0, 1_000, Some(0)),
            Act::Meet,
            Act::Takes(0, Kind::Unit, &[0, 0, 0], true),
        ],
    },
    Course {
        graph: UNITS,
        kinds: [Kind::Unit; 3],
        capacity: 8,
        acts: &[
            Act::Moves(0, 3, Some(3)),
            Act::Moves(0, 3, Some(1)),
            Act::Moves(0, 3, Some(0)),
            Act::Meet,
            Act::Takes(0, Kind::Unit, &[0, 0, 0], true),
        ],
    },
    Course {
        graph: UNITS,
        kinds: [Kind::Unit; 3],
        capacity: 3,
        acts: &[
            Act::Moves(0, 1_000, Some(3)),
            Act::Moves(0, 1_000, Some(0)),
            Act::Meet,
            Act::Takes(0, Kind::Unit, &[0, 0, 0], false),
            Act::Meet,
            Act::Moves(0, 1_000, Some(1)),
            Act::Meet,
            Act::Takes(0, Kind::Unit, &[], true),
        ],
    },
];

// An edge of units takes no integers, so the node that writes them may not step, and the edge that it reads stays as it is.
const OF_OTHER_KINDS: [Course; 1] = [Course {
    graph: CONST,
    kinds: [Kind::Unit; 3],
    capacity: 8,
    acts: &[
        Act::Puts(0, Kind::Unit, &[0, 0], false),
        Act::Meet,
        Act::Moves(1, 1_000, None),
        Act::Takes(0, Kind::Unit, &[0, 0], false),
    ],
}];

// Puts a block on an edge. Whether it is put.
fn puts<E: Ends>(ends: &mut E, edge: usize, kind: Kind, numbers: &[i128], closes: bool) -> bool
    ensures { E.same ends.old ends.new }
{
    if matches!(kind, Kind::Vec) || !ends.has_writer(edge) || !ends.takes(edge, kind) {
        return false;
    }
    let mut put = block(kind, numbers, closes);
    ends.put_block(edge, &mut put) && put.is_empty()
}

// Whether this block is what an edge has to give.
fn gives<E: Ends>(ends: &mut E, edge: usize, kind: Kind, numbers: &[i128], closes: bool) -> bool
    ensures { E.same ends.old ends.new }
{
    if matches!(kind, Kind::Vec) || !ends.has_reader(edge) {
        return false;
    }
    let mut taken = Block::new();
    let count = ends.take_block(edge, &mut taken, 64);
    count == taken.len() && taken.as_slice() == block(kind, numbers, closes).as_slice()
}

// How many steps the node makes in a block, if it may step over these ends.
fn steps_made<T: Transducer, E: Ends>(
    graph: &mut Graph<T>,
    ends: &mut E,
    node: usize,
    most: usize,
) -> Option<usize>
    ensures { E.same ends.old ends.new }
{
    if node >= graph.nodes() || !graph.may_step(ends, node) {
        return None;
    }
    Some(step_block(graph, ends, node, most))
}

// Does this over the ends. Whether what is to come of it comes.
fn goes<T: Transducer, E: Ends>(graph: &mut Graph<T>, ends: &mut E, act: Act) -> bool
    ensures { E.same ends.old ends.new }
{
    match act {
        Act::Puts(edge, kind, numbers, closes) => puts(ends, edge, kind, numbers, closes),
        Act::Takes(edge, kind, numbers, closes) => gives(ends, edge, kind, numbers, closes),
        Act::Moves(node, most, made) => steps_made(graph, ends, node, most) == made,
        // In a table there is nothing between the ends.
        Act::Meet => true,
    }
}

// The number of the first act that does not go in a table, if there is one.
fn first_in_table<T: Transducer + Drop>(
    alloc: Global,
    mut graph: Graph<T>,
    course: &Course,
) -> Result<Option<usize>, AllocError> {
    let mut table = Table::new(alloc, &course.kinds, course.capacity.clamp(1, 100))?;
    for (number, &act) in course.acts.iter().enumerate() {
        if !goes(&mut graph, &mut table, act) {
            return Ok(Some(number));
        }
    }
    Ok(None)
}

// The same over the ends that the first share has.
fn goes_in_first<T: Transducer, E: Meeting>(graph: &mut Graph<T>, ends: &mut [E], act: Act) -> bool
    requires there { 0 < length ends.old }
    ensures same { (s : ℕ) (d : _) → s < length ends.old →
        E.same (slice_index_or ends.old s d) (slice_index_or ends.new s d) }
{
    goes(graph, &mut ends[0], act)
}

// The same, where the ends of every edge may meet.
fn goes_over<T: Transducer, E: Meeting>(
    graph: &mut Graph<T>,
    ends: &mut [E],
    owners: &[EdgeOwners],
    act: Act,
) -> bool
    requires { AreJoined E.joins owners.now ends.old }
    ensures { AreJoined E.joins owners.now ends.new }
{
    match act {
        Act::Meet => {
            meet_all(ends, owners);
            true
        }
        _ => !ends.is_empty() && goes_in_first(graph, ends, act),
    }
}

// The number of the first act that does not go over the ends of shares, if there is one.
fn first_wrong<T: Transducer, E: Meeting>(
    graph: &mut Graph<T>,
    ends: &mut [E],
    owners: &[EdgeOwners],
    acts: &[Act],
) -> Option<usize>
    requires { AreJoined E.joins owners.now ends.old }
{
    for (number, &act) in acts.iter().enumerate() {
        if !goes_over(graph, ends, owners, act) {
            return Some(number);
        }
    }
    None
}

// Each of three edges goes from a share to itself.
fn own_owners() -> [EdgeOwners; 3]
    ensures { result ≡ record { writer = 0; reader = 0 } ∷ record { writer = 0; reader = 0 } ∷
        record { writer = 0; reader = 0 } ∷ [] }
{
    let own = EdgeOwners {
        writer: 0,
        reader: 0,
    };
    [own, own, own]
}

// The number of the first act of a course that does not go over new ends of one share, if there is one.
fn first_over<T: Transducer + Drop, E: Opening + Drop>(
    alloc: Global,
    mut graph: Graph<T>,
    course: &Course,
) -> Result<Option<usize>, AllocError> {
    let owners = own_owners();
    let capacity = course.capacity.clamp(1, 100);
    let mut ends: Vec<E> = open_all(alloc, 1, &owners, &course.kinds, capacity)?;
    Ok(first_wrong(&mut graph, &mut ends, &owners, course.acts))
}

// Asserts that each act of these courses goes over boxes, or over rings.
fn assert_go<E: Opening + Drop>(
    rt: &impl Abort,
    alloc: Global,
    courses: &[Course],
) -> Result<(), Fail> {
    for (number, course) in courses.iter().enumerate() {
        let graph = graph_of(alloc, course.graph)?;
        let wrong = first_over::<StreamNode, E>(alloc, graph, course)?;
        assert_eq!(rt; wrong, None, "course {number}");
    }
    Ok(())
}

// Asserts that each act of these courses goes: in a table, over boxes and over rings.
fn assert_go_everywhere(rt: &impl Abort, alloc: Global, courses: &[Course]) -> Result<(), Fail> {
    for (number, course) in courses.iter().enumerate() {
        let wrong = first_in_table(alloc, graph_of(alloc, course.graph)?, course)?;
        assert_eq!(rt; wrong, None, "course {number}");
    }
    assert_go::<Boxes>(rt, alloc, courses)?;
    assert_go::<Rings>(rt, alloc, courses)
}

#[test]
fn whole_blocks_are_passed_on(rt: HostRuntime) -> Result<(), Fail> {
    assert_go_everywhere(&rt, rt.alloc(), &WHOLE)
}

#[test]
fn an_end_ends_a_block(rt: HostRuntime) -> Result<(), Fail> {
    assert_go_everywhere(&rt, rt.alloc(), &ENDS)
}

#[test]
fn a_block_has_no_more_than_there_is_room_for(rt: HostRuntime) -> Result<(), Fail> {
    assert_go_everywhere(&rt, rt.alloc(), &FEWER)
}

#[test]
fn nothing_is_moved_where_nothing_may_be(rt: HostRuntime) -> Result<(), Fail> {
    assert_go_everywhere(&rt, rt.alloc(), &NOTHING)
}

#[test]
fn what_is_not_passed_on_stays(rt: HostRuntime) -> Result<(), Fail> {
    assert_go_everywhere(&rt, rt.alloc(), &NOT_PASSED)
}

#[test]
fn a_source_draws_a_block(rt: HostRuntime) -> Result<(), Fail> {
    assert_go_everywhere(&rt, rt.alloc(), &DRAWN)
}

#[test]
fn no_block_goes_to_an_edge_of_another_kind(rt: HostRuntime) -> Result<(), Fail> {
    assert_go_everywhere(&rt, rt.alloc(), &OF_OTHER_KINDS)
}

#[test]
fn an_edge_takes_its_kind_alone(rt: HostRuntime) -> Result<(), Fail> {
    let alloc = rt.alloc();
    let told = [
        kinds_taken(&Table::new(alloc, &[Kind::Int], 1)?, 0),
        kinds_taken(&lone::<Boxes>(alloc, Kind::Int)?, 0),
        kinds_taken(&lone::<Rings>(alloc, Kind::Int)?, 0),
    ];
    assert_eq!(rt; told, [Some([false, false, true, false]); 3]);
    Ok(())
}
