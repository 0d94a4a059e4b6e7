// Edges of one thread.
use crate::courses::{Act, Block, WIDE, acts};
use crate::messages::is_vector;
use flow_messages::{Ends, Items, Kind, Msg, Table, WholeEnds, Why};
use flow_samples::{WordError, kinds_taken, message};
use std::alloc::Global;
use std::process::Abort;
use std::test::Fail;

// The number of the first act that does not go at its edge, if there is one.
fn first_wrong(table: &mut Table, all: &[(usize, Act)]) -> Option<usize> {
    for (number, &(edge, act)) in all.iter().enumerate() {
        if !acts(table, edge, act) {
            return Some(number);
        }
    }
    None
}

// How many messages the first edge holds.
fn held(rt: &impl Abort, table: &Table) -> usize {
    assert!(rt; table.has_reader(0));
    table.held(0)
}

// Three edges of two messages are there: the first is filled, the second ends, and the third is not used.
const FILLS: [(usize, Act); 16] = [
    (2, Act::HasEnds(true, true)),
    (3, Act::HasEnds(false, false)),
    (1, Act::Puts(None)),
    (1, Act::IsRefused(Some(1), Why::Closed)),
    (1, Act::Takes(None)),
    (1, Act::HasRoom(true)),
    (1, Act::IsReady(false)),
    (0, Act::HasRoom(true)),
    (0, Act::IsReady(false)),
    (0, Act::TakesNothing),
    (0, Act::Puts(Some(1))),
    (0, Act::HasRoom(true)),
    (0, Act::IsReady(true)),
    (0, Act::Puts(Some(2))),
    (0, Act::HasRoom(false)),
    (0, Act::IsReady(true)),
];

// The first edge is emptied again.
const EMPTIES: [(usize, Act); 4] = [
    (0, Act::IsRefused(Some(3), Why::Full)),
    (0, Act::Takes(Some(1))),
    (0, Act::Takes(Some(2))),
    (0, Act::TakesNothing),
];

#[test]
fn three_edges(rt: HostRuntime) -> Result<(), Fail> {
    let mut table = Table::new(rt.alloc(), &[Kind::Int; 3], 2)?;
    let filled = (first_wrong(&mut table, &FILLS), held(&rt, &table));
    let emptied = (first_wrong(&mut table, &EMPTIES), held(&rt, &table));
    assert_eq!(rt;
        (filled, emptied, table.capacity()),
        ((None, 2), (None, 0), 2)
    );
    Ok(())
}

// An edge of each kind.
const KINDS: [Kind; 4] = [Kind::Unit, Kind::Bool, Kind::Int, Kind::Vec];

#[test]
fn each_edge_takes_its_kind_alone(rt: HostRuntime) -> Result<(), Fail> {
    let table = Table::new(rt.alloc(), &KINDS, 4)?;
    let taken = [
        kinds_taken(&table, 0),
        kinds_taken(&table, 1),
        kinds_taken(&table, 2),
        kinds_taken(&table, 3),
        kinds_taken(&table, 4),
    ];
    let wanted = [
        Some([true, false, false, false]),
        Some([false, true, false, false]),
        Some([false, false, true, false]),
        Some([false, false, false, true]),
        None,
    ];
    assert_eq!(rt; taken, wanted);
    Ok(())
}

// Blocks of each kind are seen on the edge of their kind, and taken in part. `End` comes after all of them, and no block is put
// after it.
const IN_BLOCKS: [(usize, Act); 31] = [
    (2, Act::Blocks(Block::Puts(Items::Ints(&[7, 8, 9])))),
    (2, Act::Blocks(Block::Shows(Items::Ints(&[7, 8, 9])))),
    (2, Act::Blocks(Block::SkipsOne)),
    (2, Act::Takes(Some(8))),
    (2, Act::Blocks(Block::Shows(Items::Ints(&[9])))),
    (2, Act::Puts(None)),
    (2, Act::Blocks(Block::Puts(Items::Ints(&[1])))),
    (2, Act::Takes(Some(9))),
    (2, Act::Takes(None)),
    (2, Act::Counts(4, 4)),
    (1, Act::Blocks(Block::Puts(Items::Flags(&[true, false])))),
    (1, Act::Blocks(Block::Shows(Items::Flags(&[true, false])))),
    (1, Act::Blocks(Block::SkipsOne)),
    (1, Act::Puts(None)),
    (1, Act::Blocks(Block::Puts(Items::Flags(&[true])))),
    (1, Act::Blocks(Block::Shows(Items::Flags(&[false])))),
    (1, Act::Blocks(Block::SkipsOne)),
    (1, Act::Takes(None)),
    (1, Act::Counts(3, 3)),
    (0, Act::Blocks(Block::Puts(Items::Units(4)))),
    (0, Act::HasRoom(false)),
    (0, Act::Blocks(Block::SkipsOne)),
    (0, Act::Blocks(Block::Shows(Items::Units(3)))),
    (0, Act::Blocks(Block::SkipsOne)),
    (0, Act::Puts(None)),
    (0, Act::Blocks(Block::Puts(Items::Units(1)))),
    (0, Act::Blocks(Block::Shows(Items::Units(2)))),
    (0, Act::Blocks(Block::SkipsOne)),
    (0, Act::Blocks(Block::SkipsOne)),
    (0, Act::Takes(None)),
    (0, Act::Counts(5, 5)),
];

#[test]
fn blocks(rt: HostRuntime) -> Result<(), Fail> {
    let mut table = Table::new(rt.alloc(), &KINDS, 4)?;
    assert_eq!(rt; first_wrong(&mut table, &IN_BLOCKS), None);
    Ok(())
}

// Puts a vector on an edge that takes vectors, and takes it again. Whether it is seen before it is taken, and comes back.
fn vector_comes_back<E: Ends>(alloc: Global, ends: &mut E, edge: usize) -> Result<bool, WordError> {
    let Msg::Item(vector) = message(alloc, "[8,-9]")? else {
        return Ok(false);
    };
    if !Kind::Vec.fits(&vector) || !ends.has_writer(edge) || !ends.has_reader(edge) {
        return Ok(false);
    }
    if !ends.takes(edge, Kind::Vec) {
        return Ok(false);
    }
    let put = ends.put(edge, Msg::Item(vector)).is_ok();
    let seen = ends.front(edge).is_some() && !ends.scalar_is_next(edge);
    Ok(put && seen && is_vector(ends.take(edge)))
}

// Vectors lie in no slice, and `End` is put after them.
const AFTER_A_VECTOR: [(usize, Act); 5] = [
    (3, Act::Blocks(Block::Shows(Items::Nothing))),
    (3, Act::Counts(1, 1)),
    (3, Act::TakesNothing),
    (3, Act::Puts(None)),
    (3, Act::Takes(None)),
];

#[test]
fn vectors(rt: HostRuntime) -> Result<(), Fail> {
    let mut table = Table::new(rt.alloc(), &KINDS, 4)?;
    let elsewhere = vector_comes_back(rt.alloc(), &mut table, 2)?;
    let there = vector_comes_back(rt.alloc(), &mut table, 3)?;
    let after = first_wrong(&mut table, &AFTER_A_VECTOR);
    assert_eq!(rt; (elsewhere, there, after), (false, true, None));
    Ok(())
}

// An integer of more than 64 bits, and those put after it until all of them are taken, are shown in no slice.
const WIDE_AND_NARROW: [(usize, Act); 15] = [
    (0, Act::Puts(Some(1))),
    (0, Act::Puts(Some(WIDE))),
    (0, Act::Puts(Some(3))),
    (0, Act::Blocks(Block::Shows(Items::Ints(&[1])))),
    (0, Act::Takes(Some(1))),
    (0, Act::Blocks(Block::Shows(Items::Nothing))),
    (0, Act::Blocks(Block::Puts(Items::Ints(&[4])))),
    (0, Act::Takes(Some(WIDE))),
    (0, Act::Blocks(Block::Shows(Items::Nothing))),
    (0, Act::Puts(Some(-WIDE))),
    (0, Act::Takes(Some(3))),
    (0, Act::Blocks(Block::TakesScalars(64, &[4, -WIDE], false))),
    (0, Act::Blocks(Block::Puts(Items::Ints(&[5, 6])))),
    (0, Act::Blocks(Block::Shows(Items::Ints(&[5, 6])))),
    (0, Act::Counts(7, 5)),
];

#[test]
fn wide_integers(rt: HostRuntime) -> Result<(), Fail> {
    let mut table = Table::new(rt.alloc(), &[Kind::Int], 4)?;
    assert_eq!(rt; first_wrong(&mut table, &WIDE_AND_NARROW), None);
    Ok(())
}

// An integer of more than 64 bits between two others, and `End`, on each of two edges.
const WIDE_BETWEEN: [(usize, Act); 8] = [
    (0, Act::Puts(Some(1))),
    (0, Act::Puts(Some(WIDE))),
    (0, Act::Puts(Some(3))),
    (0, Act::Puts(None)),
    (1, Act::Puts(Some(1))),
    (1, Act::Puts(Some(WIDE))),
    (1, Act::Puts(Some(3))),
    (1, Act::Puts(None)),
];

// What is left where two messages of the first edge, and all of the second, were passed over.
const LEFT: [(usize, Act); 5] = [
    (0, Act::Takes(Some(3))),
    (0, Act::Takes(None)),
    (0, Act::Counts(4, 4)),
    (1, Act::TakesNothing),
    (1, Act::Counts(4, 4)),
];

// Passes over so many messages of an edge, where it holds as many.
fn passes_over(table: &mut Table, edge: usize, count: usize) -> bool {
    if !table.has_reader(edge) || table.held(edge) < count {
        return false;
    }
    table.skip(edge, count);
    true
}

#[test]
fn wide_integers_are_passed_over(rt: HostRuntime) -> Result<(), Fail> {
    let mut table = Table::new(rt.alloc(), &[Kind::Int; 2], 4)?;
    let put = first_wrong(&mut table, &WIDE_BETWEEN);
    let passed = (passes_over(&mut table, 0, 2), passes_over(&mut table, 1, 4));
    let left = first_wrong(&mut table, &LEFT);
    assert_eq!(rt; (put, passed, left), (None, (true, true), None));
    Ok(())
}

// A block of scalars is put whole, or not at all, and is taken in order.
const OF_SCALARS: [(usize, Act); 8] = [
    (0, Act::Blocks(Block::HasRoomFor(3, true))),
    (0, Act::Blocks(Block::HasRoomFor(4, false))),
    (
        0,
        Act::Blocks(Block::PutsScalars(&[1, 2, WIDE], true, false)),
    ),
    (0, Act::Blocks(Block::PutsScalars(&[1, WIDE], true, true))),
    (0, Act::Blocks(Block::PutsScalars(&[3], false, false))),
    (0, Act::Blocks(Block::TakesScalars(1, &[1], false))),
    (0, Act::Blocks(Block::TakesScalars(64, &[WIDE], true))),
    (0, Act::Counts(3, 3)),
];

#[test]
fn blocks_of_scalars(rt: HostRuntime) -> Result<(), Fail> {
    let mut table = Table::new(rt.alloc(), &[Kind::Int], 3)?;
    assert_eq!(rt; first_wrong(&mut table, &OF_SCALARS), None);
    Ok(())
}
