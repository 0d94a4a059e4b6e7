// Both ends of an edge in one thread, by steps.
ghost use Rattle.std.specs.Prelude.{◌≡◌, ◌≢◌, Some};
ghost use Rattle.flow_messages.specs.declared.message.Kind.TheVariants.{Vec as VecKind};
ghost use Rattle.flow_rings.specs.Edge.{IsEdge, kind_of};
ghost use Rattle.flow_part_tests.specs.Ints.{TakesInts};

use crate::messages::{is_message, is_refused, message};
use flow_messages::{Kind, Why};
use flow_rings::{
    Block, EdgeReader, EdgeWriter, Flat, Held, edge, meet, same_ends_are_an_edge, scalar_edge,
};
use flow_samples::block;
use std::process::Abort;
use std::test::Fail;

// What is done at an edge, and what is to come of it. A message is a number, or `End` where there is none.
#[derive(Clone, Copy)]
enum ThreadStep {
    Puts(Option<i128>),
    // It is refused for this cause, and comes back.
    IsRefused(Option<i128>, Why),
    Takes(Option<i128>),
    TakesNothing,
    Meets(Held),
    HasRoom(bool),
    IsReady(bool),
}

// Makes a step. Whether what is to come of it comes.
fn goes(writer: &mut EdgeWriter, reader: &mut EdgeReader, step: ThreadStep) -> bool
    requires edge { IsEdge writer.old reader.old }
    requires ints { TakesInts (kind_of writer.old) }
    ensures edge { IsEdge writer.new reader.new }
    ensures kind { kind_of writer.new ≡ kind_of writer.old }
{
    same_ends_are_an_edge();
    match step {
        ThreadStep::Puts(of) => writer.put(message(of)).is_ok(),
        ThreadStep::IsRefused(of, cause) => is_refused(writer.put(message(of)), of, cause),
        ThreadStep::Takes(of) => is_message(reader.take(), of),
        ThreadStep::TakesNothing => reader.take().is_none(),
        ThreadStep::Meets(held) => meet(writer, reader) == held,
        ThreadStep::HasRoom(room) => writer.room() == room,
        ThreadStep::IsReady(ready) => reader.ready() == ready,
    }
}

// Asserts that these steps go one after another over a new edge.
fn assert_goes(rt: &impl Abort, ends: (EdgeWriter, EdgeReader), steps: &[ThreadStep])
    requires edge { IsEdge ends.0 ends.1 }
    requires ints { TakesInts (kind_of ends.0) }
{
    let (mut writer, mut reader) = ends;
    for (number, &step) in steps.iter().enumerate() {
        assert!(rt; goes(&mut writer, &mut reader, step), "step {number}");
    }
}

// What is done at an edge of scalars of one kind. A block has items that stand for these numbers, and `End` after them where it
// closes.
#[derive(Clone, Copy)]
enum BlockStep {
    // Over an edge of integers alone.
    One(ThreadStep),
    Meets(Held),
    HasRoomFor(usize, bool),
    Puts(&'static [i128], bool),
    // Nothing of the block is put.
    IsRefused(&'static [i128], bool),
    // At most so many are taken, and these come.
    Takes(usize, &'static [i128], bool),
    // The same in place of others, of which there are four.
    TakesOver(usize, &'static [i128], bool),
}

// Makes a step over an edge of this kind. Whether what is to come of it comes.
fn goes_in_blocks(
    writer: &mut EdgeWriter,
    reader: &mut EdgeReader,
    kind: Kind,
    step: BlockStep,
) -> bool
    requires edge { IsEdge writer.old reader.old }
    requires kind { kind_of writer.old ≡ Some kind }
    requires scalar { kind ≢ VecKind }
    ensures edge { IsEdge writer.new reader.new }
    ensures kind { kind_of writer.new ≡ Some kind }
{
    same_ends_are_an_edge();
    match step {
        BlockStep::One(step) => kind == Kind::Int && goes(writer, reader, step),
        BlockStep::Meets(held) => meet(writer, reader) == held,
        BlockStep::HasRoomFor(count, room) => writer.room_for(count) == room,
        BlockStep::Puts(numbers, closes) => {
            let mut block = block(kind, numbers, closes);
            writer.put_block(&mut block) && block.is_empty()
        }
        BlockStep::IsRefused(numbers, closes) => {
            let (mut put, kept) = (block(kind, numbers, closes), block(kind, numbers, closes));
            !writer.put_block(&mut put) && put.as_slice() == kept.as_slice()
        }
        BlockStep::Takes(most, numbers, closes) => {
            let mut taken = Block::new();
            let count = reader.take_block(&mut taken, most);
            count == taken.len() && taken.as_slice() == block(kind, numbers, closes).as_slice()
        }
        BlockStep::TakesOver(most, numbers, closes) => {
            let mut taken = [Flat::End; 4];
            let count = reader.take_slice(&mut taken, most);
            &taken[..count] == block(kind, numbers, closes).as_slice()
        }
    }
}

// Asserts that these steps go one after another over a new edge of this kind.
fn assert_goes_in_blocks(
    rt: &impl Abort,
    ends: (EdgeWriter, EdgeReader),
    kind: Kind,
    steps: &[BlockStep],
)
    requires edge { IsEdge ends.0 ends.1 }
    requires kind { kind_of ends.0 ≡ Some kind }
    requires scalar { kind ≢ VecKind }
{
    let (mut writer, mut reader) = ends;
    for (number, &step) in steps.iter().enumerate() {
        assert!(rt;
            goes_in_blocks(&mut writer, &mut reader, kind, step),
            "{kind:?}, step {number}"
        );
    }
}

// Two messages fill an edge of two.
const OF_TWO: [ThreadStep; 16] = [
    ThreadStep::Puts(Some(1)),
    ThreadStep::Puts(Some(2)),
    ThreadStep::Meets(Held { count: 2, room: 0 }),
    ThreadStep::IsRefused(Some(3), Why::Full),
    ThreadStep::HasRoom(false),
    ThreadStep::IsReady(true),
    ThreadStep::Takes(Some(1)),
    ThreadStep::Takes(Some(2)),
    ThreadStep::TakesNothing,
    ThreadStep::IsReady(false),
    ThreadStep::Meets(Held { count: 0, room: 2 }),
    ThreadStep::HasRoom(true),
    ThreadStep::Puts(None),
    ThreadStep::IsRefused(Some(4), Why::Closed),
    ThreadStep::Meets(Held { count: 1, room: 1 }),
    ThreadStep::Takes(None),
];

// An end waits for room too.
const OF_ONE: [ThreadStep; 4] = [
    ThreadStep::Puts(Some(1)),
    ThreadStep::IsRefused(None, Why::Full),
    ThreadStep::Meets(Held { count: 1, room: 0 }),
    ThreadStep::Takes(Some(1)),
];

// Blocks go over an edge of three, whole or not at all, and are taken in order.
const IN_BLOCKS: [BlockStep; 16] = [
    BlockStep::HasRoomFor(3, true),
    BlockStep::HasRoomFor(4, false),
    BlockStep::Puts(&[1, 2], false),
    BlockStep::IsRefused(&[3], true),
    BlockStep::Puts(&[3], false),
    BlockStep::IsRefused(&[], true),
    BlockStep::Meets(Held { count: 3, room: 0 }),
    BlockStep::Takes(0, &[], false),
    BlockStep::Takes(2, &[1, 2], false),
    BlockStep::HasRoomFor(2, true),
    BlockStep::Puts(&[4], true),
    BlockStep::IsRefused(&[5], false),
    BlockStep::One(ThreadStep::IsRefused(Some(5), Why::Closed)),
    BlockStep::Meets(Held { count: 3, room: 0 }),
    BlockStep::Takes(64, &[3, 4], true),
    BlockStep::Takes(64, &[], false),
];

// `End` alone is refused by a full edge too.
const END_ALONE: [BlockStep; 4] = [
    BlockStep::Puts(&[1], false),
    BlockStep::IsRefused(&[], true),
    BlockStep::Meets(Held { count: 1, room: 0 }),
    BlockStep::Takes(64, &[1], false),
];

// The same over an edge of three of any kind: of units each number stands for the one unit.
const OF_ANY_KIND: [BlockStep; 13] = [
    BlockStep::HasRoomFor(3, true),
    BlockStep::HasRoomFor(4, false),
    BlockStep::Puts(&[1, 0], false),
    BlockStep::IsRefused(&[1], true),
    BlockStep::Puts(&[0], false),
    BlockStep::IsRefused(&[], true),
    BlockStep::Meets(Held { count: 3, room: 0 }),
    BlockStep::Takes(2, &[1, 0], false),
    BlockStep::Puts(&[1], true),
    BlockStep::IsRefused(&[0], false),
    BlockStep::Meets(Held { count: 3, room: 0 }),
    BlockStep::Takes(64, &[0, 1], true),
    BlockStep::Takes(64, &[], false),
];

// Messages taken in place of others, at most four.
const OVER_SLICES: [BlockStep; 4] = [
    BlockStep::Puts(&[1, 2], true),
    BlockStep::TakesOver(1, &[1], false),
    BlockStep::TakesOver(9, &[2], true),
    BlockStep::TakesOver(9, &[], false),
];

#[test]
fn edges_of_two_and_of_one(rt: HostRuntime) -> Result<(), Fail> {
    assert_goes(&rt, edge(rt.alloc(), 2)?, &OF_TWO);
    assert_goes(&rt, edge(rt.alloc(), 1)?, &OF_ONE);
    assert_goes(&rt, scalar_edge(rt.alloc(), Kind::Int, 2)?, &OF_TWO);
    assert_goes(&rt, scalar_edge(rt.alloc(), Kind::Int, 1)?, &OF_ONE);
    Ok(())
}

#[test]
fn blocks_over_edges_of_each_kind(rt: HostRuntime) -> Result<(), Fail> {
    let alloc = rt.alloc();
    assert_goes_in_blocks(
        &rt,
        scalar_edge(alloc, Kind::Int, 3)?,
        Kind::Int,
        &IN_BLOCKS,
    );
    assert_goes_in_blocks(
        &rt,
        scalar_edge(alloc, Kind::Int, 3)?,
        Kind::Int,
        &OVER_SLICES,
    );
    assert_goes_in_blocks(
        &rt,
        scalar_edge(alloc, Kind::Unit, 3)?,
        Kind::Unit,
        &OF_ANY_KIND,
    );
    assert_goes_in_blocks(
        &rt,
        scalar_edge(alloc, Kind::Bool, 3)?,
        Kind::Bool,
        &OF_ANY_KIND,
    );
    assert_goes_in_blocks(
        &rt,
        scalar_edge(alloc, Kind::Unit, 1)?,
        Kind::Unit,
        &END_ALONE,
    );
    assert_goes_in_blocks(
        &rt,
        scalar_edge(alloc, Kind::Bool, 1)?,
        Kind::Bool,
        &END_ALONE,
    );
    assert_goes_in_blocks(
        &rt,
        scalar_edge(alloc, Kind::Int, 1)?,
        Kind::Int,
        &END_ALONE,
    );
    Ok(())
}
