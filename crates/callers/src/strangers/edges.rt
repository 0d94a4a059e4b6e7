// Messages, edges and ends.
use flow_edges::{
    Block, Boxes, EdgeReader, EdgeWriter, Ends, FinishedMark, Flat, Held, Item, Kind, Msg, Refused,
    Rings, Table, Why, edge, meet, scalar_edge,
};
use std::alloc::{AllocError, Global};

/// Two ends of an edge.
pub fn ends_of_an_edge(alloc: Global) -> Result<(EdgeWriter, EdgeReader), AllocError> {
    edge(alloc, 4)
}

/// Two ends of an edge of integers.
pub fn ends_of_integers(alloc: Global) -> Result<(EdgeWriter, EdgeReader), AllocError> {
    scalar_edge(alloc, Kind::Int, 65_536)
}

/// What a fresh edge holds, and for how many messages it has room.
pub fn met(alloc: Global) -> Result<Held, AllocError> {
    let (mut writer, mut reader) = edge(alloc, 2)?;
    Ok(meet(&mut writer, &mut reader))
}

/// Puts an item on a fresh edge.
pub fn put_one(alloc: Global, item: Item) -> Result<Option<Refused>, AllocError> {
    let (mut writer, _) = edge(alloc, 1)?;
    Ok(writer.put(Msg::Item(item)).err())
}

/// Whether a message came back because the edge was full.
pub fn was_full(refused: &Refused) -> bool {
    matches!(refused.why, Why::Full) && !matches!(refused.why, Why::Closed)
}

/// Whether there is room, and a message.
pub fn looked(writer: &mut EdgeWriter, reader: &mut EdgeReader) -> (bool, bool) {
    (writer.room(), reader.ready())
}

/// The next message.
pub fn taken(reader: &mut EdgeReader) -> Option<Msg> {
    reader.take()
}

/// How many messages are left after the writer has finished.
pub fn left_after(alloc: Global) -> Result<Option<usize>, AllocError> {
    let (writer, mut reader) = edge(alloc, 1)?;
    let Some(mut mark) = writer.finish() else {
        return Ok(None);
    };
    Ok(Some(reader.after(&mut mark)))
}

/// A mark that a writer has finished.
pub fn finished(writer: EdgeWriter) -> Option<FinishedMark> {
    writer.finish()
}

/// One message moved from edge to edge, where the ends are there.
pub fn moved<E: Ends>(ends: &mut E, from: usize, to: usize) -> bool {
    if !ends.has_reader(from) || !ends.has_writer(to) {
        return false;
    }
    if !ends.ready(from) || !ends.room(to) {
        return false;
    }
    ends.take(from).is_some()
}

/// Ends of edges in one thread: of units, of integers and of vectors.
pub fn table(alloc: Global) -> Result<Table, AllocError> {
    Table::new(alloc, &[Kind::Unit, Kind::Int, Kind::Vec], 256)
}

/// Whether `Boxes` have this writer, and `Rings` this reader.
pub fn are_there(boxes: &Boxes, rings: &Rings, edge: usize) -> (bool, bool) {
    (boxes.has_writer(edge), rings.has_reader(edge))
}

/// Whether a fresh edge has room for one message, and how many a block takes of it.
pub fn block_taken(alloc: Global) -> Result<(bool, usize), AllocError> {
    let (mut writer, mut reader) = scalar_edge(alloc, Kind::Int, 1)?;
    let mut block = Block::new();
    let has_room = writer.room_for(1);
    meet(&mut writer, &mut reader);
    Ok((has_room, reader.take_block(&mut block, 64)))
}

/// Whether the edge takes items of this kind, where its writer is there.
pub fn takes<E: Ends>(ends: &E, edge: usize, kind: Kind) -> Option<bool> {
    if !ends.has_writer(edge) {
        return None;
    }
    Some(ends.takes(edge, kind))
}

/// Whether the edge is certain of room for so many messages, where its writer is there.
pub fn has_room_for<E: Ends>(ends: &mut E, edge: usize, count: usize) -> Option<bool> {
    if !ends.has_writer(edge) {
        return None;
    }
    Some(ends.room_for(edge, count))
}

/// How many messages a block took of the edge, at most so many, where its reader is there.
pub fn taken_in_a_block<E: Ends>(
    ends: &mut E,
    edge: usize,
    block: &mut Block,
    most: usize,
) -> usize {
    if !ends.has_reader(edge) {
        return 0;
    }
    ends.take_block(edge, block, most)
}

/// Whether a block of one integer was put on the edge, where its writer is there and takes integers.
pub fn put_in_a_block<E: Ends>(ends: &mut E, edge: usize, value: i128) -> bool {
    if !ends.has_writer(edge) || !ends.takes(edge, Kind::Int) {
        return false;
    }
    let mut block = Block::new();
    block.push(Flat::Int(value));
    ends.put_block(edge, &mut block)
}
