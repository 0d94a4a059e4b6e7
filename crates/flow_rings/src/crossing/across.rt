// Messages that one thread puts on an edge and another takes from it.
ghost use Rattle.std.specs.Prelude.{◌≡◌, ◌<◌, ◌≤◌, List, None, true, false, [], ◌∷◌, ◌++◌, IfOk};
ghost use Rattle.flow_messages.specs.Limits.{greatest_capacity};
ghost use Rattle.flow_messages.specs.Signals.{signals, ended, orderly};
ghost use Rattle.flow_messages.specs.declared.message.Msg.{Msg as Message};
ghost use Rattle.flow_rings.specs.Edge.{sent, received, kind_of, SameWriter};
ghost use Rattle.flow_rings.specs.crossing.Messages.{MayPutAll, TookToEnd, WereKept};

use crate::{EdgeReader, EdgeWriter, Held, all_was_received, edge, meet, same_ends_are_an_edge};
use flow_messages::Msg;
use std::alloc::{AllocError, Global};
use std::sync::Wait;
use std::thread;
use std::thread::Threads;

/// What came over an edge, and what its ends found where they met afterwards.
#[derive(Drop)]
pub struct Across {
    pub taken: Vec<Msg>,
    pub held: Held,
}

// Puts the message, as soon as there is room.
fn put_waiting(rt: &impl Wait, writer: &mut EdgeWriter, message: Msg)
    requires unended { ended (signals (sent writer.old)) ≡ false }
    requires any { kind_of writer.old ≡ None }
    ensures same { SameWriter writer.old writer.new }
    ensures sent { sent writer.new ≡ sent writer.old ++ message ∷ [] }
{
    let mut message = message;
    for _ in rt.forever() {
        match writer.put(message) {
            Ok(()) => return,
            Err(refused) => message = refused.message,
        }
        thread::yield_now();
    }
    unreachable!()
}

/// Puts all the messages in order, and waits for room where there is none.
pub fn put_all(rt: &impl Wait, writer: EdgeWriter, messages: Vec<Msg>) -> EdgeWriter
    requires { MayPutAll writer messages.items }
    ensures same { SameWriter writer result }
    ensures sent { sent result ≡ messages.items }
{
    let mut writer = writer;
    for message in messages {
        put_waiting(rt, &mut writer, message);
    }
    writer
}

// The list with one message more. A list for which there is no memory is given up.
fn keep(taken: Result<Vec<Msg>, AllocError>, message: Msg) -> Result<Vec<Msg>, AllocError>
    ensures { (kept : List Message) → WereKept taken kept → WereKept result (kept ++ message ∷ []) }
{
    let mut taken = taken?;
    taken.push(message)?;
    Ok(taken)
}

/// Takes messages up to `End`, and waits where none is there. They are all taken also where there is no
/// memory to keep them: else the writer would wait for room forever.
pub fn take_all(
    rt: &impl Wait,
    alloc: Global,
    reader: EdgeReader,
) -> (EdgeReader, Result<Vec<Msg>, AllocError>)
    requires { received reader ≡ [] }
    ensures { TookToEnd reader result.0 result.1 }
{
    let mut reader = reader;
    let mut taken = Ok(Vec::new(alloc));
    for _ in rt.forever() {
        match reader.take() {
            Some(message) => {
                let last = message.is_end();
                taken = keep(taken, message);
                if last {
                    return (reader, taken);
                }
            }
            None => thread::yield_now(),
        }
    }
    unreachable!()
}

/// Sends messages, the last of which is their only `End`, from one thread to another over an edge of
/// this capacity. What is taken is what was put, in order, and the edge is empty afterwards.
///
/// Its only error is that memory was refused. It may wait forever where no second thread can be made.
pub fn send_across<R: Threads + Wait + Sync>(
    rt: &R,
    alloc: Global,
    capacity: usize,
    messages: Vec<Msg>,
) -> Result<Across, AllocError>
    requires some { 0 < capacity }
    requires limit { capacity ≤ greatest_capacity }
    requires ended { ended (signals messages.items) ≡ true }
    requires orderly { orderly (signals messages.items) ≡ true }
    ensures taken { IfOk result (λ across. across.taken.items ≡ messages.items) }
    ensures empty { IfOk result (λ across. (across.held.count ≡ 0) ×
        (across.held.room ≡ capacity)) }
{
    let (writer, reader) = edge(alloc, capacity)?;
    let (mut writer, (mut reader, taken)) = thread::join(
        rt,
        move || -> EdgeWriter
            requires { MayPutAll writer messages.items }
            ensures same { SameWriter writer result }
            ensures sent { sent result ≡ messages.items }
        { put_all(rt, writer, messages) },
        move || -> (EdgeReader, Result<Vec<Msg>, AllocError>)
            requires { received reader ≡ [] }
            ensures { TookToEnd reader result.0 result.1 }
        { take_all(rt, alloc, reader) },
    );
    same_ends_are_an_edge();
    let held = meet(&mut writer, &mut reader);
    all_was_received();
    Ok(Across {
        taken: taken?,
        held,
    })
}
