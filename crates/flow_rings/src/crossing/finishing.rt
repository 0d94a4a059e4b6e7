// A writer that finishes, in a thread of its own.
ghost use Rattle.std.specs.Prelude.{◌≡◌, ◌<◌, ◌≤◌, true, [], IfOk, IfSome};
ghost use Rattle.flow_messages.specs.Limits.{greatest_capacity};
ghost use Rattle.flow_messages.specs.Signals.{signals, ended, orderly};
ghost use Rattle.flow_rings.specs.Edge.{received, all_sent, IsEdge, IsMarkOf};
ghost use Rattle.flow_rings.specs.declared.ring.EdgeReader.{EdgeReader as Reader};
ghost use Rattle.flow_rings.specs.crossing.Messages.{MayPutAll, TookToEnd};

use crate::crossing::across::{put_all, take_all};
use crate::{EdgeReader, EdgeWriter, FinishedMark, all_was_received, edge, same_ends_are_an_edge};
use flow_messages::Msg;
use std::alloc::{AllocError, Global};
use std::sync::Wait;
use std::thread;
use std::thread::Threads;

// Puts all the messages in order, and gives up the writer for its mark.
fn put_and_finish(rt: &impl Wait, writer: EdgeWriter, messages: Vec<Msg>) -> Option<FinishedMark>
    requires { MayPutAll writer messages.items }
    ensures mark { IfSome result (λ mark. (r : Reader) → IsEdge writer r → IsMarkOf mark r) }
    ensures sent { IfSome result (λ mark. all_sent mark ≡ messages.items) }
{
    put_all(rt, writer, messages).finish()
}

/// Sends messages, the last of which is their only `End`, from one thread to another over an edge of
/// this capacity. The writer finishes, and the reader asks its mark what is left: nothing. There is no
/// answer where the reader was dropped before, which never happens here.
///
/// Its only error is that memory was refused. It may wait forever where no second thread can be made.
pub fn send_and_finish<R: Threads + Wait + Sync>(
    rt: &R,
    alloc: Global,
    capacity: usize,
    messages: Vec<Msg>,
) -> Result<(Vec<Msg>, Option<usize>), AllocError>
    requires some { 0 < capacity }
    requires limit { capacity ≤ greatest_capacity }
    requires ended { ended (signals messages.items) ≡ true }
    requires orderly { orderly (signals messages.items) ≡ true }
    ensures taken { IfOk result (λ r. IfSome r.1 (λ _. r.0.items ≡ messages.items)) }
    ensures left { IfOk result (λ r. IfSome r.1 (λ left. left ≡ 0)) }
{
    let (writer, reader) = edge(alloc, capacity)?;
    let (mark, (mut reader, taken)) = thread::join(
        rt,
        move || -> Option<FinishedMark>
            requires { MayPutAll writer messages.items }
            ensures mark { IfSome result (λ mark. (r : Reader) → IsEdge writer r →
                IsMarkOf mark r) }
            ensures sent { IfSome result (λ mark. all_sent mark ≡ messages.items) }
        { put_and_finish(rt, writer, messages) },
        move || -> (EdgeReader, Result<Vec<Msg>, AllocError>)
            requires { received reader ≡ [] }
            ensures { TookToEnd reader result.0 result.1 }
        { take_all(rt, alloc, reader) },
    );
    same_ends_are_an_edge();
    let Some(mut mark) = mark else {
        return Ok((taken?, None));
    };
    let left = reader.after(&mut mark);
    all_was_received();
    Ok((taken?, Some(left)))
}
