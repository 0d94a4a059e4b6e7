// Threads, each of which pumps a share and gives it back.
ghost use Rattle.std.specs.Prelude.{◌≡◌, ◌<◌, ◌⊎◌, ◌++◌, ◌∷◌, [], false, length, IfOk, OnOk, OnErr};
ghost use Rattle.std.specs.List.{All};
ghost use Rattle.flow_shares.specs.Given.{shares_given};
ghost use Rattle.flow_shares.specs.Pumps.{IsPumped, ArePumped};
ghost use Rattle.flow_shares.specs.Starts.{AsksForEach, AsksForFirst};
ghost use Rattle.flow_shares.specs.declared.error.WorkError.TheVariants.{NoThread};

use crate::error::WorkError;
use crate::gate::Gate;
use crate::share::Share;
use crate::start::Start;
use crate::turns::pump;
use flow_base::Transducer;
use flow_messages::Ends;
use std::alloc::Global;
use std::snapshot::Snapshot;
use std::sync::Arc;
use std::thread;
use std::thread::{Promise, PromisedHandle, Threads};

// What a thread promises of the share that it gives back: a pump made it of the one that was given.
#[derive(Drop)]
struct Pumped<T: Transducer, E: Ends> {
    given: Snapshot<Share<T, E>>,
}

impl<T: Transducer, E: Ends> Promise<Share<T, E>> for Pumped<T, E> {
    ghost kept_by = { λ promise result. IsPumped promise.given.value result };
}

// A thread that was started and is still to be joined.
type Started<T, E> = PromisedHandle<Share<T, E>, Pumped<T, E>>;

// Starts a thread for the share, once `start` was asked for this number, and if it may. A share for which none could be
// started is let go.
fn start_thread<
    R: Threads,
    T: Transducer + Send + Drop + 'static,
    E: Ends + Send + Drop + 'static,
    G: Gate + Send + Sync + Drop + 'static,
    S: Start,
>(
    rt: &R,
    share: Share<T, E>,
    number: usize,
    chunk: usize,
    idle_turns: usize,
    gate: &Arc<G, Global>,
    start: &mut S,
) -> Result<Started<T, E>, WorkError>
    requires some { 0 < chunk }
    requires idle { 0 < idle_turns }
    requires fed { share.starved ≡ false }
    ensures given { IfOk result (λ thread. thread.promise.given.value ≡ share) }
    ensures asked { S.asked start.new ≡ S.asked start.old ++ number ∷ [] }
    ensures refused { S.refused start.new → S.refused start.old ⊎ (result ≡ Err NoThread) }
{
    if !start.may_start(number) {
        return Err(WorkError::NoThread);
    }
    let gate = Arc::try_clone(gate)?;
    let promise = Pumped {
        given: Snapshot::of(&share),
    };
    let thread = thread::spawn_with(
        rt,
        promise,
        move || -> Share<T, E>
            requires some { 0 < chunk }
            requires idle { 0 < idle_turns }
            requires fed { share.starved ≡ false }
        { pump(share, chunk, idle_turns, &*gate) },
    )?;
    Ok(thread)
}

// Joins the threads, and lets their shares go.
fn join_all<R: Threads, T: Transducer + Drop, E: Ends + Drop>(rt: &R, threads: Vec<Started<T, E>>) {
    for thread in threads {
        drop(thread.join(rt));
    }
}

// Starts a thread for each share, in order. Where one is refused, those that were started are joined.
fn start_all<
    R: Threads,
    T: Transducer + Send + Drop + 'static,
    E: Ends + Send + Drop + 'static,
    G: Gate + Send + Sync + Drop + 'static,
    S: Start,
>(
    rt: &R,
    alloc: Global,
    shares: Vec<Share<T, E>>,
    chunk: usize,
    idle_turns: usize,
    gate: &Arc<G, Global>,
    start: &mut S,
) -> Result<Vec<Started<T, E>>, WorkError>
    requires some { 0 < chunk }
    requires idle { 0 < idle_turns }
    requires fed { All (λ share. share.starved ≡ false) shares.items }
    ensures given { IfOk result (λ threads. shares_given threads.items ≡ shares.items) }
    ensures asked { OnOk result (AsksForEach S.asked start.old start.new shares.items) }
    ensures first { OnErr result (AsksForFirst S.asked start.old start.new shares.items) }
    ensures refused { S.refused start.new → S.refused start.old ⊎ (result ≡ Err NoThread) }
{
    let mut threads = Vec::with_capacity(alloc, shares.len())?;
    for share in shares {
        let number = threads.len();
        match start_thread(rt, share, number, chunk, idle_turns, gate, start) {
            Ok(thread) => threads.push_reserved(thread),
            Err(refused) => {
                join_all(rt, threads);
                return Err(refused);
            }
        }
    }
    Ok(threads)
}

/// Runs each share in a thread of its own, all of them at once, and gives them back in order.
///
/// All threads are started before any is joined, and one share gets a thread too. `start` is asked for each thread once, in
/// the order of the shares and before it is started; after a refusal it is asked no more. Refused as `NoThread` where it
/// says no or a thread could not be started, and as `NoMemory` where memory was refused for a list, or the gate has as many
/// owners as it may. The shares are then let go.
///
/// A thread that was started is joined whatever else fails. No contract can say so: a test sees it. Nor can one say that
/// each pump gets this `chunk`, these `idle_turns` and this gate: only a reader of the code sees it.
pub fn run_all<
    R: Threads,
    T: Transducer + Send + Drop + 'static,
    E: Ends + Send + Drop + 'static,
    G: Gate + Send + Sync + Drop + 'static,
    S: Start,
>(
    rt: &R,
    alloc: Global,
    shares: Vec<Share<T, E>>,
    chunk: usize,
    idle_turns: usize,
    gate: &Arc<G, Global>,
    start: &mut S,
) -> Result<Vec<Share<T, E>>, WorkError>
    requires some { 0 < chunk }
    requires idle { 0 < idle_turns }
    requires fed { All (λ share. share.starved ≡ false) shares.items }
    ensures count { IfOk result (λ back. length back.items ≡ length shares.items) }
    ensures each { IfOk result (λ back. ArePumped shares.items back.items) }
    ensures asked { OnOk result (AsksForEach S.asked start.old start.new shares.items) }
    ensures first { OnErr result (AsksForFirst S.asked start.old start.new shares.items) }
    ensures refused { S.refused start.new → S.refused start.old ⊎ (result ≡ Err NoThread) }
{
    let mut back = Vec::with_capacity(alloc, shares.len())?;
    for thread in start_all(rt, alloc, shares, chunk, idle_turns, gate, start)? {
        back.push_reserved(thread.join(rt));
    }
    Ok(back)
}
