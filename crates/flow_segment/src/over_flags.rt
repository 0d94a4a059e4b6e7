// Workers over flags alone.

ghost use Rattle.std.specs.Prelude.{◌≡◌, ◌≢◌, ◌≤◌, ◌<◌, ◌+◌, false, get_or, length, take, IfSome};
ghost use Rattle.flow_messages.specs.Cells.{flag};
ghost use Rattle.flow_messages.specs.Signals.{carry};
ghost use Rattle.flow_base.specs.Machines.{Leads, on_flag};
ghost use Rattle.flow_segment.specs.FlagBlocks.{RunsOver};
ghost use Rattle.flow_segment.specs.FlagSteps.{FlagLeads, RanOver};

use flow_base::{Ask, Moved, Stop, Worker, Written};
use flow_messages::{Flat, Item, Items, Kind};
use snesl_data::FaultKind;
use std::alloc::AllocError;

/// What a worker over flags does in a stage.
#[derive(Clone, Copy)]
pub enum StageMove<S> {
    /// A flag of port 0 begins an instance, and leads here where it is F, and there where it is T.
    Begin(Result<S, FaultKind>, Result<S, FaultKind>),
    /// A flag of this port leads here where it is F, and there where it is T.
    Take(usize, Result<S, FaultKind>, Result<S, FaultKind>),
    /// It writes this flag to this port, and goes on here.
    Give(usize, bool, S),
}

/// The stages of a worker over flags alone.
pub trait Stage: Copy {
    ghost use Rattle.flow_base.specs.Machines.{MachineLaws};
    ghost use Rattle.flow_segment.specs.FlagTables.{FlagTable, over_flags, move_of_stage};

    /// What it does.
    ghost table: { FlagTable Self };

    /// What its table keeps to.
    ghost laws: { MachineLaws (over_flags table) };

    /// The stage between two instances.
    fn start() -> Self
        ensures { result ≡ table.start };

    /// What it does in this stage.
    fn step(self) -> StageMove<Self>
        ensures { move_of_stage result ≡ table.move self };

    /// The number of its input ports.
    fn inputs() -> usize
        ensures { result ≡ table.inputs };

    /// The number of its output ports.
    fn outputs() -> usize
        ensures { result ≡ table.outputs };
}

/// A worker over flags alone, in this stage.
#[derive(Clone, Copy, Debug, PartialEq, Eq)]
pub struct OverFlags<S> {
    stage: S,
}

impl<S: Stage> OverFlags<S> {
    /// A worker before its first instance.
    pub fn new() -> OverFlags<S>
        ensures { result ≡ record { stage = S.table.start } }
    {
        OverFlags { stage: S::start() }
    }
}

// How many flags it may write: those of several outputs are left to single steps.
#[inline(always)]
fn room_in<S: Stage>(space: usize) -> usize
    ensures within { result ≤ space }
    ensures none { S.table.outputs ≢ 1 → result ≡ 0 }
{
    if S::outputs() == 1 { space } else { 0 }
}

// How far a table went over blocks of flags, and how many it read of each of two inputs and wrote.
#[derive(Clone, Copy)]
struct Ran<S> {
    stage: S,
    first: usize,
    second: usize,
    written: usize,
}

// The stage to which the flag at this place leads, where one is shown there and leads to one.
#[inline(always)]
fn stage_after<S: Copy>(
    at_f: Result<S, FaultKind>,
    at_t: Result<S, FaultKind>,
    flags: &[bool],
    place: usize,
) -> Option<S>
    ensures shown { IfSome result (λ _. place < length flags.now) }
    ensures leads { IfSome result (λ next. FlagLeads at_f at_t flags.now place next) }
{
    if place >= flags.len() {
        return None;
    }
    if flags[place] { at_t.ok() } else { at_f.ok() }
}

// Goes on from this stage over flags of its first input and of its second, as long as flags are there that lead on and there
// is room for those that it writes, and at most `most` steps. It puts what it writes into the block.
#[inline(always)]
fn run_over<S: Stage>(
    stage: S,
    firsts: &[bool],
    seconds: &[bool],
    block: &mut [bool],
    room: usize,
    most: usize,
) -> Ran<S>
    requires block { room ≤ length block.old }
    ensures first { result.first ≤ length firsts.now }
    ensures second { result.second ≤ length seconds.now }
    ensures written { result.written ≤ room }
    ensures within { result.first + result.second + result.written ≤ most }
    ensures block { length block.new ≡ length block.old }
    ensures ran { RanOver S.table stage firsts.now seconds.now block.new result }
{
    let mut ran = Ran {
        stage,
        first: 0,
        second: 0,
        written: 0,
    };
    for _ in 0..most {
        match ran.stage.step() {
            StageMove::Begin(at_f, at_t) => {
                let Some(next) = stage_after(at_f, at_t, firsts, ran.first) else {
                    return ran;
                };
                ran.stage = next;
                ran.first += 1;
            }
            StageMove::Take(0, at_f, at_t) => {
                let Some(next) = stage_after(at_f, at_t, firsts, ran.first) else {
                    return ran;
                };
                ran.stage = next;
                ran.first += 1;
            }
            StageMove::Take(1, at_f, at_t) => {
                let Some(next) = stage_after(at_f, at_t, seconds, ran.second) else {
                    return ran;
                };
                ran.stage = next;
                ran.second += 1;
            }
            StageMove::Give(0, flag, next) => {
                if ran.written == room {
                    return ran;
                }
                block[ran.written] = flag;
                ran.stage = next;
                ran.written += 1;
            }
            _ => return ran,
        }
    }
    ran
}

impl<S: Stage> Worker for OverFlags<S> {
    ghost use Rattle.flow_segment.specs.FlagTables.{over_flags, stage_view};

    ghost Parameters = { Unit {0} };

    ghost State = { S };

    ghost state = { stage_view };

    ghost machine = { over_flags S.table };

    ghost passes = { λ _. false };

    ghost laws = { S.laws };

    #[inline(always)]
    fn ask(&self) -> Ask {
        match self.stage.step() {
            StageMove::Begin(_, _) => Ask::Begin,
            StageMove::Take(port, _, _) => Ask::Take(port),
            StageMove::Give(port, _, _) => Ask::Give(port),
        }
    }

    fn inputs(&self) -> usize {
        S::inputs()
    }

    fn outputs(&self) -> usize {
        S::outputs()
    }

    fn kind_in(&self, _port: usize) -> Kind {
        Kind::Bool
    }

    fn kind_out(&self, _port: usize) -> Kind {
        Kind::Bool
    }

    fn passes(&self) -> bool {
        false
    }

    // It is not asked.
    fn follows(&self, _item: Flat) -> Option<Flat> {
        None
    }

    #[inline(always)]
    fn take(&mut self, item: Item) -> Result<(), Stop> {
        self.stage = match (self.stage.step(), item) {
            (StageMove::Begin(next, _) | StageMove::Take(_, next, _), Item::Bool(false)) => next?,
            (StageMove::Begin(_, next) | StageMove::Take(_, _, next), Item::Bool(true)) => next?,
            _ => return Err(Stop::Faulted(FaultKind::Shape)),
        };
        Ok(())
    }

    #[inline(always)]
    fn give(&mut self) -> Result<Item, AllocError> {
        match self.stage.step() {
            StageMove::Give(_, flag, next) => {
                self.stage = next;
                Ok(Item::Bool(flag))
            }
            _ => Ok(Item::Unit),
        }
    }

    // Flags of one or two inputs are seen at once, and those of one output are written.
    #[inline(always)]
    fn along(
        &mut self,
        first: Items<'_>,
        second: Items<'_>,
        block: &mut Written,
        space: usize,
        most: usize,
    ) -> Moved {
        let room = room_in::<S>(space);
        let firsts = first.flags();
        let seconds = second.flags();
        let ran = run_over(self.stage, firsts, seconds, &mut block.flags, room, most);
        self.stage = ran.stage;
        Moved {
            first: ran.first,
            second: ran.second,
            units: 0,
            flags: ran.written,
            ints: 0,
            steps: ran.first + ran.second + ran.written,
        }
    }
}
