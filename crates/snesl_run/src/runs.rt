// Running a program for an input text.

ghost use Rattle.std.specs.Prelude.{◌≡◌, ◌++◌, ◌∷◌, ◌⊎◌, IfErr, IfOk, []};
ghost use Rattle.snesl_data.specs.declared.refusal.Refusal.TheVariants.{BadConfig, NoMemory, NoThread};
ghost use Rattle.flow_drives.specs.Configs.{IsLawful};
ghost use Rattle.snesl_run.specs.Alike.{IsTheOneWay};
ghost use Rattle.snesl_run.specs.Runs.{IsReported, HasWritten, HasWrittenGiven, Errs};
ghost use Rattle.snesl_run.specs.Runs.{IsRefusedWith, RunAsks};

use crate::console::send;
use crate::laws::one_outcome;
use crate::report::{Report, RunError};
use flow_drives::{AlwaysStart, Config, Gate, Outcome, Start};
use snesl_data::{Counted, Refusal};
use snesl_flatten::network::drive_program_with;
use snesl_meaning::one_meaning;
use std::alloc::Global;
use std::io::Write;
use std::sync::Arc;
use std::thread::Threads;

/// Runs a program for an input text as a network of transducers, in the small fixed buffers of the configuration, and
/// writes its value to `out`, as one line, where all nodes of the network have ended.
///
/// The report has this network at rest, driven by the drive of the configuration. Where a fault is named, the program ends
/// in a fault, perhaps in another one; where the network has stalled, some edge was too small. Then nothing is written. No
/// call of `out` failed where a report is answered. Drives of several threads call the gate before each turn of a thread.
///
/// One thread and rounds come to one report at one capacity, whatever the chunk, the threads and their shares: the same
/// outcome, with the place of a fault and the edge that a stall names.
///
/// # Errors
///
/// In this order, but for `NoMemory`:
///
/// - `BadConfig`: exactly where the configuration is not lawful.
/// - A refusal from 1 to 9: that of the program text, else of its typing, else of the input text, else `TooBig` where
///   the network is greater than a graph may be.
/// - `NoThread`: a thread could not be started, which may be for want of memory, by a drive that starts threads. Nothing
///   was written.
/// - `Output`: all nodes have ended, and a write failed or took no byte, and no other call failed. The writer has taken a
///   beginning of the line, and no second try was made, at an interrupted call either.
/// - `NoMemory`: memory was refused, at any time after the first. Nothing was written, since memory is taken before the
///   first write.
pub fn run<R: Threads, W: Write, G: Gate + Send + Sync + Drop + 'static>(
    rt: &R,
    alloc: Global,
    program: &[u8],
    input: &[u8],
    config: &Config,
    gate: Arc<G, Global>,
    out: &mut Counted<W>,
) -> Result<Report, RunError>
    ensures network { IfOk result (IsReported program.now input.now config.now) }
    ensures wrote { IfOk result (HasWritten W.contents program.now input.now out.old out.new) }
    ensures value { IfOk result (HasWrittenGiven W.contents program.now input.now out.old out.new) }
    ensures refused { IfErr result (Errs W.contents program.now input.now config.now out.old
        out.new) }
    ensures config { (IsLawful config.now → ⊥) → IsRefusedWith BadConfig result }
    ensures one { IfOk result (IsTheOneWay program.now input.now config.now) }
{
    run_with(
        rt,
        alloc,
        program,
        input,
        config,
        gate,
        out,
        &mut AlwaysStart::new(),
    )
}

/// The same, where `start` is asked before each thread is started, in each round and each epoch for each thread once, in
/// order. Where it refuses one, that is answered as `NoThread`.
pub fn run_with<R: Threads, W: Write, G: Gate + Send + Sync + Drop + 'static, S: Start>(
    rt: &R,
    alloc: Global,
    program: &[u8],
    input: &[u8],
    config: &Config,
    gate: Arc<G, Global>,
    out: &mut Counted<W>,
    start: &mut S,
) -> Result<Report, RunError>
    ensures network { IfOk result (IsReported program.now input.now config.now) }
    ensures wrote { IfOk result (HasWritten W.contents program.now input.now out.old out.new) }
    ensures value { IfOk result (HasWrittenGiven W.contents program.now input.now out.old out.new) }
    ensures refused { IfErr result (Errs W.contents program.now input.now config.now out.old
        out.new) }
    ensures config { (IsLawful config.now → ⊥) → IsRefusedWith BadConfig result }
    ensures one { IfOk result (IsTheOneWay program.now input.now config.now) }
    ensures asked { IfOk result (RunAsks S.asked start.old start.new config.now) }
    ensures start { S.refused start.new → S.refused start.old ⊎ IsRefusedWith NoThread result }
{
    one_meaning();
    one_outcome();
    let rested = drive_program_with(rt, alloc, program, input, config, gate, start)?;
    let outcome = rested.outcome();
    match outcome {
        Outcome::Value => {
            let line = line_of(alloc, rested.text())?;
            if !send(out, &line) {
                return Err(RunError {
                    refusal: Refusal::Output,
                });
            }
        }
        Outcome::Fault(_) => {}
        Outcome::Stalled { .. } => {}
    }
    Ok(Report { rested, outcome })
}

// The text as a line.
fn line_of(alloc: Global, text: &[u8]) -> Result<Vec<u8>, Refusal>
    ensures line { IfOk result (λ line. line.items ≡ text.now ++ 10 ∷ []) }
    ensures memory { IfErr result (λ refusal. refusal ≡ NoMemory) }
{
    let mut line = Vec::from_slice(alloc, text)?;
    line.push(b'\n')?;
    Ok(line)
}
