// Programs that are run.
ghost use Rattle.std.specs.Prelude.{◌≡◌, IfOk, IfErr};
ghost use Rattle.flow_drive.specs.Drive.TheVariants.{Serial};
ghost use Rattle.snesl_run.specs.Configs.{IsLawful};
ghost use Rattle.callers.specs.Run.{IsLineOf, IsRefusedFor};

use snesl_run::{Config, Counted, Drive, NoGate, Outcome, Refusal, run};
use std::alloc::{AllocError, Global};
use std::sync::Arc;
use std::thread::Threads;

/// The line of a program's value for an input text, or `None` where its network came to a fault or has
/// stalled.
///
/// A refusal is that of the program or of its input text; `TooBig`; `NoMemory`; or `Output`, where memory
/// was refused to the line as it was written.
pub fn line_of(
    rt: &impl Threads,
    alloc: Global,
    program: &[u8],
    input: &[u8],
) -> Result<Option<Vec<u8>>, Refusal>
    ensures line { IfOk result (IsLineOf program.now input.now) }
    ensures refused { IfErr result (IsRefusedFor program.now input.now) }
{
    let config = in_one_thread(alloc)?;
    let gate = Arc::new(alloc, NoGate)?;
    let mut out = Counted::new(Vec::new(alloc));
    match run(rt, alloc, program, input, &config, gate, &mut out) {
        Ok(report) => match report.outcome() {
            Outcome::Value => Ok(Some(out.into_inner())),
            Outcome::Fault(_) => Ok(None),
            Outcome::Stalled { .. } => Ok(None),
        },
        Err(error) => Err(error.refusal()),
    }
}

// All nodes in the caller's thread, over edges of 256 messages. The error is that memory was refused.
fn in_one_thread(alloc: Global) -> Result<Config, AllocError>
    ensures lawful { IfOk result (λ config. IsLawful config) }
    ensures drive { IfOk result (λ config. config.drive ≡ Serial) }
    ensures capacity { IfOk result (λ config. config.capacity ≡ 256) }
{
    Ok(Config {
        capacity: 256,
        chunk: 16,
        threads: 1,
        idle: 1,
        share: vec![in alloc; 0u8]?,
        drive: Drive::Serial,
    })
}
