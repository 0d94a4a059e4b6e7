// Configurations of several threads.

ghost use Rattle.std.specs.Prelude.{◌≡◌, IfOk};

use flow_drives::{Config, Drive};
use std::alloc::{AllocError, Global};

/// Edges that hold so many messages, and shares in so many threads, each of which ends after one turn without a step. Its
/// only error is that memory was refused.
pub fn in_threads(
    alloc: Global,
    drive: Drive,
    capacity: usize,
    threads: usize,
    share: &[u8],
) -> Result<Config, AllocError>
    ensures capacity { IfOk result (λ config. config.capacity ≡ capacity) }
    ensures threads { IfOk result (λ config. config.threads ≡ threads) }
    ensures share { IfOk result (λ config. config.share.items ≡ share.now) }
    ensures drive { IfOk result (λ config. config.drive ≡ drive) }
{
    Ok(Config {
        capacity,
        chunk: 16,
        threads,
        idle: 1,
        share: share.to_vec(alloc)?,
        drive,
    })
}
