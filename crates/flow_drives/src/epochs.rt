// Epochs as configurations say.
ghost use Rattle.std.specs.Prelude.{◌≡◌, ◌⊎◌, Err, IfOk, IfErr, OnOk};
ghost use Rattle.flow_shares.specs.Starts.{AsksForEach};
ghost use Rattle.flow_shares.specs.meetings.SharedNetworks.{SharedNetwork, AreFed};
ghost use Rattle.flow_drives.specs.loops.Epochs.{AreOfOneGraph, IsEpoch};
ghost use Rattle.flow_drives.specs.Configs.{IsLawful};
ghost use Rattle.flow_drives.specs.declared.driver.DriveError.TheVariants.{NoMemory, NoThread};

use crate::config::Config;
use crate::driver::DriveError;
use crate::loops;
use crate::loops::owners_of_shares;
use flow_base::Transducer;
use flow_edges::lanes::Rings;
use flow_shares::{AlwaysStart, Gate, Share, Start};
use std::alloc::Global;
use std::sync::Arc;
use std::thread::Threads;

/// One epoch of all shares of a graph, as `deal_rings` or an epoch before gave them: the ends of every edge meet, all shares are
/// pumped side by side, each in a thread, and the ends meet again.
///
/// A share that starved comes back with the others. Refused as `NoThread` where a thread could not be started, and else as
/// `NoMemory` where memory was refused for a list; the shares are then let go.
pub fn epoch<
    R: Threads,
    T: Transducer + Send + Drop + 'static,
    G: Gate + Send + Sync + Drop + 'static,
>(
    rt: &R,
    alloc: Global,
    shares: Vec<Share<T, Rings>>,
    config: &Config,
    gate: &Arc<G, Global>,
) -> Result<Vec<Share<T, Rings>>, DriveError>
    ghost network: { SharedNetwork ⟦<T as Transducer>⟧ }
    requires lawful { IsLawful config.now }
    requires graph { AreOfOneGraph network shares.items }
    requires fed { AreFed shares.items }
    ensures epoch { IfOk result (λ back. IsEpoch network shares.items back.items) }
    ensures refused { IfErr result (λ error. (error ≡ NoMemory) ⊎ (error ≡ NoThread)) }
{
    epoch_with(rt, alloc, shares, config, gate, &mut AlwaysStart::new())
}

/// The same, where `start` is asked before each thread is started, for each once and in order, and may refuse it.
pub fn epoch_with<
    R: Threads,
    T: Transducer + Send + Drop + 'static,
    G: Gate + Send + Sync + Drop + 'static,
    S: Start,
>(
    rt: &R,
    alloc: Global,
    shares: Vec<Share<T, Rings>>,
    config: &Config,
    gate: &Arc<G, Global>,
    start: &mut S,
) -> Result<Vec<Share<T, Rings>>, DriveError>
    ghost network: { SharedNetwork ⟦<T as Transducer>⟧ }
    requires lawful { IsLawful config.now }
    requires graph { AreOfOneGraph network shares.items }
    requires fed { AreFed shares.items }
    ensures epoch { IfOk result (λ back. IsEpoch network shares.items back.items) }
    ensures refused { IfErr result (λ error. (error ≡ NoMemory) ⊎ (error ≡ NoThread)) }
    ensures asked { OnOk result (AsksForEach S.asked start.old start.new shares.items) }
    ensures start { S.refused start.new → S.refused start.old ⊎ (result ≡ Err NoThread) }
{
    let owners = owners_of_shares(alloc, &shares)?;
    let back = loops::epoch(
        rt,
        alloc,
        shares,
        &owners,
        config.chunk,
        config.idle,
        gate,
        start,
    )?;
    Ok(back)
}
