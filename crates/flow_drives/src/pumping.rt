// Shares pumped as configurations say.
ghost use Rattle.std.specs.Prelude.{◌≡◌, true, false, length};
ghost use Rattle.flow_shares.specs.Pumps.{IsPumped};
ghost use Rattle.flow_shares.specs.Shares.{TakesMemory};
ghost use Rattle.flow_drives.specs.Configs.{IsLawful};
ghost use Rattle.flow_drives.specs.Pumped.{HasMovedOften};
ghost use Rattle.flow_shares.specs.Running.{HeardEachTurn};

use crate::config::Config;
use flow_base::Transducer;
use flow_messages::Ends;
use flow_shares::{Gate, Share};

/// Visits the nodes of a share in turns, each node with at most `chunk` steps, and gives the share back.
///
/// It ends after `idle` turns in a row that moved nothing, or after one where all nodes are over: then no node can step by
/// what its ends are certain of. It ends at once where the share has no node; after 65,536 turns, and then the share is
/// spent; and where memory was refused to a node, and then the share is starved. The gate is called before each turn.
pub fn pump<T: Transducer, E: Ends, G: Gate>(
    share: Share<T, E>,
    config: &Config,
    gate: &G,
) -> Share<T, E>
    requires lawful { IsLawful config.now }
    requires fed { share.starved ≡ false }
    ensures pumped { IsPumped share result }
    ensures starves { result.starved ≡ true → TakesMemory result.nodes.items }
    ensures spent { result.spent ≡ true → result.starved ≡ false }
    ensures often { result.spent ≡ true → HasMovedOften config.now.idle share result }
    ensures heard { result.spent ≡ true → HeardEachTurn G.heard gate.now share.number }
    ensures none { length share.nodes.items ≡ 0 → result.spent ≡ false }
{
    flow_shares::pump(share, config.chunk, config.idle, gate)
}
