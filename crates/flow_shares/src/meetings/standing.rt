// Where shares stand: what their last pumps came to, and whether a node can step.
ghost use Rattle.std.specs.Prelude.{◌↔◌, IsTrue};
ghost use Rattle.flow_shares.specs.meetings.SharedNetworks.{AreFed, AreCalm, NoneCanStep, AreLookedAt};

use crate::Share;
use flow_base::Transducer;
use flow_messages::Ends;

/// Whether memory was refused to none of the shares.
pub fn are_fed<T: Transducer, E: Ends>(shares: &[Share<T, E>]) -> bool
    ensures { IsTrue result ↔ AreFed shares.now }
{
    for share in shares {
        if share.starved() {
            return false;
        }
    }
    true
}

/// Whether the last pumps moved no message.
pub fn are_calm<T: Transducer, E: Ends>(shares: &[Share<T, E>]) -> bool
    ensures { IsTrue result ↔ AreCalm shares.now }
{
    for share in shares {
        if share.moved() {
            return false;
        }
    }
    true
}

/// Whether no node of any share can step by what its own ends are certain of. It looks at ends that nodes want, which may be
/// certain of more then; else nothing changes.
pub fn are_stuck<T: Transducer, E: Ends>(shares: &mut [Share<T, E>]) -> bool
    ensures looked { AreLookedAt shares.old shares.new }
    ensures stuck { IsTrue result ↔ NoneCanStep shares.new }
{
    for k in 0..shares.len() {
        if !shares[k].is_stuck() {
            return false;
        }
    }
    true
}
