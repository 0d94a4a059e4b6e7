// Shares that were dealt out, the first of them pumped by itself.

ghost use Rattle.flow_shares.specs.meetings.SharedNetworks.{AreFed};
ghost use Rattle.flow_drives.specs.Configs.{IsLawful};

use flow_base::Transducer;
use flow_drives::{Config, Drive, NoGate, Share, deal, deal_rings, pump};
use flow_messages::Ends;
use flow_samples::{MANY_UNITS, SUM_OF_FIVE, graph_of};
use kahn::Want;
use std::alloc::{AllocError, Global};
use std::test::Fail;

// Each of the first sixteen nodes in a share of its own.
fn apart(alloc: Global) -> Result<Config, AllocError> {
    let mut share = Vec::new(alloc);
    for entry in 0..16u8 {
        share.push(entry)?;
    }
    Ok(Config {
        capacity: 1,
        chunk: 1,
        threads: 16,
        idle: 1,
        share,
        drive: Drive::Rounds,
    })
}

// Whether there is room on the only edge that the first of sixteen shares writes, after a pump that moved a message and came to
// rest. Nothing where it is not so.
fn room_after<T: Transducer + Drop, E: Ends + Drop>(
    shares: Vec<Share<T, E>>,
    config: &Config,
) -> Option<bool>
    requires lawful { IsLawful config.now }
    requires fed { AreFed shares.items }
{
    let mut shares = shares;
    if shares.len() != 16 {
        return None;
    }
    let share = shares.swap_remove(0);
    let share = pump(share, config, &NoGate);
    if share.nodes().len() != 1 || !share.moved() || share.spent() || share.starved() {
        return None;
    }
    let mut ends = share.into_parts().1;
    if !ends.has_writer(0) || ends.has_reader(0) {
        return None;
    }
    Some(ends.room(0))
}

// The source has put its one message on the only edge that it writes.
fn room_on_boxes(alloc: Global) -> Result<Option<bool>, Fail> {
    let config = apart(alloc)?;
    let shares = deal(alloc, graph_of(alloc, SUM_OF_FIVE)?, &config)?;
    Ok(room_after(shares, &config))
}

fn room_on_rings(alloc: Global) -> Result<Option<bool>, Fail> {
    let config = apart(alloc)?;
    let shares = deal_rings(alloc, graph_of(alloc, SUM_OF_FIVE)?, &config)?;
    Ok(room_after(shares, &config))
}

#[test]
fn shares_are_not_spent(rt: HostRuntime) -> Result<(), Fail> {
    let rooms = (room_on_boxes(rt.alloc())?, room_on_rings(rt.alloc())?);
    assert!(rt; rooms.0 == Some(false) && rooms.1.is_some());
    Ok(())
}

// Whether no node of the share makes a step again.
fn are_over<T: Transducer, E: Ends>(share: &Share<T, E>) -> bool {
    for placed in share.nodes() {
        if !matches!(placed.node().want(), Want::Ended) {
            return false;
        }
    }
    true
}

// How often the one share is pumped before it is not spent, which is at most four times, and whether its nodes have ended then.
fn pumped_to_rest<T: Transducer + Drop, E: Ends + Drop>(
    shares: Vec<Share<T, E>>,
    config: &Config,
) -> Option<(usize, bool)>
    requires lawful { IsLawful config.now }
{
    let mut shares = shares;
    if shares.len() != 1 {
        return None;
    }
    let mut share = shares.swap_remove(0);
    for pumps in 1..5usize {
        if share.starved() {
            return None;
        }
        share = pump(share, config, &NoGate);
        if !share.spent() {
            return Some((pumps, are_over(&share)));
        }
    }
    None
}

// Each turn moves one of 66,000 units: after 65,536 of them the share is spent, and a second pump ends with the last.
#[test]
fn a_spent_share_goes_on(rt: HostRuntime) -> Result<(), Fail> {
    let alloc = rt.alloc();
    let config = Config {
        capacity: 1,
        chunk: 1,
        threads: 1,
        idle: 1,
        share: vec![in alloc; 0u8]?,
        drive: Drive::Rings,
    };
    let shares = deal_rings(alloc, graph_of(alloc, MANY_UNITS)?, &config)?;
    assert_eq!(rt; pumped_to_rest(shares, &config), Some((2, true)));
    Ok(())
}
