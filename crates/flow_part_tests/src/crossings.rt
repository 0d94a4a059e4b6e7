// What the ends of an edge find where they meet, between two shares over rings and within one.
ghost use Rattle.std.specs.Prelude.{◌≡◌, true};
ghost use Rattle.flow_messages.specs.declared.message.Kind.TheVariants.{Int as IntKind};
ghost use Rattle.flow_messages.specs.Kinds.{fits};
ghost use Rattle.flow_messages.specs.Signals.{signal_of};
ghost use Rattle.flow_edges.specs.lanes.Rings.{ends_of, writer_at, reader_at, SameRings, Joins};
ghost use Rattle.flow_samples.specs.Taking.{AllTake};

use crate::messages::{is_message, message};
use flow_edges::lanes::{Rings, rings_stay_joined};
use flow_messages::{Ends, Kind, Msg};
use flow_samples::{crossed, lone};
use std::alloc::{AllocError, Global};
use std::test::Fail;

// How many messages the ends of an edge find, and for how many there is room.
type Found = (usize, usize);

// Puts a message on an edge from one share to another. Whether its ends then find this, or the message was refused where
// there is nothing to find.
fn crosses(
    from: &mut Rings,
    to: &mut Rings,
    edge: usize,
    message: Msg,
    wanted: Option<Found>,
) -> bool
    requires joined { Joins (writer_at from.old edge) (reader_at to.old edge) }
    requires takes { AllTake (ends_of from.old) IntKind }
    requires fits { fits IntKind (signal_of message) ≡ true }
    ensures from { SameRings from.old from.new }
    ensures to { SameRings to.old to.new }
    ensures joined { Joins (writer_at from.new edge) (reader_at to.new edge) }
    ensures takes { AllTake (ends_of from.new) IntKind }
    ensures still { AllTake (ends_of to.old) IntKind → AllTake (ends_of to.new) IntKind }
{
    rings_stay_joined();
    let put = from.put(edge, message).is_ok();
    let held = from.meet_with(to, edge);
    wanted
        == if put {
            Some((held.count, held.room))
        } else {
            None
        }
}

// Whether the ends of two edges between two shares, there and back, find what is put on them.
fn find_between(alloc: Global) -> Result<bool, AllocError> {
    let (mut left, mut right) = crossed::<Rings>(alloc, Kind::Int)?;
    rings_stay_joined();
    let there = crosses(&mut left, &mut right, 0, message(Some(7)), Some((1, 1)))
        && crosses(&mut left, &mut right, 0, Msg::End, Some((2, 0)));
    let back = crosses(&mut right, &mut left, 1, Msg::End, Some((1, 1)))
        && crosses(&mut right, &mut left, 1, Msg::End, None);
    Ok(there && back)
}

// What the two ends of an edge in one share find after the put of an `End`, and after its take. Nothing where one of these does
// not go.
fn found_within(share: &mut Rings) -> Option<(Found, Found)>
    requires joined { Joins (writer_at share.old 0) (reader_at share.old 0) }
    requires takes { AllTake (ends_of share.old) IntKind }
{
    rings_stay_joined();
    let put = share.put(0, Msg::End).is_ok();
    let first = share.meet_own(0);
    let taken = is_message(share.take(0), None);
    let then = share.meet_own(0);
    if put && taken {
        Some(((first.count, first.room), (then.count, then.room)))
    } else {
        None
    }
}

#[test]
fn ends_find_what_is_held(rt: HostRuntime) -> Result<(), Fail> {
    let between = find_between(rt.alloc())?;
    let mut share = lone::<Rings>(rt.alloc(), Kind::Int)?;
    let within = found_within(&mut share);
    assert_eq!(rt; (between, within), (true, Some(((1, 0), (0, 1)))));
    Ok(())
}
