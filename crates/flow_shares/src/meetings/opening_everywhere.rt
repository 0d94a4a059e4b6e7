// All edges are opened.
ghost use Rattle.std.specs.Prelude.{◌≡◌, ◌<◌, ◌≤◌, false, length, IfOk, OnOk};
ghost use Rattle.std.specs.List.{All};
ghost use Rattle.flow_messages.specs.Limits.{greatest_capacity};
ghost use Rattle.flow_shares.specs.meetings.Opens.{OpensEdge, IsWithoutEnds, HasPlaces};
ghost use Rattle.flow_shares.specs.meetings.Open.{AreOpenEnds};

use crate::meetings::opening::Opening;
use crate::meetings::owners::EdgeOwners;
use flow_messages::Kind;
use std::alloc::{AllocError, Global};

/// So many sets of ends, in which each edge is opened: its writer's end in that of the share that its owner names for it,
/// and its reader's likewise. Each edge takes all items of its kind in `kinds`, and none holds more than `capacity` messages.
///
/// Its only error is that memory was refused.
pub fn open_all<E: Opening + Drop>(
    alloc: Global,
    threads: usize,
    owners: &[EdgeOwners],
    kinds: &[Kind],
    capacity: usize,
) -> Result<Vec<E>, AllocError>
    requires some { 0 < capacity }
    requires limit { capacity ≤ greatest_capacity }
    requires writers { All (λ owner. owner.writer < threads) owners.now }
    requires readers { All (λ owner. owner.reader < threads) owners.now }
    requires kinds { length kinds.now ≡ length owners.now }
    ensures count { IfOk result (λ ends. length ends.items ≡ threads) }
    ensures opened { IfOk result (AreOpenEnds E.view E.joins E.slots owners.now
        kinds.now capacity) }
{
    let mut ends = no_ends(alloc, threads, kinds, capacity)?;
    for edge in 0..owners.len() {
        open_edge(alloc, &mut ends, owners[edge], edge, kinds[edge], capacity)?;
    }
    Ok(ends)
}

// So many sets without an end, each with a place for those of each edge that has a kind.
fn no_ends<E: Opening + Drop>(
    alloc: Global,
    threads: usize,
    kinds: &[Kind],
    capacity: usize,
) -> Result<Vec<E>, AllocError>
    ensures count { IfOk result (λ ends. length ends.items ≡ threads) }
    ensures place { IfOk result (λ ends. All (HasPlaces E.has_place kinds.now capacity) ends.items) }
    ensures none { IfOk result (λ ends. All (λ a. IsWithoutEnds (E.view a)) ends.items) }
{
    let mut ends = Vec::with_capacity(alloc, threads)?;
    for _ in 0..threads {
        ends.push(E::none(alloc, kinds, capacity)?)?;
    }
    Ok(ends)
}

// One edge is opened, wherever its ends are to be.
fn open_edge<E: Opening>(
    alloc: Global,
    ends: &mut [E],
    owner: EdgeOwners,
    edge: usize,
    kind: Kind,
    capacity: usize,
) -> Result<(), AllocError>
    requires some { 0 < capacity }
    requires limit { capacity ≤ greatest_capacity }
    requires writer { owner.writer < length ends.old }
    requires reader { owner.reader < length ends.old }
    requires place { All (λ a. E.has_place a edge kind capacity) ends.old }
    requires no_writer { All (λ a. (E.view a).writes edge ≡ false) ends.old }
    requires no_reader { All (λ a. (E.view a).reads edge ≡ false) ends.old }
    ensures { OnOk result
        (OpensEdge E.view E.joins E.slots E.opens owner edge kind capacity ends.old ends.new) }
{
    if owner.writer == owner.reader {
        ends[owner.writer].open_own(alloc, edge, kind, capacity)
    } else if owner.writer < owner.reader {
        let (front, back) = ends.split_at_mut(owner.reader);
        front[owner.writer].open_with(&mut back[0], alloc, edge, kind, capacity)
    } else {
        let (front, back) = ends.split_at_mut(owner.writer);
        back[0].open_with(&mut front[owner.reader], alloc, edge, kind, capacity)
    }
}
