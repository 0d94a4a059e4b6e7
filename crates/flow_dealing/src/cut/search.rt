// A search for a dealing of less load.
ghost use Rattle.std.specs.Prelude.{◌<◌, length};
ghost use Rattle.std.specs.List.{All};
ghost use Rattle.flow_dealing.specs.cut.Loads.{AreBetween, IsDealing};
ghost use Rattle.flow_dealing.specs.cut.Near.{AreInside, CanSearch};

use crate::cut::link::Link;
use crate::cut::near::Near;

// How often the nodes and links are passed over at most.
const MAX_PASSES: usize = 64;

// Both nodes of a link are tried together where they have at most so many neighbours.
const MAX_NEAR: usize = 64;

/// Moves nodes, one alone or two that are linked, from one share to another, as long as that makes the greater of the two
/// loads less, or the other one where the greater stays.
pub fn improve(
    work: &[u64],
    links: &[Link],
    near: &[Vec<Near>],
    share: &mut [u8],
    loads: &mut [u64],
)
    requires links { AreBetween (length work.now) links.now }
    requires search { CanSearch (length work.now) (length loads.old) near.now share.old }
    ensures { IsDealing (length work.now) (length loads.old) share.new }
{
    for _ in 0..MAX_PASSES {
        let moved = pass_nodes(work, near, share, loads);
        if !pass_links(work, links, near, share, loads) && !moved {
            break;
        }
    }
}

// Tries to move each node to each share. Whether one was moved.
fn pass_nodes(work: &[u64], near: &[Vec<Near>], share: &mut [u8], loads: &mut [u64]) -> bool
    requires search { CanSearch (length work.now) (length loads.old) near.now share.old }
    ensures { IsDealing (length work.now) (length loads.old) share.new }
{
    let mut moved = false;
    for node in 0..work.len() {
        for to in 0..loads.len() {
            let from = share[node] as usize;
            if from != to && try_nodes(work, near, share, loads, &[node], from, to) {
                moved = true;
            }
        }
    }
    moved
}

// Tries to move the nodes of each link that one share has both, together to each other share. Whether some were moved.
fn pass_links(
    work: &[u64],
    links: &[Link],
    near: &[Vec<Near>],
    share: &mut [u8],
    loads: &mut [u64],
) -> bool
    requires links { AreBetween (length work.now) links.now }
    requires search { CanSearch (length work.now) (length loads.old) near.now share.old }
    ensures { IsDealing (length work.now) (length loads.old) share.new }
{
    let mut moved = false;
    for &Link { writer, reader, .. } in links {
        if near[writer].len().saturating_add(near[reader].len()) > MAX_NEAR {
            continue;
        }
        for to in 0..loads.len() {
            let from = share[writer] as usize;
            if from != to
                && share[reader] as usize == from
                && try_nodes(work, near, share, loads, &[writer, reader], from, to)
            {
                moved = true;
            }
        }
    }
    moved
}

// Moves nodes from one share to another, where that makes the loads of the two less. Whether it did.
fn try_nodes(
    work: &[u64],
    near: &[Vec<Near>],
    share: &mut [u8],
    loads: &mut [u64],
    nodes: &[usize],
    from: usize,
    to: usize,
) -> bool
    requires search { CanSearch (length work.now) (length loads.old) near.now share.old }
    requires nodes { All (λ node. node < length work.now) nodes.now }
    requires from { from < length loads.old }
    requires to { to < length loads.old }
    ensures { IsDealing (length work.now) (length loads.old) share.new }
{
    let before = (loads[from], loads[to]);
    for &node in nodes {
        (loads[from], loads[to]) = after(
            work[node],
            &near[node],
            share,
            (loads[from], loads[to]),
            from,
            to,
        );
        share[node] = to as u8;
    }
    if is_less((loads[from], loads[to]), before) {
        return true;
    }
    for &node in nodes {
        share[node] = from as u8;
    }
    (loads[from], loads[to]) = before;
    false
}

// The loads of two shares, after a node of so much work went from the one to the other.
fn after(
    work: u64,
    near: &[Near],
    share: &[u8],
    loads: (u64, u64),
    from: usize,
    to: usize,
) -> (u64, u64)
    requires { AreInside (length share.now) near.now }
{
    let mut left = loads.0.saturating_sub(work);
    let mut right = loads.1.saturating_add(work);
    for &Near { node, cost } in near {
        let beside = share[node] as usize;
        left = if beside == from {
            left.saturating_add(cost)
        } else {
            left.saturating_sub(cost)
        };
        right = if beside == to {
            right.saturating_sub(cost)
        } else {
            right.saturating_add(cost)
        };
    }
    (left, right)
}

// Whether the greater of these loads is less than the greater of those, or as great, and the other less.
fn is_less(these: (u64, u64), those: (u64, u64)) -> bool {
    let most = these.0.max(these.1);
    let most_of_those = those.0.max(those.1);
    most < most_of_those || most == most_of_those && these.0.min(these.1) < those.0.min(those.1)
}
