// The loads of a dealing.
ghost use Rattle.std.specs.Prelude.{◌≡◌, ◌↔◌, IsTrue, length};
ghost use Rattle.std.specs.List.{sum_by};
ghost use Rattle.std.specs.Io.Iter.{u64_saturate};
ghost use Rattle.flow_dealing.specs.cut.Loads.{AreBetween, cost_to, greatest_load, load, work_of};

use crate::cut::link::Link;

/// Whether each link is between two of so many nodes.
pub fn are_between(nodes: usize, links: &[Link]) -> bool
    ensures { IsTrue result ↔ AreBetween nodes links.now }
{
    links
        .iter()
        .all(|link| link.writer < nodes && link.reader < nodes)
}

/// The greatest load of so many shares. A load is the work of the share's nodes, and the cost of each link that joins one of
/// them to a node of another share. It stays at `u64::MAX`.
pub fn greatest_load(work: &[u64], links: &[Link], share: &[u8], threads: usize) -> u64
    requires links { AreBetween (length work.now) links.now }
    requires each { length share.now ≡ length work.now }
    ensures { result ≡ u64_saturate (greatest_load work.now links.now share.now threads) }
{
    let mut greatest = 0;
    for s in 0..threads {
        greatest = greatest.max(load(work, links, share, s));
    }
    greatest
}

/// The load of a share. It stays at `u64::MAX`.
pub fn load(work: &[u64], links: &[Link], share: &[u8], s: usize) -> u64
    requires links { AreBetween (length work.now) links.now }
    requires each { length share.now ≡ length work.now }
    ensures { result ≡ u64_saturate (load work.now links.now share.now s) }
{
    all_work(work, share, s).saturating_add(all_costs(links, share, s))
}

// The work of the nodes of a share.
fn all_work(work: &[u64], share: &[u8], s: usize) -> u64
    requires { length share.now ≡ length work.now }
    ensures { result ≡ u64_saturate (work_of work.now share.now s (length work.now)) }
{
    let mut sum: u64 = 0;
    for node in 0..work.len() {
        if share[node] as usize == s {
            sum = sum.saturating_add(work[node]);
        }
    }
    sum
}

// What the links cost a share.
fn all_costs(links: &[Link], share: &[u8], s: usize) -> u64
    requires { AreBetween (length share.now) links.now }
    ensures { result ≡ u64_saturate (sum_by (cost_to share.now s) links.now) }
{
    let mut sum: u64 = 0;
    for link in links {
        if (share[link.writer] as usize == s) != (share[link.reader] as usize == s) {
            sum = sum.saturating_add(link.cost);
        }
    }
    sum
}
